// The theory of wires: what a wire computes, the sum of a set of wires, the shares on which it depends, the sets that break a notion.
// For any number of shares and masks; how a wire stands in memory is not said here. Nothing runs but the reading of a notion's number.
#![tactic(auto)]

ghost use Rattle.wires.specs.Notions.{NotionOf};

// The two notions of security against probes: non-interference, and the strong form in which an outer wire pays for no share.
#[derive(Clone, Copy)]
pub enum Notion {
    Ni,
    Sni,
}

// A number that stands for no notion.
#[derive(Clone, Copy)]
pub struct NoSuchNotion;

// The numbers of the scope: 1 for NI, 2 for SNI.
impl TryFrom<usize> for Notion {
    type Error = NoSuchNotion;

    ghost try_from_gives = { NotionOf };

    fn try_from(number: usize) -> Result<Self, NoSuchNotion> {
        match number {
            1 => Ok(Notion::Ni),
            2 => Ok(Notion::Sni),
            _ => Err(NoSuchNotion),
        }
    }
}

// What a symbol of a description names: the product of share i of a and share j of b, share i of a, share j of b, mask k.
#[derive(Clone, Copy)]
pub enum Symbol {
    Product(usize, usize),
    ShareA(usize),
    ShareB(usize),
    Mask(usize),
}
