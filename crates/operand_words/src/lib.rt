// The operands that leak by a set, as a report names them after its wires. It sees only what the set dependence promises, and asks for room on the page.
#![tactic(auto)]

ghost use Rattle.std.specs.Prelude.{◌≤◌, ◌+◌, length};
ghost use Rattle.verdict_answers.specs.Answers.{set_dependence};
ghost use Rattle.pages.specs.Page.{Wrote};
ghost use Rattle.operand_words.specs.Operands.{operands_named, operands};

use pages::write_text;

// The operands of which a set depends on more shares than the notion allows it.
pub fn operands_said(
    page: &mut [u8],
    at: usize,
    table: &[u8],
    shares: usize,
    masks: usize,
    notion: usize,
    set: &[u16],
) -> usize
    requires { at + 8 ≤ length page.old }
    ensures wrote { Wrote page.old at (operands (set_dependence table.now shares masks notion set.now)) page.new result }
    ensures upper_bound { result ≤ at + 8 }
{
    match dependence::set_dependence(table, shares, masks, notion, set) {
        Ok(on) => operands_named(page, at, on.allowed < on.of_a, on.allowed < on.of_b),
        Err(why) => at,
    }
}

fn operands_named(page: &mut [u8], at: usize, a: bool, b: bool) -> usize
    requires { at + 8 ≤ length page.old }
    ensures wrote { Wrote page.old at (operands_named a b) page.new result }
    ensures upper_bound { result ≤ at + 8 }
{
    if a {
        if b {
            return write_text(page, at, b" by both");
        }
        return write_text(page, at, b" by a");
    }
    if b {
        return write_text(page, at, b" by b");
    }
    at
}
