// What every entry on a table and a notion begins with, and how a set that was found is written to the caller's buffer. No entries: `write` asks
// for the room that the entries have tested.
#![tactic(auto)]

ghost use Rattle.std.specs.Prelude.{◌≡◌, ◌≤◌, length};
ghost use Rattle.verdict_answers.specs.Answers.{written};
ghost use Rattle.opening.specs.Opening.{opened_told, opens};

use table::table_check;
use verdict_answers::Refusal;
use wires::Notion;

// The tests of the table, then 14: what every entry begins with. Gives the notion that was asked for.
pub fn opening(table: &[u8], shares: usize, masks: usize, notion: usize) -> Result<Notion, Refusal>
    ensures { opened_told result ≡ opens table.now shares masks notion }
{
    table_check(table, shares, masks)?;
    Ok(Notion::try_from(notion)?)
}

// Writes a set to the start of a buffer, and nothing past it.
pub fn write(found: &[u16], set: &mut [u16])
    requires { length found.now ≤ length set.old }
    ensures { set.new ≡ written found.now set.old }
{
    set[0..found.len()].copy_from_slice(found);
}
