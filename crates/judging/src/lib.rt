// The verdict by either search: all tests, what is told and what is written, around the search that finds the first breaking set. The two searches promise the
// same, so nothing here depends on which of them it is.
// Every argument may be anything its type holds: what is out of range is refused, in the scope's order, and a refusal alters no lent number.
#![tactic(auto)]

ghost use Rattle.std.specs.Prelude.{◌≡◌, ◌≤◌, length};
ghost use Rattle.limits.specs.Limits.{max_shares, max_masks, max_table_bytes, max_size};
ghost use Rattle.records.specs.Layout.{wire_count};
ghost use Rattle.breaking.specs.Breaking.{is_breaking};
ghost use Rattle.search.specs.Search.{searched, FirstSet};
ghost use Rattle.verdict_answers.specs.Answers.{verdict_told, verdict_of};
ghost use Rattle.verdict_answers.specs.First.{VerdictFinds};
ghost use Rattle.verdict_answers.specs.Guarantee.{Guarantee};

use limits::MAX_SIZE;
use opening::{opening, write};
use verdict_answers::{Judged, Refusal};
use wires::Notion;

// How the first breaking set is looked for.
pub trait Search {
    // The size of the first breaking set of up to `order` wires, with the set at the start of `probes`.
    fn first_set(table: &[u8], notion: Notion, order: usize, probes: &mut [u16]) -> Option<usize>
        requires { (length table.now ≤ max_table_bytes) × (order ≤ max_size) × (order ≤ length probes.old) }
        ensures { FirstSet (is_breaking notion table.now max_shares max_masks) (searched (wire_count table.now) order) result probes.new };
}

// Set by set in the published order.
#[derive(Clone, Copy)]
pub struct Walk;

impl Search for Walk {
    fn first_set(table: &[u8], notion: Notion, order: usize, probes: &mut [u16]) -> Option<usize> {
        search::first_set(table, notion, order, probes)
    }
}

// Directed by the masks.
#[derive(Clone, Copy)]
pub struct Directed;

impl Search for Directed {
    fn first_set(table: &[u8], notion: Notion, order: usize, probes: &mut [u16]) -> Option<usize> {
        directed_search::first_set(table, notion, order, probes)
    }
}

// Whether the table holds the notion (1, NI; 2, SNI) at an order. Where it does not, the first breaking set in rising size and rank is
// written, rising, at the start of `set`.
pub fn judge<S: Search>(
    table: &[u8],
    shares: usize,
    masks: usize,
    notion: usize,
    order: usize,
    set: &mut [u16],
) -> Result<Judged, Refusal>
    ensures set_after { verdict_told result set.new ≡ verdict_of table.now shares masks notion order set.old }
    ensures verdict_finds { VerdictFinds result table.now shares masks notion order set.old set.new }
    ensures guarantee { Guarantee result table.now shares masks notion order set.new }
{
    let kind = opening(table, shares, masks, notion)?;
    if order < 1 {
        return Err(Refusal::OrderOutOfRange);
    }
    if shares <= order {
        return Err(Refusal::OrderOutOfRange);
    }
    if set.len() < order {
        return Err(Refusal::BufferTooShort);
    }
    let mut probes = [0u16; MAX_SIZE];
    match S::first_set(table, kind, order, &mut probes) {
        None => Ok(Judged::Holds),
        Some(size) => {
            write(&probes[0..size], set);
            Ok(Judged::Broken { size })
        }
    }
}
