// Prints what `table_check` and `function_check` answer on the cases of its input, and how many small sets of an accepted table break. A case
// is the shares, the masks and the function, a byte each, the table's length in two bytes, the lower first, and the table. `tests/try_table.py`
// writes the input, and works the output out by trying every value of shares and masks.
#![tactic(auto)]

ghost use Rattle.std.specs.Prelude.{◌≤◌, ◌<◌};
ghost use Rattle.records.specs.Layout.{wire_count};

use limits::RECORD_BYTES;
use std::io;
use try_cases::{case_end, read_full};
use wires::Notion;

const ROOM: usize = 131072;

// Tables of so many wires at most have their breaking sets counted.
const FEW_WIRES: usize = 12;

const HEAD: usize = 5;

fn main(rt: HostRuntime) -> io::Result<()> {
    let mut cases = [0u8; ROOM];
    let end = read_full(&mut rt.stdin(), &mut cases)?;
    each(&rt, &cases[0..end])
}

// One case after the other.
fn each(rt: &impl Print, cases: &[u8]) -> io::Result<()> {
    let mut at = 0;
    let mut end = case_end(cases, 0, HEAD);
    while HEAD <= end - at {
        tell(
            rt,
            &cases[at + HEAD..end],
            usize::from(cases[at]),
            usize::from(cases[at + 1]),
            usize::from(cases[at + 2]),
        )?;
        at = end;
        end = case_end(cases, at, HEAD);
    }
    Ok(())
}

// The arguments, and the two answers.
fn tell(
    rt: &impl Print,
    table: &[u8],
    shares: usize,
    masks: usize,
    function: usize,
) -> io::Result<()> {
    print!(rt; "{shares} {masks} {} {function} ", table.len())?;
    let tested = table::table_check(table, shares, masks);
    match tested {
        Ok(()) => print!(rt; "accepted ")?,
        Err(why) => print!(rt; "refused {} ", why.number())?,
    }
    match table::function_check(table, shares, masks, function) {
        Ok(true) => print!(rt; "yes")?,
        Ok(false) => print!(rt; "no")?,
        Err(why) => print!(rt; "refused {}", why.number())?,
    }
    if tested.is_ok() {
        breaking(rt, table)?;
    }
    println!(rt; "")
}

// How many sets of one, two and three wires break NI, and how many SNI, out of a table of a few wires.
fn breaking(rt: &impl Print, table: &[u8]) -> io::Result<()> {
    let wires = table.len() / RECORD_BYTES;
    if FEW_WIRES < wires {
        return Ok(());
    }
    let ni = sets_of_three(table, Notion::Ni, wires);
    let sni = sets_of_three(table, Notion::Sni, wires);
    print!(rt; " breaking {ni} {sni}")
}

fn sets_of_three(table: &[u8], notion: Notion, wires: usize) -> usize
    requires { (wires ≤ 12) × (wires ≤ wire_count table.now) }
{
    let mut count = 0;
    for i in 0..wires {
        count = counted(count, breaking::set_breaks(table, notion, &[i as u16]));
        count = with_first(table, notion, wires, i, count);
    }
    count
}

// The pairs and the triples whose first wire is i.
fn with_first(table: &[u8], notion: Notion, wires: usize, i: usize, so_far: usize) -> usize
    requires { (wires ≤ 12) × (wires ≤ wire_count table.now) × (i < wires) }
{
    let mut count = so_far;
    for j in i + 1..wires {
        count = counted(
            count,
            breaking::set_breaks(table, notion, &[i as u16, j as u16]),
        );
        count = with_two(table, notion, wires, i, j, count);
    }
    count
}

// The triples whose first wires are i and j.
fn with_two(table: &[u8], notion: Notion, wires: usize, i: usize, j: usize, so_far: usize) -> usize
    requires { (wires ≤ 12) × (wires ≤ wire_count table.now) × (i < wires) × (j < wires) }
{
    let mut count = so_far;
    for k in j + 1..wires {
        count = counted(
            count,
            breaking::set_breaks(table, notion, &[i as u16, j as u16, k as u16]),
        );
    }
    count
}

// One more where a set breaks: there are few sets, so no count is at its end.
fn counted(count: usize, breaks: bool) -> usize {
    count.saturating_add(usize::from(breaks))
}
