// Prints what `verdict`, `directed_verdict` and `range_check` answer: on the cases of its input, then on both sides of every limit, then on a table of 512 wires. A case
// is the shares and the masks, a byte each, the table's length in two bytes, the lower first, and the table. Each table has a line of its own, and
// each call on it another, with the whole buffer that was lent and a dash for a number that is as it was. `tests/try_verdict.py` writes the input,
// and works the output out from the scope.
#![tactic(auto)]

ghost use Rattle.std.specs.Prelude.{◌≤◌, ◌<◌};

use division::Ranks;
use limits::RECORD_BYTES;
use std::io;
use try_cases::{case_end, read_full};
use verdict_answers::{Checked, Judged, Refusal};

mod edges;

const INPUT_BYTES: usize = 65536;

const HEAD: usize = 4;

// The numbers in a buffer, more than the largest set has, and what each is before a call.
pub const ROOM: usize = 9;

const UNWRITTEN: u16 = 7777;

// The notions by their numbers.
// kept (C): `edges` asks for the notions 0, 3 and the largest number too, which no enum has
pub const NI: usize = 1;

pub const SNI: usize = 2;

const JOBS: u64 = 3;

fn main(rt: HostRuntime) -> io::Result<()> {
    let mut cases = [0u8; INPUT_BYTES];
    let end = read_full(&mut rt.stdin(), &mut cases)?;
    each(&rt, &cases[0..end])?;
    edges::all(&rt)
}

// One case after the other.
fn each(rt: &impl Print, cases: &[u8]) -> io::Result<()> {
    let mut at = 0;
    let mut end = case_end(cases, 0, HEAD);
    while HEAD <= end - at {
        tell(
            rt,
            &cases[at + HEAD..end],
            usize::from(cases[at]),
            usize::from(cases[at + 1]),
        )?;
        at = end;
        end = case_end(cases, at, HEAD);
    }
    Ok(())
}

// The table that the next lines speak of: its shares, its masks, its length.
pub fn title(rt: &impl Print, table: &[u8], shares: usize, masks: usize) -> io::Result<()> {
    println!(rt; "table {shares} {masks} {}", table.len())
}

// Verdicts at every order, and range checks, under both notions.
fn tell(rt: &impl Print, table: &[u8], shares: usize, masks: usize) -> io::Result<()> {
    title(rt, table, shares, masks)?;
    verdicts(rt, table, shares, masks, NI)?;
    verdicts(rt, table, shares, masks, SNI)?;
    ranges(rt, table, shares, masks, NI)?;
    ranges(rt, table, shares, masks, SNI)
}

fn verdicts(
    rt: &impl Print,
    table: &[u8],
    shares: usize,
    masks: usize,
    notion: usize,
) -> io::Result<()> {
    for order in 1..shares {
        tell_verdict(rt, table, shares, masks, notion, order, ROOM)?;
    }
    Ok(())
}

fn ranges(
    rt: &impl Print,
    table: &[u8],
    shares: usize,
    masks: usize,
    notion: usize,
) -> io::Result<()> {
    for size in 0..4usize {
        ranges_of(rt, table, shares, masks, notion, size)?;
    }
    Ok(())
}

// All sets of a size; the same in jobs; those past the first find; and no set, just before the find.
fn ranges_of(
    rt: &impl Print,
    table: &[u8],
    shares: usize,
    masks: usize,
    notion: usize,
    size: usize,
) -> io::Result<()> {
    let sets = sets_of(table, size);
    let found = tell_range(rt, table, shares, masks, notion, size, 0, sets, ROOM)?.unwrap_or(sets);
    jobs(rt, table, shares, masks, notion, size)?;
    if found < sets {
        tell_range(
            rt,
            table,
            shares,
            masks,
            notion,
            size,
            found + 1,
            sets,
            ROOM,
        )?;
    }
    tell_range(rt, table, shares, masks, notion, size, found, found, ROOM)?;
    Ok(())
}

fn sets_of(table: &[u8], size: usize) -> u64 {
    sets::set_count(table.len() / RECORD_BYTES, size).unwrap_or(0)
}

fn jobs(
    rt: &impl Print,
    table: &[u8],
    shares: usize,
    masks: usize,
    notion: usize,
    size: usize,
) -> io::Result<()> {
    for job in 0..JOBS {
        match division::job(table.len() / RECORD_BYTES, size, job, JOBS) {
            Ok(Ranks { from, to }) => {
                tell_range(rt, table, shares, masks, notion, size, from, to, ROOM)?;
            }
            Err(_) => println!(rt; "no job")?,
        }
    }
    Ok(())
}

// A verdict, and the directed verdict.
pub fn tell_verdict(
    rt: &impl Print,
    table: &[u8],
    shares: usize,
    masks: usize,
    notion: usize,
    order: usize,
    room: usize,
) -> io::Result<()>
    requires { room ≤ 9 }
{
    print!(rt; "verdict {notion} {order} {room}")?;
    ask(
        rt,
        |set| verdict::verdict(table, shares, masks, notion, order, set),
        room,
    )?;
    print!(rt; "directed {notion} {order} {room}")?;
    ask(
        rt,
        |set| directed::directed_verdict(table, shares, masks, notion, order, set),
        room,
    )
}

// What a verdict answers, with a fresh buffer of which the first `room` numbers are lent.
fn ask<F: FnOnce(&mut [u16]) -> Result<Judged, Refusal>>(
    rt: &impl Print,
    judge: F,
    room: usize,
) -> io::Result<()>
    requires callable { F.IsAlwaysCallable judge }
    requires room { room ≤ 9 }
{
    let mut buffer = [UNWRITTEN; ROOM];
    match judge(&mut buffer[0..room]) {
        Ok(Judged::Holds) => print!(rt; ": holds")?,
        Ok(Judged::Broken { size }) => print!(rt; ": broken {size}")?,
        Err(why) => print!(rt; ": refused {}", why.number())?,
    }
    held(rt, &buffer)
}

// The same for a range; gives the rank that was found.
pub fn tell_range(
    rt: &impl Print,
    table: &[u8],
    shares: usize,
    masks: usize,
    notion: usize,
    size: usize,
    from: u64,
    to: u64,
    room: usize,
) -> io::Result<Option<u64>>
    requires { room ≤ 9 }
{
    print!(rt; "range {notion} {size} {from} {to} {room}")?;
    let mut buffer = [UNWRITTEN; ROOM];
    let lent = &mut buffer[0..room];
    let at = match verdict::range_check(table, shares, masks, notion, size, from, to, lent) {
        Ok(Checked::Clean) => {
            print!(rt; ": clean")?;
            None
        }
        Ok(Checked::Found { size, rank }) => {
            print!(rt; ": found {size} {rank}")?;
            Some(rank)
        }
        Err(why) => {
            print!(rt; ": refused {}", why.number())?;
            None
        }
    };
    held(rt, &buffer)?;
    Ok(at)
}

// What a buffer holds.
fn held(rt: &impl Print, buffer: &[u16]) -> io::Result<()> {
    print!(rt; " | ")?;
    for x in buffer {
        held_number(rt, *x)?;
    }
    println!(rt; "")
}

fn held_number(rt: &impl Print, x: u16) -> io::Result<()> {
    if x == UNWRITTEN {
        print!(rt; "-")
    } else {
        print!(rt; "{x} ")
    }
}
