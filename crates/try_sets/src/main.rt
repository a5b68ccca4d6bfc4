// Prints what the entries of `sets` and of `division` answer: every set of up to three out of up to five wires and back, the
// examples of the scope, and every refusal, on both sides of its limit. `tests/try_sets.py` works the same text out from the scope.
#![tactic(auto)]

ghost use Rattle.std.specs.Prelude.{◌≤◌};

use sets::Refusal;
use std::io;

fn main(rt: HostRuntime) -> io::Result<()> {
    orders(&rt)?;
    examples(&rt)?;
    count_limits(&rt)?;
    job_limits(&rt)?;
    set_limits(&rt)?;
    rank_limits(&rt)?;
    no_sets(&rt)
}

fn numbers(rt: &impl Print, set: &[u16]) -> io::Result<()> {
    for wire in set {
        print!(rt; " {wire}")?;
    }
    Ok(())
}

fn refused(rt: &impl Print, why: Refusal) -> io::Result<()> {
    let number = why.number();
    println!(rt; " refused {number}")
}

fn tell_count(rt: &impl Print, wires: usize, k: usize) -> io::Result<()> {
    print!(rt; "count {wires} {k}:")?;
    match sets::set_count(wires, k) {
        Ok(count) => println!(rt; " {count}"),
        Err(why) => refused(rt, why),
    }
}

// The whole buffer is printed, so that what lies past the set shows too.
fn tell_set(
    rt: &impl Print,
    wires: usize,
    k: usize,
    rank: u64,
    buffer: &mut [u16],
) -> io::Result<()> {
    print!(rt; "set {wires} {k} {rank}:")?;
    let answer = sets::set_from_rank(wires, k, rank, buffer);
    numbers(rt, buffer)?;
    match answer {
        Ok(()) => println!(rt; ""),
        Err(why) => refused(rt, why),
    }
}

fn tell_rank(rt: &impl Print, wires: usize, set: &[u16]) -> io::Result<()> {
    print!(rt; "rank {wires}")?;
    numbers(rt, set)?;
    print!(rt; ":")?;
    match sets::rank_from_set(wires, set) {
        Ok(rank) => println!(rt; " {rank}"),
        Err(why) => refused(rt, why),
    }
}

fn tell_job(rt: &impl Print, wires: usize, k: usize, job: u64, jobs: u64) -> io::Result<()> {
    print!(rt; "job {wires} {k} {job} {jobs}:")?;
    match division::job(wires, k, job, jobs) {
        Ok(ranks) => println!(rt; " {} {}", ranks.from, ranks.to),
        Err(why) => refused(rt, why),
    }
}

// The published order, there and back, with the first rank past its end.
fn orders(rt: &impl Print) -> io::Result<()> {
    for wires in 0..6usize {
        sizes(rt, wires)?;
    }
    Ok(())
}

fn sizes(rt: &impl Print, wires: usize) -> io::Result<()> {
    for k in 0..4usize {
        tell_count(rt, wires, k)?;
        ranks(rt, wires, k)?;
    }
    Ok(())
}

fn ranks(rt: &impl Print, wires: usize, k: usize) -> io::Result<()> {
    for rank in 0..11u64 {
        there_and_back(rt, wires, k, rank)?;
    }
    Ok(())
}

fn there_and_back(rt: &impl Print, wires: usize, k: usize, rank: u64) -> io::Result<()> {
    let mut buffer = [9u16; 4];
    tell_set(rt, wires, k, rank, &mut buffer)?;
    if k <= 4 {
        tell_rank(rt, wires, &buffer[..k])?;
    }
    Ok(())
}

fn examples(rt: &impl Print) -> io::Result<()> {
    tell_count(rt, 24, 2)?;
    tell_job(rt, 24, 2, 3, 7)?;
    tell_count(rt, 512, 4)?;
    tell_job(rt, 512, 4, 2, 16)?;
    tell_job(rt, 512, 7, 65535, 65536)?;
    let mut pair = [9u16; 2];
    tell_set(rt, 24, 2, 1, &mut pair)
}

fn count_limits(rt: &impl Print) -> io::Result<()> {
    tell_count(rt, 512, 7)?;
    tell_count(rt, 512, 8)?;
    tell_count(rt, 513, 7)?;
    tell_count(rt, 513, 8)?;
    tell_count(rt, 6, 7)
}

fn job_limits(rt: &impl Print) -> io::Result<()> {
    tell_job(rt, 512, 8, 0, 0)?;
    tell_job(rt, 513, 8, 0, 0)?;
    tell_job(rt, 512, 7, 0, 0)?;
    tell_job(rt, 512, 7, 0, 65536)?;
    tell_job(rt, 512, 7, 0, 65537)?;
    tell_job(rt, 512, 7, 7, 7)?;
    tell_job(rt, 512, 7, 6, 7)?;
    tell_job(rt, 3, 4, 6, 7)?;
    tell_job(rt, 3, 4, u64::MAX, u64::MAX)
}

// A buffer of eight, one of six and an empty one.
fn set_limits(rt: &impl Print) -> io::Result<()> {
    set_in::<8>(rt, 512, 7, 1000000000000)?;
    set_in::<8>(rt, 512, 7, u64::MAX)?;
    set_in::<8>(rt, 512, 8, 0)?;
    set_in::<8>(rt, 513, 9, 0)?;
    set_in::<8>(rt, usize::MAX, 9, 0)?;
    set_in::<6>(rt, 512, 7, u64::MAX)?;
    set_in::<6>(rt, 512, 6, 5)?;
    set_in::<0>(rt, 0, 0, 0)?;
    set_in::<0>(rt, 0, 0, 1)?;
    set_in::<0>(rt, 1, 1, 0)
}

fn set_in<const N: usize>(rt: &impl Print, wires: usize, k: usize, rank: u64) -> io::Result<()>
    requires { N ≤ 8 }
{
    let mut buffer = [9u16; N];
    tell_set(rt, wires, k, rank, &mut buffer)
}

fn rank_limits(rt: &impl Print) -> io::Result<()> {
    let eight = [0u16, 1, 2, 3, 4, 5, 6, 7];
    tell_rank(rt, 513, &eight)?;
    tell_rank(rt, 512, &eight)?;
    let top = [505u16, 506, 507, 508, 509, 510, 511];
    tell_rank(rt, 512, &top)?;
    tell_rank(rt, 511, &top)
}

fn no_sets(rt: &impl Print) -> io::Result<()> {
    let twice = [3u16, 5, 5];
    tell_rank(rt, 512, &twice)?;
    let falling = [5u16, 3];
    tell_rank(rt, 512, &falling)?;
    let far = [65535u16];
    tell_rank(rt, 512, &far)
}
