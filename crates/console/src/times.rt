// How long a check takes, in words. They are written to a page: a note says them from there, and a plan has them printed with all else by one
// call.
ghost use Rattle.std.specs.Prelude.{◌≤◌, ◌+◌, length};
ghost use Rattle.console.specs.Times.{time_bytes};

use pages::{write_named, write_text};

// About so many sets are looked at in a second, on one core: 180 to 700 million were measured (bench/README.md).
pub const SETS_A_SECOND: u64 = 200_000_000;

// No time takes more bytes in words.
pub const TIME_BYTES: usize = 32;

const MINUTE: u64 = 60;

const HOUR: u64 = 3_600;

const DAY: u64 = 86_400;

const YEAR: u64 = 31_536_000;

// The sets of both notions, NI and SNI, each of which looks at so many; where 64 bits do not hold it, the most that they hold.
pub fn sets_of_both(sets: u64) -> u64 {
    sets.saturating_mul(2)
}

// A time in the largest unit of which there are two.
// kept: its clause bounds what is written to a page, and a Display would have no page
pub fn write_time(page: &mut [u8], at: usize, seconds: u64) -> usize
    requires { at + time_bytes ≤ length page.old }
    ensures { result ≤ at + time_bytes }
{
    if seconds == 0 {
        return write_text(page, at, b"less than a second");
    }
    if seconds == 1 {
        return write_text(page, at, b"1 second");
    }
    if seconds < 2 * MINUTE {
        return write_count(page, at, seconds, b" seconds");
    }
    if seconds < 2 * HOUR {
        return write_count(page, at, seconds / MINUTE, b" minutes");
    }
    if seconds < 2 * DAY {
        return write_count(page, at, seconds / HOUR, b" hours");
    }
    if seconds < 2 * YEAR {
        return write_count(page, at, seconds / DAY, b" days");
    }
    write_count(page, at, seconds / YEAR, b" years")
}

fn write_count(page: &mut [u8], at: usize, count: u64, unit: &[u8]) -> usize
    requires { at + 20 + length unit.now ≤ length page.old }
    ensures { result ≤ at + 20 + length unit.now }
{
    let end = write_named(page, at, b"", count as usize);
    write_text(page, end, unit)
}
