// The report of a range check, as machines file it: 32 bytes, read from a list of reports and written. These functions ask what the entries have
// tested.
#![tactic(auto)]

ghost use Rattle.std.specs.Prelude.{◌≡◌, ◌<◌, length};
ghost use Rattle.filed_reports.specs.Bytes.{report_bytes, report_at, report_count, bytes_of_report};

use record_words::writing::write_number;
use records::layout::word;

pub const REPORT_BYTES: usize = 32;

// The found rank of a report that is clean: all ones bits.
// kept: (plainer) an `Option<u64>` has a value more than the eight bytes, and `write_report` would have to rule out `Some` of all ones bits
pub const CLEAN: u64 = u64::MAX;

const SIZE_AT: usize = 1;

const FILLING_AT: usize = 2;

// What the two bytes below the filling come to in a word.
const BELOW_FILLING: u64 = 65536;

const FROM_AT: usize = 8;

const TO_AT: usize = 16;

const FOUND_AT: usize = 24;

const RANK_BYTES: usize = 8;

// What was checked, the ranks from one up to, without, the other, and a rank found to break, or `CLEAN`; the filling is 0.
#[derive(Clone, Copy)]
pub struct Report {
    pub notion: usize,
    pub size: usize,
    pub filling: u64,
    pub from: u64,
    pub to: u64,
    pub found: u64,
}

// A report of a list, by its number.
pub fn report_at(reports: &[u8], i: usize) -> Report
    requires { i < report_count reports.now }
    ensures { result ≡ report_at reports.now i }
{
    let at = REPORT_BYTES * i;
    // the first word is the notion, the size and the filling above these two bytes
    Report {
        notion: usize::from(reports[at]),
        size: usize::from(reports[at + SIZE_AT]),
        filling: word(reports, at) / BELOW_FILLING,
        from: word(reports, at + FROM_AT),
        to: word(reports, at + TO_AT),
        found: word(reports, at + FOUND_AT),
    }
}

// Writes a report.
pub fn write_report(report: Report, bytes: &mut [u8])
    requires { length bytes.old ≡ report_bytes }
    ensures { bytes.new ≡ bytes_of_report report }
{
    write_number(bytes, 0, 1, report.notion as u64);
    write_number(bytes, SIZE_AT, 1, report.size as u64);
    write_number(bytes, FILLING_AT, FROM_AT - FILLING_AT, report.filling);
    write_number(bytes, FROM_AT, RANK_BYTES, report.from);
    write_number(bytes, TO_AT, RANK_BYTES, report.to);
    write_number(bytes, FOUND_AT, RANK_BYTES, report.found);
}

// A rank of a size. A place comes before another by its size, and then by its rank.
#[derive(Clone, Copy, PartialEq, Eq, PartialOrd, Ord)]
pub struct Place {
    pub size: usize,
    pub rank: u64,
}
