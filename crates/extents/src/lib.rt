// How far the ranks of a size are covered with one report more, and with the reports that start nearest past what is covered. These functions ask what the
// entries have tested; `extended` and `through` ask nothing.
#![tactic(auto)]

ghost use Rattle.std.specs.Prelude.{◌≡◌, false, ◌<◌};
ghost use Rattle.filed_reports.specs.Bytes.{report_at, report_count};
ghost use Rattle.filed_reports.specs.Filed.{covers};
ghost use Rattle.extents.specs.Extents.{Onward};

use filed_reports::{REPORT_BYTES, report_at};

// How many of the reports that start past what is covered a pass keeps in mind.
pub const WINDOW: usize = 256;

// How far the ranks are covered with one report more. Any number may be given for the report: what is not in the list covers nothing.
pub fn extended(reports: &[u8], i: usize, size: usize, reach: u64) -> u64
    ensures onward { Onward reports.now size reach result }
    ensures reach_value { i < report_count reports.now → result ≡ reach → covers (report_at reports.now i) size reach ≡ false }
{
    if reports.len() / REPORT_BYTES <= i {
        return reach;
    }
    let report = report_at(reports, i);
    if report.size != size {
        return reach;
    }
    if reach < report.from {
        return reach;
    }
    if report.to <= reach {
        return reach;
    }
    report.to
}

// A report that starts past what is covered, and where it starts.
#[derive(Clone, Copy)]
pub struct Ahead {
    pub start: u64,
    pub report: usize,
}

// What stands where no report is kept in mind: nothing starts after it.
pub const NONE_AHEAD: Ahead = Ahead {
    start: u64::MAX,
    report: 0,
};

// Keeps a report that starts past what is covered in mind, if it is one of the nearest: their starts rise. Nothing is promised of this list: it only says
// which report to try next, and what is tried is looked at.
pub fn note(reports: &[u8], i: usize, size: usize, reach: u64, ahead: &mut [Ahead; WINDOW])
    requires { i < report_count reports.now }
{
    let report = report_at(reports, i);
    if report.size != size {
        return;
    }
    let start = report.from;
    if start <= reach {
        return;
    }
    // most reports of a list in no order start past all of them
    if ahead[WINDOW - 1].start <= start {
        return;
    }
    // Those that start later move to the next place, from the last on, which is forgotten.
    // kept: (speed) one loop looks and moves; near the end a search before it takes longer than the moves, and to move all at once an archive for C needs
    // `memmove` from outside (docs/LOOK-BACK.md)
    let noted = Ahead { start, report: i };
    for place in (1..WINDOW).rev() {
        if ahead[place - 1].start <= start {
            ahead[place] = noted;
            return;
        }
        ahead[place] = ahead[place - 1];
    }
    ahead[0] = noted;
}

// How far the ranks are covered with the reports kept in mind, nearest first.
pub fn through(reports: &[u8], size: usize, from: u64, ahead: &[Ahead; WINDOW]) -> u64
    ensures { Onward reports.now size from result }
{
    let mut reach = from;
    for kept in ahead {
        reach = extended(reports, kept.report, size, reach);
    }
    reach
}
