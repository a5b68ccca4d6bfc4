// Prints the report on each text that the file `index` lists, a name of a file on each line. Before each, its name on a line of its own.
// `tests/try_report.py` writes the files, and works the output out from the scope.
#![tactic(auto)]

use console::input::INPUT_BYTES;
use report_text::MAX_REPORT;
use std::fs::File;
use std::io;
use std::rt::Files;
use tokens::bytes::LINE_END;
use try_cases::read_full;

const INDEX_BYTES: usize = 16384;

fn main(rt: HostRuntime) -> io::Result<()> {
    let mut index = [0u8; INDEX_BYTES];
    match File::open(&rt, "index") {
        Ok(mut file) => {
            let end = read_full(&mut file, &mut index)?;
            each(&rt, &index[..end])
        }
        Err(_) => rt.print("no index\n"),
    }
}

// One line after the other.
fn each(rt: &(impl Files + Print), index: &[u8]) -> io::Result<()> {
    for line in index.split_inclusive(|byte| *byte == LINE_END) {
        // the last line may have no end
        tell(rt, line.strip_suffix(&[LINE_END]).unwrap_or(line))?;
    }
    Ok(())
}

// A name that is no UTF-8 is shown as it is, and is no file's.
fn tell(rt: &(impl Files + Print), name: &[u8]) -> io::Result<()> {
    rt.write_all(name)?;
    println!(rt; "")?;
    let Ok(path) = std::str::from_utf8(name) else {
        return rt.print("missing\n");
    };
    match File::open(rt, path) {
        Ok(mut file) => {
            let mut text = [0u8; INPUT_BYTES];
            let end = read_full(&mut file, &mut text)?;
            tell_report(rt, &text[..end])
        }
        Err(_) => rt.print("missing\n"),
    }
}

// The whole report.
fn tell_report(rt: &impl Print, text: &[u8]) -> io::Result<()> {
    let mut page = [0u8; MAX_REPORT];
    match report_text::report(text, &mut page) {
        Ok(length) => rt.write_all(&page[..length.min(MAX_REPORT)]),
        Err(_) => rt.print("the page is too short\n"),
    }
}
