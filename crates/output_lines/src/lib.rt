// Output lines (scope, "The description text"): lines of spaces only, or empty, are skipped; each other line is one output share.
#![tactic(auto)]

ghost use Rattle.std.specs.Prelude.{◌≡◌, false, not, eqb, List, ℕ, ◌≤◌, ◌<◌, length, position};
ghost use Rattle.description.specs.Bytes.{space};
ghost use Rattle.limits.specs.Limits.{max_shares, max_table_bytes};
ghost use Rattle.description.specs.Run.{max_text};
ghost use Rattle.groups.specs.Going.{Within, Sized, Ends};
ghost use Rattle.output_lines.specs.Going.{Skips, LineReads, LinesRead, next_line, start_progress};

use description::{Fault, PlacedSymbol, Refusal};
use groups::group;
use listing::{Progress, empty_group, end_line};
use records::sums::nothing;
use tokens::bytes::line_ends;
use wires::Symbol;

// How many parentheses may be open at once.
pub const MAX_DEPTH: usize = 16;

// The first place from here on where no space stands.
fn after_spaces(text: &[u8], from: usize) -> usize
    requires { from ≤ length text.now }
    ensures { Skips text.now from result }
{
    let rest = &text[from..];
    from + first_other(rest).unwrap_or(rest.len())
}

// The place of the first byte that is no space.
fn first_other(run: &[u8]) -> Option<usize>
    ensures { result ≡ position (λ c. not (eqb c space)) run.now }
{
    run.iter().position(|c| *c != b' ')
}

// Past a line's end; the text's end is left.
fn next_line(text: &[u8], progress: Progress) -> Progress
    ensures { result ≡ next_line (length text.now) progress }
{
    let mut next = progress;
    if progress.at < text.len() {
        next.at = progress.at + 1;
    }
    next
}

// A line after the last output line: it is one too many unless it is skipped.
fn line_over(text: &[u8], progress: Progress) -> Result<Progress, Fault>
    requires { Within (length text.now) progress × (progress.group.filled ≡ false) }
    ensures { (declared : ℕ) (table : List ℕ) → LineReads progress.lines declared text.now table progress table result }
{
    let at = after_spaces(text, progress.at);
    if !line_ends(text, at) {
        return Err(Fault {
            why: Refusal::WrongLineCount,
            offset: at,
        });
    }
    let mut here = progress;
    here.at = at;
    Ok(next_line(text, here))
}

// The end of an output line, or of a line that is skipped, once its group is read.
fn finish_line(text: &[u8], table: &mut [u8], done: Progress) -> Result<Progress, Fault>
    requires text_len_bound { (length text.now ≤ max_text) × (length table.old ≡ max_table_bytes) }
    requires within { Within (length text.now) done × Ends text.now done.at × (done.lines < max_shares) }
    ensures { (shares declared : ℕ) → done.lines < shares → LineReads shares declared text.now table.old done table.new result }
{
    let at = done.at;
    if at < text.len() {
        if text[at] == b')' {
            return Err(Fault {
                why: Refusal::WrongParenthesis,
                offset: at,
            });
        }
    }
    let group = done.group;
    if group.filled {
        let ended = end_line(table, done);
        return Ok(next_line(text, ended));
    }
    Ok(next_line(text, done))
}

// One line from its start on.
fn line(
    text: &[u8],
    table: &mut [u8],
    shares: usize,
    declared: u64,
    progress: Progress,
) -> Result<Progress, Fault>
    requires sized { Sized text.now table.old shares }
    requires within { Within (length text.now) progress × (progress.lines ≤ shares) × (progress.group.filled ≡ false) }
    ensures { LineReads shares declared text.now table.old progress table.new result }
{
    if progress.lines == shares {
        return line_over(text, progress);
    }
    let done = group(text, table, shares, declared, progress, MAX_DEPTH)?;
    finish_line(text, table, done)
}

// Before the output lines.
fn begin(from: usize) -> Progress
    ensures { result ≡ start_progress from }
{
    Progress {
        at: from,
        wires: 0,
        seen: nothing(),
        lines: 0,
        added: false,
        // kept: an output line ends after a symbol, so that an Option would be taken apart where there always is one
        last: PlacedSymbol {
            place: 0,
            symbol: Symbol::ShareA(0),
        },
        group: empty_group(),
    }
}

// The output lines from a place on to the text's end.
pub fn lines(
    text: &[u8],
    table: &mut [u8],
    shares: usize,
    declared: u64,
    from: usize,
) -> Result<Progress, Fault>
    requires sized { Sized text.now table.old shares }
    requires from_in_bounds { from ≤ length text.now }
    ensures { LinesRead shares declared text.now from table.new result }
{
    let mut here = begin(from);
    let mut at = here.at;
    while at < text.len() {
        here = line(text, table, shares, declared, here)?;
        at = here.at;
    }
    if here.lines < shares {
        return Err(Fault {
            why: Refusal::WrongLineCount,
            offset: at,
        });
    }
    Ok(here)
}
