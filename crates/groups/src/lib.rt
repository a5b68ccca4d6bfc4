// Groups and items (scope, "The description text"): the group reader calls the item reader, and this one the group reader. The text that is
// left and the parentheses that may still be opened fall.
#![tactic(auto)]

ghost use Rattle.std.specs.Prelude.{◌≡◌, false, ℕ, ◌≤◌, ◌<◌, length, get_or};
ghost use Rattle.limits.specs.Limits.{max_shares, max_table_bytes};
ghost use Rattle.description.specs.Bytes.{parts};
ghost use Rattle.description.specs.Run.{max_text, max_depth};
ghost use Rattle.groups.specs.Going.{Within, Sized, ItemByte, ItemReads, GroupReads, CloseReads, Ends, entered};

use description::{Fault, Group, Item, PlacedSymbol, Refusal};
use listing::{Progress, empty_group, put_item, take_symbol};
use symbol_tokens::symbol_of;
use tokens::bytes::{LINE_END, word_size};

// The symbol at the place reached, as an item.
fn symbol_item(
    text: &[u8],
    table: &mut [u8],
    shares: usize,
    declared: u64,
    progress: Progress,
) -> Result<Progress, Fault>
    requires sized { Sized text.now table.old shares }
    requires within { Within (length text.now) progress × (progress.at < length text.now) × (progress.lines < shares) }
    requires at_value { parts (get_or text.now progress.at 0) ≡ false }
    ensures { (room : ℕ) → ItemReads shares declared text.now room table.old progress table.new result }
{
    let at = progress.at;
    let size = word_size(text, at);
    match symbol_of(&text[at..at + size], shares, declared) {
        Ok(symbol) => {
            let known = PlacedSymbol {
                place: at,
                symbol: symbol,
            };
            Ok(take_symbol(table, progress, known))
        }
        Err(fault) => Err(Fault {
            why: Refusal::from(fault),
            offset: at,
        }),
    }
}

// Past a parenthesis that opens a group.
fn enter(progress: Progress) -> Progress
    requires { progress.at < max_text }
    ensures { result ≡ entered progress }
{
    let empty = empty_group();
    let mut next = progress;
    next.at = progress.at + 1;
    next.group = empty;
    next
}

// The end of a group that was opened at a place inside another: it is an item of the one around it.
fn close(
    text: &[u8],
    table: &mut [u8],
    outer: Group,
    from: usize,
    inner: Progress,
) -> Result<Progress, Fault>
    requires text_len_bound { (length text.now ≤ max_text) × (length table.old ≡ max_table_bytes) }
    requires within { Within (length text.now) inner × Ends text.now inner.at × (outer.first ≤ from) × (from < inner.at) × (inner.lines < max_shares) }
    ensures { (shares declared : ℕ) → inner.lines < shares → CloseReads shares declared text.now outer from table.old inner table.new result }
{
    let at = inner.at;
    if at == text.len() {
        return Err(Fault {
            why: Refusal::WrongParenthesis,
            offset: at,
        });
    }
    if text[at] != b')' {
        return Err(Fault {
            why: Refusal::WrongParenthesis,
            offset: at,
        });
    }
    let group = inner.group;
    if !group.filled {
        return Err(Fault {
            why: Refusal::WrongParenthesis,
            offset: at,
        });
    }
    let sum = group.sum;
    let mut next = inner;
    next.group = outer;
    let item = Item {
        sum: sum,
        from: from,
        end: at + 1,
    };
    Ok(put_item(table, next, item))
}

// The item at the place reached: a symbol, or a group in parentheses. So many more parentheses may be opened.
#[cycle(group_item)]
fn item(
    text: &[u8],
    table: &mut [u8],
    shares: usize,
    declared: u64,
    progress: Progress,
    room: usize,
) -> Result<Progress, Fault>
    requires sized { Sized text.now table.old shares }
    requires within { Within (length text.now) progress × (progress.at < length text.now) × (progress.lines < shares) × (room ≤ max_depth) }
    requires item_byte { ItemByte (get_or text.now progress.at 0) }
    ensures { ItemReads shares declared text.now room table.old progress table.new result }
{
    let at = progress.at;
    let byte = text[at];
    if byte == b'|' {
        return Err(Fault {
            why: Refusal::Bar,
            offset: at,
        });
    }
    if byte != b'(' {
        return symbol_item(text, table, shares, declared, progress);
    }
    if room == 0 {
        return Err(Fault {
            why: Refusal::NestedTooDeep,
            offset: at,
        });
    }
    let inner = group(text, table, shares, declared, enter(progress), room - 1)?;
    let outer = progress.group;
    close(text, table, outer, at, inner)
}

// The items of a group from the place reached on, up to a closing parenthesis or a line's end, which is left.
#[cycle(group_item)]
pub fn group(
    text: &[u8],
    table: &mut [u8],
    shares: usize,
    declared: u64,
    progress: Progress,
    room: usize,
) -> Result<Progress, Fault>
    requires sized { Sized text.now table.old shares }
    requires within { Within (length text.now) progress × (progress.lines < shares) × (room ≤ max_depth) }
    ensures { GroupReads shares declared text.now room table.old progress table.new result }
{
    let mut here = progress;
    let mut at = here.at;
    while at < text.len() {
        let byte = text[at];
        if byte == b')' {
            return Ok(here);
        }
        if byte == LINE_END {
            return Ok(here);
        }
        if byte == b' ' {
            here.at = at + 1;
        } else {
            here = item(text, table, shares, declared, here, room)?;
        }
        at = here.at;
    }
    Ok(here)
}
