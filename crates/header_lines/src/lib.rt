// The two header lines (scope, "The description text"). The inside of the reader: these functions ask what it has tested.
#![tactic(auto)]

ghost use Rattle.std.specs.Prelude.{◌≡◌, ◌≤◌, ◌<◌, length, drop};
ghost use Rattle.description.specs.Header.{order_line, closed, parted, names_from, masks_line};

use description::Masks;
use limits::MAX_ORDER;
use listing::symbols::name_length;
use symbol_tokens::mask_name;
use tokens::bytes::{digit_value, line_ends, stands};

// The first line: exactly `ORDER = ` and one digit from 1 to MAX_ORDER.
pub fn order_line(text: &[u8]) -> Option<usize>
    ensures { result ≡ order_line text.now }
{
    if !stands(text, 0, b"ORDER = ") {
        return None;
    }
    if text.len() < 9 {
        return None;
    }
    let digit = text[8];
    if digit < b'1' {
        return None;
    }
    let order = digit_value(digit);
    if MAX_ORDER < order {
        return None;
    }
    if !line_ends(text, 9) {
        return None;
    }
    Some(order)
}

// The closing bracket at a place, and the line's end after it.
fn closing(text: &[u8], at: usize, declared: u64, count: usize) -> Option<Masks>
    requires { at ≤ length text.now }
    ensures { result ≡ closed declared count at (drop at text.now) }
{
    if at == text.len() {
        return None;
    }
    if text[at] != b']' {
        return None;
    }
    if !line_ends(text, at + 1) {
        return None;
    }
    Some(Masks {
        declared: declared,
        count: count,
        end: at + 1,
    })
}

// Whether a comma and a space stand at a place.
fn parts_names(text: &[u8], at: usize) -> bool
    requires { at ≤ length text.now }
    ensures { result ≡ parted (drop at text.now) }
{
    if text.len() - at < 2 {
        return false;
    }
    if text[at] != b',' {
        return false;
    }
    text[at + 1] == b' '
}

// The names from a place on: one or more, parted by a comma and a space, none twice.
fn names(text: &[u8], from: usize) -> Option<Masks>
    requires { from ≤ length text.now }
    ensures { result ≡ names_from 0 0 from 0 (drop from text.now) }
{
    let mut declared = 0u64;
    let mut count = 0;
    let mut at = from;
    while at < text.len() {
        let mask = mask_name(&text[at..])?;
        if (declared >> mask) % 2 == 1 {
            return None;
        }
        declared = declared ^ (1u64 << mask);
        count = count.max(mask + 1);
        at = at + name_length(mask);
        if !parts_names(text, at) {
            return closing(text, at, declared, count);
        }
        at = at + 2;
    }
    None
}

// The second line: exactly `MASKS = [`, then nothing or names, then `]`.
pub fn masks_line(text: &[u8], from: usize) -> Option<Masks>
    requires { from ≤ length text.now }
    ensures { result ≡ masks_line from (drop from text.now) }
{
    if !stands(text, from, b"MASKS = [") {
        return None;
    }
    let at = from + 9;
    if stands(text, at, b"]") {
        return closing(text, at, 0, 0);
    }
    names(text, at)
}
