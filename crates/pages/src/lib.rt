// Bytes and numbers written to a page one after the other: each function is told where the next byte goes, and answers where the one after
// its own goes.
#![tactic(auto)]

ghost use Rattle.std.specs.Prelude.{◌≤◌, ◌<◌, ◌+◌, ◌*◌, [], ◌∷◌, ◌++◌, length};
ghost use Rattle.pages.specs.Decimal.{digit_byte, decimal};
ghost use Rattle.pages.specs.Page.{Wrote, wire_numbers};

// Some bytes.
pub fn write_text(page: &mut [u8], at: usize, text: &[u8]) -> usize
    requires { at + length text.now ≤ length page.old }
    ensures wrote { Wrote page.old at text.now page.new result }
    ensures upper_bound { result ≤ at + length text.now }
{
    page[at..at + text.len()].copy_from_slice(text);
    at + text.len()
}

// One digit.
pub fn write_digit(page: &mut [u8], at: usize, digit: usize) -> usize
    requires { (at < length page.old) × (digit < 10) }
    ensures { Wrote page.old at (digit_byte digit ∷ []) page.new result }
{
    page[at] = (48 + digit) as u8;
    at + 1
}

// A number in base ten: the digits before the last one are those of a tenth of it.
// kept: write! is no plainer, since it gives a Result, and no place for the next byte, also where the page has room
fn write_number(page: &mut [u8], at: usize, number: usize) -> usize
    requires { at + length (decimal number) ≤ length page.old }
    ensures { Wrote page.old at (decimal number) page.new result }
{
    if number < 10 {
        return write_digit(page, at, number);
    }
    let next = write_number(page, at, number / 10);
    write_digit(page, next, number % 10)
}

// Some bytes and a number, which has at most twenty digits.
pub fn write_named(page: &mut [u8], at: usize, name: &[u8], number: usize) -> usize
    requires { at + length name.now + 20 ≤ length page.old }
    ensures wrote { Wrote page.old at (name.now ++ decimal number) page.new result }
    ensures upper_bound { result ≤ at + length name.now + 20 }
{
    let next = write_text(page, at, name);
    write_number(page, next, number)
}

// The numbers of wires, a space before each.
pub fn write_wires(page: &mut [u8], at: usize, set: &[u16]) -> usize
    requires { at + 21 * length set.now ≤ length page.old }
    ensures wrote { Wrote page.old at (wire_numbers set.now) page.new result }
    ensures upper_bound { result ≤ at + 21 * length set.now }
{
    let mut end = at;
    for wire in set {
        end = write_named(page, end, b" ", usize::from(*wire));
    }
    end
}
