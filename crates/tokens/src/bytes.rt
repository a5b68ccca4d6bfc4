// Bytes and runs of bytes of a text.
ghost use Rattle.std.specs.Prelude.{◌≡◌, true, ◌≤◌, ◌<◌, ◌+◌, ◌-◌, length, take, drop, position};
ghost use Rattle.description.specs.Bytes.{digit, parts, word, ended, same};

pub const LINE_END: u8 = 10;

// Whether a byte is a digit.
pub fn is_digit(c: u8) -> bool
    ensures value { result ≡ digit c }
    ensures le_c { result ≡ true → (48 ≤ c) × (c ≤ 57) }
{
    c.is_ascii_digit()
}

// The number of a digit.
pub fn digit_value(c: u8) -> usize
    requires { 48 ≤ c }
    ensures { (result ≡ c - 48) × (result < 256) }
{
    usize::from(c - b'0')
}

// Whether a byte ends a symbol: space, parenthesis, bar or line end.
pub fn is_parting(c: u8) -> bool
    ensures { result ≡ parts c }
{
    matches!(c, b' ' | b'(' | b')' | b'|' | LINE_END)
}

// How many bytes the symbol at a place has: the longest run without a byte that parts.
pub fn word_size(text: &[u8], at: usize) -> usize
    requires { at ≤ length text.now }
    ensures { result ≡ length (word (drop at text.now)) }
{
    let rest = &text[at..];
    let parting = first_parting(rest);
    parting.unwrap_or(rest.len())
}

// The place of the first byte that ends a symbol.
fn first_parting(run: &[u8]) -> Option<usize>
    ensures { result ≡ position parts run.now }
{
    run.iter().position(|c| is_parting(*c))
}

// Whether these bytes stand in the text at a place.
pub fn stands(text: &[u8], at: usize, bytes: &[u8]) -> bool
    requires { at ≤ length text.now }
    ensures { result ≡ same (take (length bytes.now) (drop at text.now)) bytes.now }
{
    text[at..].starts_with(bytes)
}

// Whether a line ends at a place: at a line end, or where the text does.
pub fn line_ends(text: &[u8], at: usize) -> bool
    ensures { result ≡ ended (drop at text.now) }
{
    if text.len() <= at {
        return true;
    }
    text[at] == LINE_END
}
