// Symbols as they are read: the inside of the reader. These functions ask what it has tested.
#![tactic(auto)]

ghost use Rattle.std.specs.Prelude.{◌≡◌, ◌≤◌, length};
ghost use Rattle.description.specs.Symbols.{mask_at, share_figure, share_of, share_digit, named_read, symbol_read};
ghost use Rattle.symbol_tokens.specs.Digits.{is_product, is_share};

use description::SymbolFault;
use limits::MAX_MASKS;
use listing::symbols::name_length;
use tokens::bytes::{digit_value, is_digit};
use wires::Symbol;

// The highest number of a mask.
const MAX_MASK: usize = MAX_MASKS - 1;

// The mask whose name these bytes begin with: r and a number 0 to 63 without leading zeros.
pub fn mask_name(bytes: &[u8]) -> Option<usize>
    ensures { result ≡ mask_at bytes.now }
{
    if bytes.len() < 2 {
        return None;
    }
    if bytes[0] != b'r' {
        return None;
    }
    let first = bytes[1];
    if !is_digit(first) {
        return None;
    }
    if bytes.len() < 3 {
        return Some(digit_value(first));
    }
    let second = bytes[2];
    if !is_digit(second) {
        return Some(digit_value(first));
    }
    if first == b'0' {
        return None;
    }
    let number = 10 * digit_value(first) + digit_value(second);
    if MAX_MASK < number {
        return None;
    }
    Some(number)
}

// The share that a byte writes.
fn share_number(c: u8) -> usize
    requires { share_figure (share_of c) ≡ c }
    ensures { result ≡ share_of c }
{
    digit_value(c)
}

// Whether a byte writes a share that there is.
fn is_share_digit(c: u8, shares: usize) -> bool
    ensures { result ≡ share_digit shares c }
{
    if c < b'0' {
        return false;
    }
    share_number(c) < shares
}

// Whether a letter and two digits of shares stand here.
fn is_product(word: &[u8], shares: usize) -> bool
    ensures { result ≡ is_product shares word.now }
{
    if word.len() != 3 {
        return false;
    }
    if !is_share_digit(word[1], shares) {
        return false;
    }
    is_share_digit(word[2], shares)
}

// Whether a letter and one digit of a share stand here.
fn is_share(word: &[u8], shares: usize) -> bool
    ensures { result ≡ is_share shares word.now }
{
    if word.len() != 2 {
        return false;
    }
    is_share_digit(word[1], shares)
}

// What a run of bytes is if it is no product and no share: a declared mask, one that is not, or nothing.
fn mask_of(word: &[u8], declared: u64) -> Result<Symbol, SymbolFault>
    ensures { result ≡ named_read declared (length word.now) (mask_at word.now) }
{
    let mask = mask_name(word).ok_or(SymbolFault::NoSuch)?;
    if word.len() != name_length(mask) {
        return Err(SymbolFault::NoSuch);
    }
    if (declared >> mask) % 2 == 1 {
        return Ok(Symbol::Mask(mask));
    }
    Err(SymbolFault::NotDeclared)
}

// What a run of bytes is.
pub fn symbol_of(word: &[u8], shares: usize, declared: u64) -> Result<Symbol, SymbolFault>
    requires { 1 ≤ length word.now }
    ensures { result ≡ symbol_read shares declared word.now }
{
    match word[0] {
        b's' if is_product(word, shares) => Ok(Symbol::Product(
            share_number(word[1]),
            share_number(word[2]),
        )),
        b'a' if is_share(word, shares) => Ok(Symbol::ShareA(share_number(word[1]))),
        b'b' if is_share(word, shares) => Ok(Symbol::ShareB(share_number(word[1]))),
        b's' | b'a' | b'b' => Err(SymbolFault::NoSuch),
        _ => mask_of(word, declared),
    }
}
