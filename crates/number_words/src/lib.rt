// A number as a word of digits.
#![tactic(auto)]

ghost use Rattle.std.specs.Prelude.{◌≡◌};
ghost use Rattle.basics.specs.Folds.{every};
ghost use Rattle.description.specs.Bytes.{digit};
ghost use Rattle.number_words.specs.Digits.{is_number, with_digit, number_of};

use tokens::bytes::is_digit;

// From here on a number is large: it has nineteen digits. A number below takes one digit more within 64 bits.
const LARGE: usize = 1_000_000_000_000_000_000;

// Digits alone, and the first no 0 unless it stands alone.
pub fn is_number(word: &[u8]) -> bool
    ensures { result ≡ is_number word.now }
{
    if word.len() == 0 {
        return false;
    }
    if word.len() == 1 {
        return is_digit(word[0]);
    }
    if word[0] == 48 {
        return false;
    }
    all_digits(word)
}

fn all_digits(word: &[u8]) -> bool
    ensures { result ≡ every digit word.now }
{
    word.iter().all(|byte| is_digit(*byte))
}

// The number of a word of digits; of a large one any number that is large.
// kept: str's parse is no plainer, since it gives an error in place of a large number, and takes a sign and leading zeros
pub fn number_of(word: &[u8]) -> usize
    ensures { result ≡ number_of word.now }
{
    let mut number = 0;
    for byte in word {
        number = with_digit(number, *byte);
    }
    number
}

fn with_digit(number: usize, byte: u8) -> usize
    ensures { result ≡ with_digit number byte }
{
    if LARGE <= number {
        return number;
    }
    10 * number + usize::from(byte.saturating_sub(b'0'))
}
