// The argument of a program that takes a number and nothing else.
use number_words::{is_number, number_of};
use std::env::{Env, FillError};

#[derive(Drop)]
pub enum NoNumber {
    Missing,
    // it is no number, or too long, or there are more of them
    Other,
}

// The only argument. The buffer is as long as a number may be.
pub fn only_number(rt: &impl Env, buffer: &mut [u8]) -> Result<usize, NoNumber> {
    // the program's own name is the first
    if is_there(rt, 2) {
        return Err(NoNumber::Other);
    }
    match rt.arg(1, buffer) {
        Ok(length) => number_in(&buffer[..length]),
        Err(FillError::NotPresent) => Err(NoNumber::Missing),
        // it is longer than the buffer
        Err(FillError::TooLong) => Err(NoNumber::Other),
    }
}

// Whether there is an argument at the place, whatever it is.
fn is_there(rt: &impl Env, place: usize) -> bool {
    !matches!(rt.arg(place, &mut []), Err(FillError::NotPresent))
}

fn number_in(word: &[u8]) -> Result<usize, NoNumber> {
    if is_number(word) {
        return Ok(number_of(word));
    }
    Err(NoNumber::Other)
}
