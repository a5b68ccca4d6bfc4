// Notes for the reader, on standard error. Where they can not be written there are none: what a program prints does not depend on them.
use std::fmt::Display;
use std::io;

// Bytes, which need not be UTF-8: those of a text are not.
pub fn say(notes: &impl Print, bytes: &[u8]) {
    let _ = notes.write_all(bytes);
}

pub fn note(notes: &impl Print, words: impl Display + Drop) {
    let _ = notes.print(words);
}

// What could not be read or written, and the system's reason.
pub fn say_failure(notes: &impl Print, name: &str, error: io::Error) {
    note(notes, format_args!("{name}: {error}\n"));
}
