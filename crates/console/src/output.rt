// What a program was asked for, on standard output.
use crate::saying::say_failure;

// Prints all of it by one call, and says where that fails. `name` is the failure's: the program and `standard output`.
pub fn print(output: &impl Print, notes: &impl Print, name: &str, bytes: &[u8]) -> bool {
    match output.write_all(bytes) {
        Ok(()) => true,
        Err(error) => {
            say_failure(notes, name, error);
            false
        }
    }
}
