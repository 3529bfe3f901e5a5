// The system's words on a fault.
use std::alloc::Global;
use std::io;

/// The system's words on a fault; none where memory is wanted for them.
pub(crate) fn words_on(alloc: Global, error: &io::Error) -> String {
    match format!(in alloc; "{error}") {
        Ok(words) => words,
        Err(_) => String::new(alloc),
    }
}
