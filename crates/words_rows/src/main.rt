//! Reads lines of words, and writes of each how the program reads these words.
//!
//! A line's words have one space between them; an empty line has no words, and two spaces in a row have an empty word between them.
#![tactic(auto)]

use lspmux_words::{WordsFault, command_of};
use std::alloc::{AllocError, Global};
use std::test::Fail;

// The words of a line.
fn words(alloc: Global, line: &str) -> Result<Vec<String>, AllocError> {
    let mut words = Vec::new(alloc);
    if line.is_empty() {
        return Ok(words);
    }
    for word in line.split(' ') {
        words.push(String::from_str(alloc, word)?)?;
    }
    Ok(words)
}

// How the program reads these words.
fn read(alloc: Global, words: &[String]) -> Result<String, Fail> {
    match command_of(alloc, words) {
        Ok(command) => Ok(format!(in alloc; "{command:?}")?),
        Err(WordsFault::Refused(_why)) => Ok(String::from_str(alloc, "refused")?),
        Err(WordsFault::Memory) => Err(Fail::new("no memory")),
    }
}

fn main(rt: HostRuntime) -> Result<(), Fail> {
    for line in rt.lines(rt.alloc()) {
        let words = words(rt.alloc(), line?.as_str())?;
        let said = read(rt.alloc(), words.as_slice())?;
        println!(rt; "{said}")?;
    }
    Ok(())
}
