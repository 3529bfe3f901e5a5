//! The program `lspmux`: a daemon that lets several editors share a running language server, and what speaks with it.
#![tactic(auto)]

use lspmux_host::{run, words};
use std::process::ExitCode;

// The status where memory is wanted for the words.
const NO_WORDS: u8 = 5;

fn main(rt: HostRuntime) -> ExitCode {
    match words(&rt) {
        Ok(words) => ExitCode::from(run(&rt, rt, words.as_slice())),
        Err(_) => ExitCode::from(NO_WORDS),
    }
}
