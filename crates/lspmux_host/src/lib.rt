//! The program `lspmux` over sockets, programs, files, the clock and the standard streams of this machine.
#![tactic(auto)]

mod arguments;
mod real;

pub use arguments::words;
use lspmux_program::{log_level, lspmux};
use std::io;
use std::sync::Wait;
use std::thread::Threads;

// The status where memory is wanted for the outside, or the clock can't be read.
const NO_OUTSIDE: u8 = 5;

// Runs these words, and gives the status; an error where there is no outside.
fn status<R: Threads + Wait + Sync>(
    threads: &R,
    rt: HostRuntime,
    words: &[String],
) -> io::Result<u8> {
    let outside = real::outside(rt, log_level(rt.alloc(), words))?;
    Ok(lspmux(threads, rt.alloc(), words, outside).status)
}

/// Runs the command of these words in these threads, and gives its status; 5 where memory is wanted for the outside, or the clock
/// can't be read.
pub fn run<R: Threads + Wait + Sync>(threads: &R, rt: HostRuntime, words: &[String]) -> u8 {
    status(threads, rt, words).unwrap_or(NO_OUTSIDE)
}
