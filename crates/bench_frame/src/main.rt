//! Feeds the standard input to a frame reader, 4,096 bytes at a time, and writes how many bytes the contents of its frames have,
//! for `bench/frame`. With the word `skip` it only reads the bytes, so that a script can take off what that costs.
#![tactic(auto)]

use base_frame::{FrameReader, Next};
use std::env;
use std::io::{self, Read, Write};
use std::process::ExitCode;

// The built-in limit of a content.
const LIMIT: u32 = 67_108_864;

// Whether the first word behind the program's name is `skip`.
fn skips(rt: &HostRuntime) -> io::Result<bool> {
    let mut words = env::args(rt)?.skip(1);
    match words.next() {
        Some(word) => Ok(word.as_str() == "skip"),
        None => Ok(false),
    }
}

// The bytes of the contents in pieces of 4,096 bytes; None where memory runs out.
fn count_contents(rt: &HostRuntime, bytes: &[u8]) -> Option<u64> {
    let mut reader = FrameReader::new(rt.alloc(), LIMIT);
    let mut count: u64 = 0;
    for piece in bytes.chunks(4096) {
        if reader.feed(piece).is_err() {
            return None;
        }
        if let Next::Frame(body) = reader.next() {
            count = count.saturating_add(body.bytes().len() as u64);
        }
    }
    Some(count)
}

fn main(rt: HostRuntime) -> ExitCode {
    let mut bytes = Vec::new(rt.alloc());
    let Ok(skips) = skips(&rt) else {
        return ExitCode::from(2);
    };
    if rt.stdin().read_to_end(&mut bytes).is_err() {
        return ExitCode::from(2);
    }
    let count = if skips {
        Some(bytes.len() as u64)
    } else {
        count_contents(&rt, &bytes)
    };
    let Some(count) = count else {
        return ExitCode::from(1);
    };
    match writeln!(rt.stdout(), "{count}") {
        Ok(_) => ExitCode::SUCCESS,
        Err(_) => ExitCode::from(2),
    }
}
