//! Reads the standard input as one JSON text and writes how many values it has, for `bench/json`. With the word `own` it writes
//! the least nanoseconds of processor time that a reading took, and with the word `kit` those of the reader of the kit's crate
//! `json`, with the check that the bytes are UTF-8.
#![tactic(auto)]

use json_span::Tape;
use std::env;
use std::io::{self, Read, Write};
use std::process::ExitCode;
use std::time::CpuClock;

// The most bytes that a tape reads. Room for them is asked for at once, so that the memory that is in use is that of the bytes.
const MOST: usize = 268_435_456;

#[derive(Clone, Copy)]
enum Work {
    Count,
    TimeOwn,
    TimeKit,
}

// What the first word behind the program's name asks for.
fn asked(rt: &HostRuntime) -> io::Result<Work> {
    let mut words = env::args(rt)?.skip(1);
    match words.next() {
        Some(word) if word.as_str() == "own" => Ok(Work::TimeOwn),
        Some(word) if word.as_str() == "kit" => Ok(Work::TimeKit),
        _ => Ok(Work::Count),
    }
}

// How many values the text has; None where it is none, is too long, or memory runs out.
fn count_values(rt: &HostRuntime, bytes: &[u8]) -> Option<usize> {
    if bytes.len() > MOST {
        return None;
    }
    match Tape::read(rt.alloc(), bytes) {
        Ok(tape) => Some(tape.nodes().len()),
        Err(_) => None,
    }
}

// How often a text is read to find the least time.
const READINGS: u32 = 5;

// The least nanoseconds that a reading takes; None where the text is refused or the clock fails.
fn time_own(rt: &HostRuntime, bytes: &[u8]) -> Option<u128> {
    let mut least = u128::MAX;
    for _ in 0..READINGS {
        let begin = rt.process_cpu_time().ok()?;
        count_values(rt, bytes)?;
        let end = rt.process_cpu_time().ok()?;
        least = least.min(end.saturating_sub(begin).as_nanos());
    }
    Some(least)
}

// The same of the kit's reader, which is handed its index with room for the text.
fn time_kit(rt: &HostRuntime, bytes: &[u8]) -> Option<u128> {
    let mut scratch = json::Scratch::new(rt.alloc());
    scratch.reserve_tape(u32::try_from(bytes.len()).ok()?).ok()?;
    let mut least = u128::MAX;
    for _ in 0..READINGS {
        let begin = rt.process_cpu_time().ok()?;
        let text = simdutf8::compat::from_utf8(bytes).ok()?;
        json::Tape::parse(text, &mut scratch, Vec::new(rt.alloc())).ok()?;
        let end = rt.process_cpu_time().ok()?;
        least = least.min(end.saturating_sub(begin).as_nanos());
    }
    Some(least)
}

// What is to be written; None where the text is refused or the clock fails.
fn answer(rt: &HostRuntime, work: Work, bytes: &[u8]) -> Option<u128> {
    match work {
        Work::Count => Some(count_values(rt, bytes)? as u128),
        Work::TimeOwn => time_own(rt, bytes),
        Work::TimeKit => time_kit(rt, bytes),
    }
}

fn main(rt: HostRuntime) -> ExitCode {
    let (Ok(mut bytes), Ok(work)) = (Vec::with_capacity(rt.alloc(), MOST), asked(&rt)) else {
        return ExitCode::from(2);
    };
    if rt.stdin().read_to_end(&mut bytes).is_err() {
        return ExitCode::from(2);
    }
    let Some(answer) = answer(&rt, work, &bytes) else {
        return ExitCode::from(1);
    };
    match writeln!(rt.stdout(), "{answer}") {
        Ok(_) => ExitCode::SUCCESS,
        Err(_) => ExitCode::from(2),
    }
}
