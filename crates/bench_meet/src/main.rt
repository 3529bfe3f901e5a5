//! Reads two JSON texts from the standard input, each on a line of its own, and compares them as capabilities, for `bench/meet`. It
//! writes how many bytes the text has that says what both have in common. With the word `meet`, `declared` or `below` it writes the
//! nanoseconds of processor time that this call took, the reading of both texts among it.
#![tactic(auto)]

use capability_meet::json_span::Tape;
use capability_meet::{below, declared, meet};
use std::env;
use std::io::{self, Read, Write};
use std::process::ExitCode;
use std::time::CpuClock;

// The most bytes that are taken in.
const MOST: usize = 268_435_456;

#[derive(Clone, Copy)]
enum Work {
    Count,
    TimeMeet,
    TimeDeclared,
    TimeBelow,
}

// What the first word behind the program's name asks for.
fn asked(rt: &HostRuntime) -> io::Result<Work> {
    let mut words = env::args(rt)?.skip(1);
    match words.next() {
        Some(word) if word.as_str() == "meet" => Ok(Work::TimeMeet),
        Some(word) if word.as_str() == "declared" => Ok(Work::TimeDeclared),
        Some(word) if word.as_str() == "below" => Ok(Work::TimeBelow),
        _ => Ok(Work::Count),
    }
}

// The bytes before the first end of a line, and those behind it.
fn two_lines(bytes: &[u8]) -> Option<(&[u8], &[u8])> {
    for (place, byte) in bytes.iter().enumerate() {
        if *byte == b'\n' {
            return Some(bytes.split_at(place));
        }
    }
    None
}

// How many bytes say what both have in common; None where a text is refused, is too long, or memory runs out.
fn count_meet(rt: &HostRuntime, first: &[u8], second: &[u8]) -> Option<u128> {
    if first.len() > MOST || second.len() > MOST {
        return None;
    }
    let text = meet(rt.alloc(), first, second).ok()?;
    Some(text.bytes().len() as u128)
}

// The same of what is declared of the first under the second.
fn count_declared(rt: &HostRuntime, first: &[u8], second: &[u8]) -> Option<u128> {
    if first.len() > MOST || second.len() > MOST {
        return None;
    }
    let text = declared(rt.alloc(), first, Some(second)).ok()?;
    Some(text.bytes().len() as u128)
}

// One where the first is below the second.
fn count_below(rt: &HostRuntime, first: &[u8], second: &[u8]) -> Option<u128> {
    if first.len() > MOST || second.len() > MOST {
        return None;
    }
    let left = Tape::read(rt.alloc(), first).ok()?;
    let right = Tape::read(rt.alloc(), second).ok()?;
    Some(below(&left, left.root(), &right, right.root()) as u128)
}

// What is to be written; None where a text is refused or the clock fails.
fn answer(rt: &HostRuntime, work: Work, first: &[u8], second: &[u8]) -> Option<u128> {
    let begin = rt.process_cpu_time().ok()?;
    let count = match work {
        Work::Count | Work::TimeMeet => count_meet(rt, first, second)?,
        Work::TimeDeclared => count_declared(rt, first, second)?,
        Work::TimeBelow => count_below(rt, first, second)?,
    };
    let end = rt.process_cpu_time().ok()?;
    match work {
        Work::Count => Some(count),
        _ => Some(end.saturating_sub(begin).as_nanos()),
    }
}

fn main(rt: HostRuntime) -> ExitCode {
    let (Ok(mut bytes), Ok(work)) = (Vec::with_capacity(rt.alloc(), MOST), asked(&rt)) else {
        return ExitCode::from(2);
    };
    if rt.stdin().read_to_end(&mut bytes).is_err() {
        return ExitCode::from(2);
    }
    let Some((first, second)) = two_lines(&bytes) else {
        return ExitCode::from(1);
    };
    let Some(answer) = answer(&rt, work, first, second) else {
        return ExitCode::from(1);
    };
    match writeln!(rt.stdout(), "{answer}") {
        Ok(_) => ExitCode::SUCCESS,
        Err(_) => ExitCode::from(2),
    }
}
