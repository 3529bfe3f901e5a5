//! Makes changes of a text, for `bench/text`. The standard input is a JSON array of lists as `contentChanges` has them (LSP 3.17,
//! DidChangeTextDocumentParams). Each list is made in the text that the one before left; the first text is empty, and UTF-16 counts.
//! It makes them in a `DocText` and in a `PieceText`, compares the two behind each list, and writes how many lists there were. With
//! the word `whole` or `pieces` it uses only the one or the other, and writes the nanoseconds of processor time that each list took.
#![tactic(auto)]

use doc_text::{DocText, Text};
use json_span::Tape;
use position_codec::Encoding;
use std::env;
use std::io::{self, Read, Write};
use std::process::ExitCode;
use std::time::CpuClock;
use text_pieces::PieceText;

#[derive(Clone, Copy)]
enum Work {
    Compare,
    TimeWhole,
    TimePieces,
}

// What the first word behind the program's name asks for.
fn asked(rt: &HostRuntime) -> io::Result<Work> {
    let mut words = env::args(rt)?.skip(1);
    match words.next() {
        Some(word) if word.as_str() == "whole" => Ok(Work::TimeWhole),
        Some(word) if word.as_str() == "pieces" => Ok(Work::TimePieces),
        _ => Ok(Work::Compare),
    }
}

// How many lists there were; None where the two texts differ behind one, or memory runs out.
fn compare(rt: &HostRuntime, tape: &Tape) -> Option<u64> {
    let mut whole = DocText::new(rt.alloc(), b"").ok()?;
    let mut pieces = PieceText::new(rt.alloc(), b"").ok()?;
    let mut count: u64 = 0;
    let mut next = tape.first(tape.root());
    for _ in 0..u32::MAX {
        let Some(list) = next else { break };
        let left = whole.apply(rt.alloc(), Encoding::Utf16, tape, list);
        let right = pieces.apply(rt.alloc(), Encoding::Utf16, tape, list);
        let same = left == right;
        if !same
            || whole.whole(rt.alloc()).ok()?.bytes() != pieces.whole(rt.alloc()).ok()?.bytes()
        {
            return None;
        }
        count = count.saturating_add(1);
        next = tape.next(list);
    }
    Some(count)
}

// The nanoseconds that each list takes; None where one is refused, memory runs out or the clock fails.
fn time<T: Text + Drop>(rt: &HostRuntime, tape: &Tape) -> Option<Vec<u128>> {
    let mut text = T::new(rt.alloc(), b"").ok()?;
    let mut times = Vec::new(rt.alloc());
    let mut next = tape.first(tape.root());
    for _ in 0..u32::MAX {
        let Some(list) = next else { break };
        let begin = rt.process_cpu_time().ok()?;
        text.apply(rt.alloc(), Encoding::Utf16, tape, list).ok()?;
        let end = rt.process_cpu_time().ok()?;
        times.push(end.saturating_sub(begin).as_nanos()).ok()?;
        next = tape.next(list);
    }
    Some(times)
}

fn answer(rt: &HostRuntime, work: Work, bytes: &[u8]) -> Option<Vec<u128>> {
    if bytes.len() > 268_435_456 {
        return None;
    }
    let tape = Tape::read(rt.alloc(), bytes).ok()?;
    match work {
        Work::Compare => {
            let mut count = Vec::new(rt.alloc());
            count.push(compare(rt, &tape)? as u128).ok()?;
            Some(count)
        }
        Work::TimeWhole => time::<DocText>(rt, &tape),
        Work::TimePieces => time::<PieceText>(rt, &tape),
    }
}

fn main(rt: HostRuntime) -> ExitCode {
    let mut bytes = Vec::new(rt.alloc());
    let Ok(asked) = asked(&rt) else {
        return ExitCode::from(2);
    };
    if rt.stdin().read_to_end(&mut bytes).is_err() {
        return ExitCode::from(2);
    }
    let Some(answer) = answer(&rt, asked, &bytes) else {
        return ExitCode::from(1);
    };
    for number in &answer {
        if writeln!(rt.stdout(), "{number}").is_err() {
            return ExitCode::from(2);
        }
    }
    ExitCode::SUCCESS
}
