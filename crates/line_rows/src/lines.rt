ghost use Rattle.std.specs.Prelude.{◌≡◌, [], false, nat_eq};
ghost use Rattle.mux_history.specs.Cores.{joins};

use drive_text::{LineFault, LineJournal, cause_of_line, make, read_line, write_outs};
use message_body::{Body, Memory};
use mux_history::{Cause, Entry, Out, Outs, Why};
use mux_steps::{Journal, JournalFault, StepFault, Steps};
use outside_io::MemSink;
use std::alloc::{AllocError, Global};
use std::test::Fail;

// A core to which editors may join, and nothing else can come. No step of it succeeds.
#[derive(Drop)]
struct Closed {
    spent: bool,
}

impl Steps for Closed {
    ghost stands = { λ _ history. history ≡ [] };

    ghost faults = { λ _. 0 };

    ghost spent = { λ c. c.spent };

    ghost allows = { λ _ cause. nat_eq (joins cause) 1 };

    ghost passes = { λ _ _ _. false };

    ghost asks_stop = { λ _ _. false };

    ghost stops = { λ _. false };

    fn fits(&self, cause: &Cause) -> bool {
        matches!(cause, Cause::Joined(_))
    }

    fn next_editor(&self) -> u64 {
        0
    }

    fn stopped(&self) -> bool {
        false
    }

    fn server_of(&self, _start: u64) -> Option<u32> {
        None
    }

    fn folder_of(&self, _start: u64) -> Result<Option<String>, Memory> {
        Ok(None)
    }

    fn step(&mut self, _cause: Cause) -> Result<Outs, StepFault> {
        if self.spent {
            return Err(StepFault::Spent);
        }
        self.spent = true;
        Err(StepFault::Memory)
    }
}

#[test]
fn reads_lines(rt: HostRuntime) -> Result<(), Fail> {
    let alloc = rt.alloc();
    let core = Closed { spent: false };
    let read = read_line(alloc, b"join 7", 3, &core);
    assert!(rt; matches!(read, Ok(Cause::Joined(7))));
    let Some(Cause::FromEditor(0, body)) = cause_of_line(alloc, b"ed 0 a^n^^", 3)? else {
        return Err(Fail::from("no cause"));
    };
    assert_eq!(rt; body.bytes(), b"a\n^".as_slice());
    for (line, fault) in [
        ("ed 0 abcd", LineFault::Form),
        ("ed 0", LineFault::Form),
        ("hello", LineFault::Form),
        ("ed 1 a", LineFault::Absent),
        ("exit 0", LineFault::Absent),
    ] {
        let read = read_line(alloc, line.as_bytes(), 3, &core);
        assert!(rt; matches!(read, Err(f) if f == fault), "at {line}");
    }
    Ok(())
}

fn entry(alloc: Global) -> Result<Entry, AllocError> {
    let mut outs = Outs::new(alloc);
    let body = Body::new(Vec::from_slice(alloc, b"a\r")?);
    if outs.push(Out::ToEditor(1, body)).is_err() || outs.push(Out::Spawn(2, 0)).is_err() {
        return Err(AllocError);
    }
    Ok(Entry {
        cause: Cause::EditorGone(3, Why::BadFrame),
        outs,
    })
}

#[test]
fn writes_lines(rt: HostRuntime) -> Result<(), Fail> {
    let alloc = rt.alloc();
    let entry = entry(alloc)?;
    let text = write_outs(alloc, &entry.outs)?;
    assert_eq!(rt; text.bytes(), b">ed 1 a^r\n>spawn 2 0\n".as_slice());
    let sink = MemSink::new(alloc, vec![in alloc; 1]?, None);
    let mut journal = LineJournal::new(alloc, sink);
    assert_eq!(rt; journal.append(&entry), Ok(()));
    assert_eq!(rt; journal.append(&entry), Err(JournalFault::Failed));
    assert_eq!(rt;
        journal.sink.bytes(),
        b"gone 3 frame\n>ed 1 a^r\n>spawn 2 0\n.\n".as_slice()
    );
    Ok(())
}

#[test]
fn makes_an_input(rt: HostRuntime) -> Result<(), Fail> {
    let alloc = rt.alloc();
    let lines = make(alloc, 1, 0)?;
    assert_eq!(rt; lines.len(), 20);
    let Some(last) = lines.last() else {
        return Err(Fail::from("no line"));
    };
    assert_eq!(rt;
        last.bytes(),
        b"sv 0 {\"jsonrpc\":\"2.0\",\"id\":2,\"result\":null}".as_slice()
    );
    Ok(())
}
