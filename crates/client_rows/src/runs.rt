// A client and a question are run through a door, and what came of it is written.
use crate::links::{Hears, OneDoor, OneLink, Says};
use mux_client::{ClientFault, Question, ask, client};
use mux_config::Config;
use outside_io::{Gate, MemSink, MemSource, Meter};
use std::alloc::Global;
use std::sync::Wait;
use std::test::Fail;
use std::thread::Threads;

// How long a read waits for a meter.
const TURNS: u64 = 100_000_000;

/// What a client or a question is run with.
#[derive(Drop)]
pub struct Outside {
    pub door: OneDoor,
    pub input: MemSource,
    pub output: MemSink,
}

/// How a run ended, and what it left.
#[derive(Drop)]
pub struct Ran {
    result: Result<(), ClientFault>,
    port: Option<OneLink>,
    output: MemSink,
}

/// A source of these bytes.
pub fn source(alloc: Global, bytes: &str) -> Result<MemSource, Fail> {
    let bytes = Vec::from_slice(alloc, bytes.as_bytes())?;
    Ok(MemSource::new(bytes, Vec::new(alloc), None))
}

/// A source of these bytes, whose read of this number fails.
pub fn failing_source(alloc: Global, bytes: &str, read: u64) -> Result<MemSource, Fail> {
    let bytes = Vec::from_slice(alloc, bytes.as_bytes())?;
    Ok(MemSource::new(bytes, vec![in alloc; read]?, None))
}

/// A source of these bytes, whose read of this number waits until a meter shows so many bytes.
pub fn waiting_source(
    alloc: Global,
    bytes: &str,
    read: u64,
    meter: &Meter,
    shown: u64,
) -> Result<MemSource, Fail> {
    let gate = Gate {
        read,
        meter: meter.share()?,
        bytes: shown,
        turns: TURNS,
    };
    let bytes = Vec::from_slice(alloc, bytes.as_bytes())?;
    Ok(MemSource::new(bytes, Vec::new(alloc), Some(gate)))
}

/// A sink.
pub fn sink(alloc: Global) -> MemSink {
    MemSink::new(alloc, Vec::new(alloc), None)
}

/// A sink whose first write fails.
pub fn failing_sink(alloc: Global) -> Result<MemSink, Fail> {
    Ok(MemSink::new(alloc, vec![in alloc; 0]?, None))
}

/// A sink whose bytes a meter counts.
pub fn metered_sink(alloc: Global, meter: Meter) -> MemSink {
    MemSink::new(alloc, Vec::new(alloc), Some(meter))
}

/// A door to a link that says these bytes and keeps what it is written.
pub fn door(alloc: Global, says: MemSource, kept: MemSink) -> OneDoor {
    let link = (Says::new(says, sink(alloc)), Hears::new(kept, sink(alloc)));
    OneDoor::new(Some(OneLink::new(Some(link))))
}

/// Runs a client that names this server, or none.
pub fn run_client<R: Threads + Wait + Sync>(
    threads: &R,
    alloc: Global,
    server: Option<&str>,
    outside: Outside,
) -> Result<Ran, Fail> {
    let config = Config::built_in(alloc)?;
    let Outside {
        mut door,
        mut input,
        mut output,
    } = outside;
    let mut port = None;
    let result = client(
        threads,
        alloc,
        &config,
        server,
        &mut door,
        &mut port,
        &mut input,
        &mut output,
    );
    Ok(Ran {
        result,
        port,
        output,
    })
}

/// Asks a question.
pub fn run_question(
    alloc: Global,
    question: Question,
    mut door: OneDoor,
    mut output: MemSink,
) -> Result<Ran, Fail> {
    let config = Config::built_in(alloc)?;
    let mut port = None;
    let result = ask(alloc, &config, question, &mut door, &mut port, &mut output);
    Ok(Ran {
        result,
        port,
        output,
    })
}

// Bytes as a text.
fn text(bytes: &[u8]) -> Result<&str, Fail> {
    match str::from_utf8(bytes) {
        Ok(text) => Ok(text),
        Err(_) => Err(Fail::new("bytes that are no text")),
    }
}

// What was sent on the link that was handed back; none where there was none.
fn sent(port: &Option<OneLink>) -> Result<Option<&str>, Fail> {
    match port {
        Some(port) => match port.written() {
            Some(bytes) => Ok(Some(text(bytes)?)),
            None => Ok(None),
        },
        None => Ok(None),
    }
}

/// Writes what came of a run.
pub fn tell(rt: HostRuntime, name: &str, ran: &Ran) -> Result<(), Fail> {
    let sent = sent(&ran.port)?;
    let shown = text(ran.output.bytes())?;
    println!(rt;
        "{name}: {:?}\n  sent {sent:?}\n  shown {shown:?}",
        ran.result
    )?;
    Ok(())
}
