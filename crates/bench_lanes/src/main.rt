//! Sends bodies through the lanes of a small core, which gives each back, for `bench/lanes`. With the words `lanes PORTS COUNT` each of
//! so many ports has one link that sends so many bodies, and the own link asks for a stop behind them; with `loop PORTS COUNT` one thread
//! takes the same steps one after the other, and with `beside BERTHS COUNT` the lane of one port goes beside those of so many berths in which
//! nothing is started. It writes how many bytes the ports' links were written. With `idle PORTS BERTHS` the ports'
//! links say nothing until the standard input ends; it writes how many editors joined. Without words it sends three bodies to each of two
//! ports.
#![tactic(auto)]

mod idle;

use crate::idle::{berths, run_idle};
use base_frame::{FrameReader, Next, frame};
use lane_echo::Echo;
use message_body::Body;
use mux_daemon::{Answer, Lanes, serve_core};
use mux_history::{Cause, Out};
use mux_serve::LaneJob;
use mux_steps::Steps;
use outside_io::{MemPort, MemSink, MemSource, SetClock, write_whole};
use std::alloc::Global;
use std::env;
use std::io::{Stdin, Write};
use std::process::ExitCode;
use std::sync::Wait;
use std::thread::Threads;

const HOVER: &[u8] = b"Content-Length: 5\r\n\r\nhover";

// The limit of a content.
pub const LIMIT: u32 = 1024;

#[derive(Clone, Copy)]
enum Way {
    Lanes,
    Loop,
    Beside,
    Idle,
}

// What a link sends: so many frames.
fn frames(alloc: Global, count: u64) -> Option<Vec<u8>> {
    let mut bytes = Vec::new(alloc);
    for _ in 0..count {
        bytes.extend_from_slice(HOVER).ok()?;
    }
    Some(bytes)
}

// A port of one link that sends these bytes.
fn port(alloc: Global, bytes: Vec<u8>) -> Option<LaneJob<MemPort>> {
    let source = MemSource::new(bytes, Vec::new(alloc), None);
    let sink = MemSink::new(alloc, Vec::new(alloc), None);
    let mut links = Vec::new(alloc);
    links.push((source, sink)).ok()?;
    Some(LaneJob::new(MemPort::new(alloc, links)))
}

// A link that asks the core to stop.
pub fn own(alloc: Global) -> Option<LaneJob<MemPort>> {
    port(alloc, b"Content-Length: 0\r\n\r\n".to_vec(alloc).ok()?)
}

// The bytes that the only link of a port was written.
fn written(port: &MemPort) -> u64 {
    match port.session(0) {
        Some(session) => session.1.bytes().len() as u64,
        None => 0,
    }
}

fn run_lanes<R: Threads + Wait + Sync>(
    rt: &R,
    alloc: Global,
    ports: u64,
    starts: u64,
    count: u64,
) -> Option<u64> {
    let mut links = Vec::new(alloc);
    for _ in 0..ports {
        links.push(port(alloc, frames(alloc, count)?)?).ok()?;
    }
    let lanes = Lanes {
        ports: links,
        own: own(alloc)?,
        berths: berths(alloc, starts)?,
        clock: LaneJob::new(SetClock::new(Vec::new(alloc))),
    };
    let served = serve_core(rt, alloc, Echo::new(alloc), LIMIT, &[], lanes);
    if served.answer != Answer::PortsClosed {
        return None;
    }
    let mut bytes: u64 = 0;
    for lane in &served.lanes.ports {
        bytes = bytes.saturating_add(written(&lane.outside));
    }
    Some(bytes)
}

// One body of an editor: what the core says goes to its sink.
fn answer(
    alloc: Global,
    core: &mut Echo,
    sink: &mut MemSink,
    editor: u64,
    body: Body,
) -> Option<()> {
    if body.bytes().len() > LIMIT as usize {
        return None;
    }
    let outs = core.step(Cause::FromEditor(editor, body)).ok()?;
    for out in outs.as_slice() {
        if let Out::ToEditor(_, body) = out {
            let text = frame(alloc, body.bytes()).ok()?;
            write_whole(sink, text.bytes()).ok()?;
        }
    }
    core.step(Cause::Drained(editor, 5)).ok()?;
    Some(())
}

// One link, a frame at a time.
fn run_link(alloc: Global, core: &mut Echo, editor: u64, count: u64) -> Option<u64> {
    let bytes = frames(alloc, count)?;
    let mut reader = FrameReader::new(alloc, LIMIT);
    let mut sink = MemSink::new(alloc, Vec::new(alloc), None);
    core.step(Cause::Joined(editor)).ok()?;
    for piece in bytes.chunks(26) {
        reader.feed(piece).ok()?;
        if let Next::Frame(body) = reader.next() {
            answer(alloc, core, &mut sink, editor, body)?;
        }
    }
    Some(sink.bytes().len() as u64)
}

fn run_loop(alloc: Global, ports: u64, count: u64) -> Option<u64> {
    let mut core = Echo::new(alloc);
    let mut bytes: u64 = 0;
    for editor in 0..ports {
        bytes = bytes.saturating_add(run_link(alloc, &mut core, editor, count)?);
    }
    Some(bytes)
}

fn way_of(word: &str) -> Option<Way> {
    match word {
        "lanes" => Some(Way::Lanes),
        "loop" => Some(Way::Loop),
        "beside" => Some(Way::Beside),
        "idle" => Some(Way::Idle),
        _ => None,
    }
}

// So many handles on the standard input.
fn inputs(rt: &HostRuntime, count: u64) -> Option<Vec<Stdin>> {
    let mut all = Vec::new(rt.alloc());
    for _ in 0..count {
        all.push(rt.stdin()).ok()?;
    }
    Some(all)
}

// What the three words behind the program's name ask for.
fn asked(rt: &HostRuntime) -> Option<(Way, u64, u64)> {
    let mut words = env::args(rt).ok()?.skip(1);
    let way = way_of(words.next()?.as_str())?;
    let ports = words.next()?.as_str().parse::<u64>().ok()?;
    let count = words.next()?.as_str().parse::<u64>().ok()?;
    Some((way, ports, count))
}

fn main(rt: HostRuntime) -> ExitCode {
    let (way, ports, count) = asked(&rt).unwrap_or((Way::Lanes, 2, 3));
    let ran = match way {
        Way::Lanes => run_lanes(&rt, rt.alloc(), ports, 0, count),
        Way::Beside => run_lanes(&rt, rt.alloc(), 1, ports, count),
        Way::Loop => run_loop(rt.alloc(), ports, count),
        Way::Idle => match inputs(&rt, ports) {
            Some(inputs) => run_idle(&rt, rt.alloc(), inputs, count),
            None => None,
        },
    };
    let Some(number) = ran else {
        return ExitCode::from(1);
    };
    match writeln!(rt.stdout(), "{number}") {
        Ok(_) => ExitCode::SUCCESS,
        Err(_) => ExitCode::from(2),
    }
}
