//! Plays a long session on one hub, for `bench/starts`. An editor has thirty documents open, and asks. A start answers each request before
//! the next one is asked, and twenty are open as its program ends and the next start begins. With the words `STARTS ROUNDS` so many starts
//! end, behind so many answers each, and a line is written for each: the nanoseconds of processor time that its answers took, and those of
//! its end and of the next one's begin. Without words two starts end, behind a hundred answers each. At last it writes how many outs there
//! were.
#![tactic(auto)]

ghost use Rattle.std.specs.Prelude.{◌≤◌};
ghost use Rattle.mux_history.specs.Cores.{body_length};

use itoa::Buffer;
use message_body::Body;
use mux_history::{Cause, Out};
use mux_hub::{Hub, Limits};
use mux_steps::DropJournal;
use std::alloc::Global;
use std::env;
use std::io::Write;
use std::process::ExitCode;
use std::time::{CpuClock, Duration};

const DOCUMENTS: u64 = 30;

const OPEN: u64 = 20;

const INITIALIZE: [&str; 2] = [
    "{\"jsonrpc\":\"2.0\",\"id\":",
    ",\"method\":\"initialize\",\"params\":{\"rootUri\":\"file:///w\",\"capabilities\":{}}}",
];

const INITIALIZED: [&str; 2] = [
    "{\"jsonrpc\":\"2.0\",\"id\":",
    ",\"result\":{\"capabilities\":{\"hoverProvider\":true}}}",
];

const DID_OPEN: [&str; 2] = [
    "{\"jsonrpc\":\"2.0\",\"method\":\"textDocument/didOpen\",\"params\":{\"textDocument\":{\"uri\":\"file:///w/",
    "\",\"languageId\":\"x\",\"version\":1,\"text\":\"let a = 1;\\nlet b = a + 1;\\nlet c = a + b;\\n\"}}}",
];

const HOVER: [&str; 2] = [
    "{\"jsonrpc\":\"2.0\",\"id\":",
    ",\"method\":\"textDocument/hover\",\"params\":{\"textDocument\":{\"uri\":\"file:///w/1\"},\"position\":{\"line\":1,\"character\":5}}}",
];

const HOVERED: [&str; 2] = [
    "{\"jsonrpc\":\"2.0\",\"id\":",
    ",\"result\":{\"contents\":\"c\"}}",
];

// The hub, how many outs it gave, and how many bytes to the editor aren't written yet.
#[derive(Drop)]
struct Session {
    alloc: Global,
    hub: Hub<DropJournal>,
    outs: u64,
    unsent: u64,
}

// Nanoseconds of processor time.
#[derive(Clone, Copy)]
struct Times {
    rounds: u128,
    exit: u128,
}

fn take(session: &mut Session, cause: Cause) -> Option<()>
    requires { body_length cause ≤ 268435456 }
{
    if !session.hub.fits(&cause) {
        return None;
    }
    let outs = session.hub.step(cause).ok()?;
    session.outs = session.outs.saturating_add(outs.len() as u64);
    for out in outs.as_slice() {
        if let Out::ToEditor(_, body) = out {
            session.unsent = session.unsent.saturating_add(body.bytes().len() as u64);
        }
    }
    Some(())
}

// A body of two parts with a number between them.
fn written(alloc: Global, parts: [&str; 2], number: u64) -> Option<Body> {
    let mut bytes = Vec::from_slice(alloc, parts[0].as_bytes()).ok()?;
    let mut buffer = Buffer::new();
    bytes
        .extend_from_slice(buffer.format(number).as_bytes())
        .ok()?;
    bytes.extend_from_slice(parts[1].as_bytes()).ok()?;
    if bytes.len() > 1024 {
        return None;
    }
    Some(Body::new(bytes))
}

fn say(session: &mut Session, parts: [&str; 2], number: u64) -> Option<()> {
    let body = written(session.alloc, parts, number)?;
    if body.bytes().len() > 1024 {
        return None;
    }
    take(session, Cause::FromEditor(0, body))
}

fn answer(session: &mut Session, start: u64, parts: [&str; 2], number: u64) -> Option<()> {
    let body = written(session.alloc, parts, number)?;
    if body.bytes().len() > 1024 {
        return None;
    }
    take(session, Cause::FromServer(start, body))
}

// A start's program runs, and it gives its result.
fn begin(session: &mut Session, start: u64) -> Option<()> {
    take(session, Cause::Started(start))?;
    answer(session, start, INITIALIZED, 1)
}

// The editor runs, with its documents open, and start 0 is ready.
fn open(session: &mut Session) -> Option<()> {
    take(session, Cause::Joined(0))?;
    say(session, INITIALIZE, 0)?;
    begin(session, 0)?;
    for document in 0..DOCUMENTS {
        say(session, DID_OPEN, document)?;
    }
    Some(())
}

// Each request is answered before the next one. All that the editor was sent is written behind them.
fn play_rounds(session: &mut Session, start: u64, rounds: u64) -> Option<()> {
    for round in 0..rounds {
        say(session, HOVER, round)?;
        answer(session, start, HOVERED, round.saturating_add(2))?;
    }
    let sent = session.unsent;
    session.unsent = 0;
    take(session, Cause::Drained(0, sent))
}

fn since(rt: &HostRuntime, moment: Duration) -> Option<u128> {
    let now = rt.process_cpu_time().ok()?;
    Some(now.saturating_sub(moment).as_nanos())
}

// One start's rounds, its end, and the begin of the next.
fn play_start(rt: &HostRuntime, session: &mut Session, start: u64, rounds: u64) -> Option<Times> {
    let first = rt.process_cpu_time().ok()?;
    play_rounds(session, start, rounds)?;
    let rounds = since(rt, first)?;
    for number in 0..OPEN {
        say(session, HOVER, number)?;
    }
    let last = rt.process_cpu_time().ok()?;
    take(session, Cause::ServerGone(start))?;
    begin(session, start.saturating_add(1))?;
    let exit = since(rt, last)?;
    Some(Times { rounds, exit })
}

fn open_hub(alloc: Global) -> Option<Hub<DropJournal>> {
    let limits = Limits {
        groups: 1,
        restarts: 1000,
        idle: 300,
        grace: 5,
        backlog: 134_217_728,
        requests: 2_147_483_647,
        versions: 2_147_483_647,
    };
    Hub::new(alloc, limits, Vec::new(alloc), 0, DropJournal::new()).ok()
}

// How many outs there were; the times are written where they are asked for.
fn play(rt: &HostRuntime, starts: u64, rounds: u64, timed: bool) -> Option<u64> {
    let alloc = rt.alloc();
    let mut session = Session {
        alloc,
        hub: open_hub(alloc)?,
        outs: 0,
        unsent: 0,
    };
    open(&mut session)?;
    for start in 0..starts {
        let times = play_start(rt, &mut session, start, rounds)?;
        if timed {
            let rounds = times.rounds;
            let exit = times.exit;
            writeln!(rt.stdout(), "{rounds} {exit}").ok()?;
        }
    }
    Some(session.outs)
}

fn asked(rt: &HostRuntime) -> Option<(u64, u64)> {
    let mut words = env::args(rt).ok()?.skip(1);
    let starts = words.next()?.as_str().parse::<u64>().ok()?;
    let rounds = words.next()?.as_str().parse::<u64>().ok()?;
    Some((starts, rounds))
}

fn main(rt: HostRuntime) -> ExitCode {
    let played = match asked(&rt) {
        Some((starts, rounds)) => play(&rt, starts, rounds, true),
        None => play(&rt, 2, 100, false),
    };
    let Some(outs) = played else {
        return ExitCode::from(1);
    };
    match writeln!(rt.stdout(), "{outs}") {
        Ok(_) => ExitCode::SUCCESS,
        Err(_) => ExitCode::from(2),
    }
}
