// One editor and one server, of whose calls one fails; and editors that end within a frame.
use crate::memory::{After, one, outside, run};
use crate::threads::{INITIALIZE, Link, RESULT, TO_EDITOR, TO_SERVER, TURNS};
use base_frame::frame;
use mux_history::{Cause, Entry, Out, Why};
use outside_io::{Gate, MemBerth, MemPort, MemSink, MemSource, Meter};
use std::alloc::{AllocError, Global};
use std::sync::Wait;
use std::test::Fail;
use std::thread::Threads;

// How many bytes an editor is sent whose server doesn't come: the error in a frame.
const REFUSED: u64 = 97;

// How many bytes the server is sent once it is ready: `initialize` and `initialized`, each in a frame.
const TO_READY: u64 = 256;

// Settings by which no server is started again.
const NO_RESTARTS: &str = "restarts = 0\n[server.main]\ncommand = ['words']\n";

// Bytes of a frame, of a fault, or of both.
const TEXTS: [&str; 6] = [
    "Content-Length: 2\r\n\r\n{}",
    "content-length:2\r\nX-Y: z\r\n\r\n{}",
    "Content-Length: 0\r\n\r\n",
    "Content-Length: 1\r\nContent-Length: 1\r\n\r\nx",
    "\r\n",
    "Content-Length: 99999999999",
];

// The call that fails, by its number.
#[derive(Clone, Copy)]
enum Call {
    Nothing,
    EditorRead(u64),
    EditorWrite(u64),
    ServerRead(u64),
    ServerWrite(u64),
    Start(u64),
}

// What a read waits for: so many bytes to the peer itself, or to the other one.
#[derive(Clone, Copy)]
enum Sent {
    ToItself(u64),
    ToTheOther(u64),
}

// A peer: the calls that fail, and the read that waits.
#[derive(Clone, Copy)]
struct Peer {
    failing_read: Option<u64>,
    failing_write: Option<u64>,
    waiting_read: u64,
    waits_for: Sent,
}

fn list(alloc: Global, number: Option<u64>) -> Result<Vec<u64>, AllocError> {
    let mut list = Vec::new(alloc);
    if let Some(number) = number {
        list.push(number)?;
    }
    Ok(list)
}

impl Peer {
    // Its link, by which it says this, where these meters show what it is sent and what the other one is.
    fn link(
        self,
        alloc: Global,
        says: &str,
        to_itself: &Meter,
        to_the_other: &Meter,
    ) -> Result<Link, Fail> {
        let (meter, bytes) = match self.waits_for {
            Sent::ToItself(bytes) => (to_itself.share()?, bytes),
            Sent::ToTheOther(bytes) => (to_the_other.share()?, bytes),
        };
        let gate = Gate {
            read: self.waiting_read,
            meter,
            bytes,
            turns: TURNS,
        };
        let said = frame(alloc, says.as_bytes())?;
        let reads = list(alloc, self.failing_read)?;
        let writes = list(alloc, self.failing_write)?;
        let source = MemSource::new(said.bytes().to_vec(alloc)?, reads, Some(gate));
        Ok((
            source,
            MemSink::new(alloc, writes, Some(to_itself.share()?)),
        ))
    }
}

// Both peers of a run, the start that fails, and whether a server is started again.
#[derive(Clone, Copy)]
struct Plan {
    editor: Peer,
    server: Peer,
    failing_start: Option<u64>,
    has_restarts: bool,
}

// An editor that goes once it was answered, and a server that ends once it was asked to shut down.
fn undisturbed() -> Plan {
    Plan {
        editor: Peer {
            failing_read: None,
            failing_write: None,
            waiting_read: 1,
            waits_for: Sent::ToItself(TO_EDITOR),
        },
        server: Peer {
            failing_read: None,
            failing_write: None,
            waiting_read: 1,
            waits_for: Sent::ToItself(TO_SERVER),
        },
        failing_start: None,
        has_restarts: true,
    }
}

// The same with a call that fails. No read waits for bytes that don't come.
fn failing(call: Call) -> Plan {
    let mut plan = undisturbed();
    match call {
        Call::Nothing => {}
        Call::EditorRead(number) => {
            plan.editor.failing_read = Some(number);
            plan.server.waits_for = Sent::ToItself(0);
        }
        Call::EditorWrite(number) => {
            plan.editor.failing_write = Some(number);
            plan.editor.waits_for = Sent::ToTheOther(TO_READY);
        }
        Call::ServerRead(number) => plan.server.failing_read = Some(number),
        Call::ServerWrite(number) => {
            plan.server.failing_write = Some(number);
            plan.server.waiting_read = number;
            plan.server.waits_for = Sent::ToTheOther(TO_EDITOR);
            plan.has_restarts = false;
        }
        Call::Start(number) => {
            plan.failing_start = Some(number);
            plan.editor.waits_for = Sent::ToItself(REFUSED);
            plan.has_restarts = false;
        }
    }
    plan
}

// Runs `serve` with one editor and one server.
fn serve<R: Threads + Wait + Sync>(
    threads: &R,
    alloc: Global,
    editor: Link,
    berth: MemBerth,
    settings: Option<&str>,
) -> Result<After, Fail> {
    let ports = one(alloc, MemPort::new(alloc, one(alloc, editor)?))?;
    let berths = one(alloc, berth)?;
    let Some(settings) = settings else {
        let outside = outside(alloc, ports, berths, Vec::new(alloc));
        return run(threads, alloc, &["serve"], outside);
    };
    let name = String::from_str(alloc, "lspmux.toml")?;
    let files = one(alloc, (name, settings.as_bytes().to_vec(alloc)?))?;
    let outside = outside(alloc, ports, berths, files);
    run(
        threads,
        alloc,
        &["serve", "--config", "lspmux.toml"],
        outside,
    )
}

fn played<R: Threads + Wait + Sync>(threads: &R, alloc: Global, call: Call) -> Result<After, Fail> {
    let plan = failing(call);
    let to_editor = Meter::new(alloc)?;
    let to_server = Meter::new(alloc)?;
    let editor = plan.editor.link(alloc, INITIALIZE, &to_editor, &to_server)?;
    let runs = one(
        alloc,
        plan.server.link(alloc, RESULT, &to_server, &to_editor)?,
    )?;
    let berth = MemBerth::new(alloc, runs, list(alloc, plan.failing_start)?);
    let settings = if plan.has_restarts {
        None
    } else {
        Some(NO_RESTARTS)
    };
    serve(threads, alloc, editor, berth, settings)
}

// What came of the editor, in a word; none of another cause.
fn editor_word(cause: &Cause) -> Option<&'static str> {
    match cause {
        Cause::Joined(0) => Some("join"),
        Cause::FromEditor(0, _) => Some("says"),
        Cause::EditorGone(0, Why::End) => Some("end"),
        Cause::EditorGone(0, Why::ReadFault) => Some("read"),
        Cause::EditorGone(0, Why::WriteFault) => Some("write"),
        Cause::EditorGone(0, Why::BadFrame) => Some("bad frame"),
        _ => None,
    }
}

// The same where a write failed and the source ended behind it, of which either may have come first.
fn either_word(cause: &Cause) -> Option<&'static str> {
    match cause {
        Cause::EditorGone(0, Why::End | Why::WriteFault) => Some("gone"),
        _ => editor_word(cause),
    }
}

// What came of the first start, in a word; none of another cause.
fn server_word(cause: &Cause) -> Option<&'static str> {
    match cause {
        Cause::Started(0) => Some("up"),
        Cause::StartFailed(0) => Some("failed"),
        Cause::FromServer(0, _) => Some("says"),
        Cause::ServerGone(0) => Some("gone"),
        _ => None,
    }
}

// Of whom words tell: an editor, an editor whose end of either kind comes first, or a server.
#[derive(Clone, Copy)]
enum Told {
    Editor,
    EitherEnd,
    Server,
}

impl Told {
    fn word(self, cause: &Cause) -> Option<&'static str> {
        match self {
            Told::Editor => editor_word(cause),
            Told::EitherEnd => either_word(cause),
            Told::Server => server_word(cause),
        }
    }
}

// These words of a history, a space before each.
fn words(alloc: Global, entries: &[Entry], told: Told) -> Result<String, AllocError> {
    let mut words = String::new(alloc);
    for entry in entries {
        if let Some(word) = told.word(&entry.cause) {
            words.push(' ')?;
            words.push_str(word)?;
        }
    }
    Ok(words)
}

// Whether the editor was to be closed where a start had failed.
fn closes(entries: &[Entry]) -> bool {
    entries.iter().any(|entry| {
        matches!(entry.cause, Cause::StartFailed(0))
            && entry
                .outs
                .as_slice()
                .iter()
                .any(|out| matches!(out, Out::CloseEditor(0)))
    })
}

// How many bytes the editor was sent.
fn sent_bytes(left: &After) -> Result<usize, Fail> {
    let Some(lanes) = &left.lanes else {
        return Err(Fail::new("nothing was served"));
    };
    match lanes.ports.first() {
        Some(job) => match job.outside.session(0) {
            Some((_, sink)) => Ok(sink.bytes().len()),
            None => Err(Fail::new("a session is missing")),
        },
        None => Err(Fail::new("a port is missing")),
    }
}

// Plays a call that fails, and prints what it settles: the status, the bytes to the editor, and what came of it and of the server.
fn show<R: Threads + Wait + Sync>(threads: &R, rt: HostRuntime, call: Call) -> Result<(), Fail> {
    let alloc = rt.alloc();
    let left = played(threads, alloc, call)?;
    let entries = left.journal.entries();
    let editor = words(alloc, entries, Told::Editor)?;
    let server = words(alloc, entries, Told::Server)?;
    let (status, sent) = (left.status, sent_bytes(&left)?);
    let (editor, server) = (editor.as_str(), server.as_str());
    match call {
        Call::Nothing => println!(rt;
            "nothing fails: {status}, {sent} bytes, editor{editor}, server{server}"
        )?,
        Call::EditorRead(0) => println!(rt;
            "editor read 0: {status}, {sent} bytes, editor{editor}"
        )?,
        Call::EditorRead(n) => println!(rt; "editor read {n}: {status}, editor{editor}")?,
        Call::EditorWrite(n) => {
            let editor = words(alloc, entries, Told::EitherEnd)?;
            println!(rt;
                "editor write {n}: {status}, {sent} bytes, editor{}",
                editor.as_str()
            )?
        }
        Call::ServerRead(n) => println!(rt;
            "server read {n}: {status}, {sent} bytes, server{server}"
        )?,
        Call::ServerWrite(n) => println!(rt;
            "server write {n}: {status}, {sent} bytes, server{server}"
        )?,
        Call::Start(n) => {
            let closes = closes(entries);
            println!(rt; "start {n}: {status}, {sent} bytes, server{server}, closes {closes}")?
        }
    }
    Ok(())
}

// What comes of an editor that says these bytes and ends.
fn said<R: Threads + Wait + Sync>(
    threads: &R,
    alloc: Global,
    bytes: &[u8],
) -> Result<String, Fail> {
    let source = MemSource::new(bytes.to_vec(alloc)?, Vec::new(alloc), None);
    let sink = MemSink::new(alloc, Vec::new(alloc), None);
    let berth = MemBerth::new(alloc, Vec::new(alloc), Vec::new(alloc));
    let left = serve(threads, alloc, (source, sink), berth, None)?;
    Ok(words(alloc, left.journal.entries(), Told::Editor)?)
}

// Prints of each front of these bytes, from this length on, what comes of it, where it differs from what came of the one before.
fn fronts<R: Threads + Wait + Sync>(
    threads: &R,
    rt: HostRuntime,
    name: usize,
    bytes: &[u8],
    from: usize,
) -> Result<(), Fail> {
    let mut last = String::new(rt.alloc());
    for length in from..=bytes.len() {
        let came = said(threads, rt.alloc(), &bytes[..length])?;
        if came.as_str() != last.as_str() {
            println!(rt; "text {name}, {length} bytes:{}", came.as_str())?;
            last = came;
        }
    }
    Ok(())
}

// A block of lines without an end, one byte longer than one may be.
fn long_block(alloc: Global) -> Result<Vec<u8>, Fail> {
    let mut bytes = Vec::from_slice(alloc, b"Content-Length: 2\r\nX: ")?;
    for _ in bytes.len()..4097 {
        bytes.push(b'x')?;
    }
    Ok(bytes)
}

/// Prints what comes where a call fails, and of each front of some bytes.
pub(crate) fn play<R: Threads + Wait + Sync>(threads: &R, rt: HostRuntime) -> Result<(), Fail> {
    show(threads, rt, Call::Nothing)?;
    for number in 0..2 {
        show(threads, rt, Call::EditorRead(number))?;
    }
    show(threads, rt, Call::EditorWrite(0))?;
    for number in 0..2 {
        show(threads, rt, Call::ServerRead(number))?;
    }
    for number in 0..2 {
        show(threads, rt, Call::ServerWrite(number))?;
    }
    show(threads, rt, Call::Start(0))?;
    for (name, text) in TEXTS.iter().enumerate() {
        fronts(threads, rt, name, text.as_bytes(), 0)?;
    }
    let long = long_block(rt.alloc())?;
    fronts(threads, rt, TEXTS.len(), long.as_slice(), 4000)
}
