// An editor that speaks with the daemon over its socket.
use crate::daemon::SOCKET;
use crate::frames::{Frames, send, text};
use std::os::unix::net::UnixStream;
use std::test::Fail;
use std::thread;
use std::time::Duration;

// How often a daemon is looked for that has just been started, and how many milliseconds lie between.
const LOOKS: u32 = 400;

const LOOK_MILLIS: u64 = 25;

// How many seconds an answer may take.
const ANSWER_SECONDS: u64 = 20;

const INITIALIZE: &str =
    "{\"jsonrpc\":\"2.0\",\"id\":0,\"method\":\"initialize\",\"params\":{\"processId\":null,\"rootUri\":\"file:///w\",\"capabilities\":{}}}";

const INITIALIZED: &str = "{\"jsonrpc\":\"2.0\",\"method\":\"initialized\",\"params\":{}}";

const HOVER: &str =
    "{\"jsonrpc\":\"2.0\",\"id\":1,\"method\":\"textDocument/hover\",\"params\":{\"textDocument\":{\"uri\":\"file:///w/u\"},\"position\":{\"line\":0,\"character\":0}}}";

const END: &str = "{\"jsonrpc\":\"2.0\",\"id\":2,\"method\":\"row/end\"}";

/// An editor with a link to the daemon. It prints under its name what it is sent.
#[derive(Drop)]
pub(crate) struct Editor {
    rt: HostRuntime,
    name: &'static str,
    frames: Frames<UnixStream>,
    out: UnixStream,
}

// A link to the daemon, as soon as it listens.
fn dial(rt: HostRuntime) -> Result<UnixStream, Fail> {
    for _ in 0..LOOKS {
        if let Ok(stream) = UnixStream::connect(&rt, SOCKET) {
            return Ok(stream);
        }
        thread::sleep(&rt, Duration::from_millis(LOOK_MILLIS));
    }
    Err(Fail::new("no daemon listens"))
}

impl Editor {
    pub(crate) fn link(rt: HostRuntime, name: &'static str) -> Result<Editor, Fail> {
        let out = dial(rt)?;
        out.set_read_timeout(Some(Duration::from_secs(ANSWER_SECONDS)))?;
        let frames = Frames::new(rt.alloc(), out.try_clone()?);
        Ok(Editor {
            rt,
            name,
            frames,
            out,
        })
    }

    fn send(&mut self, message: &str) -> Result<(), Fail> {
        send(self.rt.alloc(), &mut self.out, message)
    }

    // Prints the next message.
    fn hear(&mut self) -> Result<(), Fail> {
        match self.frames.next()? {
            Some(body) => println!(self.rt; "{} {}", self.name, text(&body)?)?,
            None => println!(self.rt; "{} is closed", self.name)?,
        }
        Ok(())
    }

    /// Asks to begin, and prints the answer.
    pub(crate) fn begin(&mut self) -> Result<(), Fail> {
        self.send(INITIALIZE)?;
        self.hear()?;
        self.send(INITIALIZED)
    }

    /// Opens the document with a text of its own.
    pub(crate) fn open(&mut self, own: &str) -> Result<(), Fail> {
        let message = format!(in self.rt.alloc();
            "{{\"jsonrpc\":\"2.0\",\"method\":\"textDocument/didOpen\",\"params\":{{\"textDocument\":{{\"uri\":\"file:///w/u\",\"languageId\":\"x\",\"version\":1,\"text\":\"{own}\"}}}}}}"
        )?;
        self.send(message.as_str())
    }

    /// Asks what stands in the document, and prints the answer.
    pub(crate) fn hover(&mut self) -> Result<(), Fail> {
        self.send(HOVER)?;
        self.hear()
    }

    /// Has the server end without an answer, and prints what comes in its place.
    pub(crate) fn end_server(&mut self) -> Result<(), Fail> {
        self.send(END)?;
        self.hear()
    }

    /// Prints that the link ends.
    pub(crate) fn closed(&mut self) -> Result<(), Fail> {
        self.hear()
    }
}
