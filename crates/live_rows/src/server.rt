// A small language server. It looks for the few things that it has to know by their letters, as the daemon and these rows write
// them, and knows one text.
use crate::frames::{Frames, send, text};
use std::alloc::Global;
use std::io::Write;
use std::test::Fail;

// No session here has more messages.
const MESSAGES: u32 = 1_000;

// What stands between the first such mark and the next such end.
fn between<'a>(message: &'a str, mark: &str, end: &str) -> Option<&'a str> {
    let (_, behind) = message.split_once(mark)?;
    let (found, _) = behind.split_once(end)?;
    Some(found)
}

fn has_method(message: &str, method: &str) -> bool {
    between(message, "\"method\":\"", "\"") == Some(method)
}

// Answers a request with this result.
fn answer<W: Write>(alloc: Global, sink: &mut W, message: &str, value: &str) -> Result<(), Fail> {
    let id = between(message, "\"id\":", ",").unwrap_or("null");
    let response = format!(in alloc; "{{\"jsonrpc\":\"2.0\",\"id\":{id},\"result\":{value}}}")?;
    send(alloc, sink, response.as_str())
}

// Takes one message, and says whether the server goes on.
fn take<W: Write>(
    alloc: Global,
    sink: &mut W,
    known: &mut String,
    message: &str,
) -> Result<bool, Fail> {
    if let Some(told) = between(message, "\"text\":\"", "\"") {
        *known = String::from_str(alloc, told)?;
    } else if has_method(message, "initialize") {
        answer(
            alloc,
            sink,
            message,
            "{\"capabilities\":{\"textDocumentSync\":1,\"hoverProvider\":true}}",
        )?;
    } else if has_method(message, "textDocument/hover") {
        let result = format!(in alloc; "{{\"contents\":\"{}\"}}", known.as_str())?;
        answer(alloc, sink, message, result.as_str())?;
    } else if has_method(message, "shutdown") {
        answer(alloc, sink, message, "null")?;
    }
    Ok(!has_method(message, "exit") && !has_method(message, "row/end"))
}

/// Answers each hover with the text that it was told last, until it is told to end; at a request `row/end` it ends at once.
pub(crate) fn serve(rt: HostRuntime) -> Result<(), Fail> {
    let alloc = rt.alloc();
    let mut frames = Frames::new(alloc, rt.stdin());
    let mut sink = rt.stdout();
    let mut known = String::new(alloc);
    for _ in 0..MESSAGES {
        let Some(body) = frames.next()? else {
            return Ok(());
        };
        if !take(alloc, &mut sink, &mut known, text(&body)?)? {
            return Ok(());
        }
    }
    Ok(())
}
