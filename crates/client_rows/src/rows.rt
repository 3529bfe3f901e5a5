// Links that say these bytes, and what is asked of them.
use crate::links::{Hears, OneDoor, OneLink, Says};
use crate::runs::{
    Outside, door, failing_sink, failing_source, metered_sink, run_client, run_question, sink,
    source, tell, waiting_source,
};
use mux_client::Question;
use outside_io::Meter;
use std::sync::Wait;
use std::test::Fail;
use std::thread::Threads;

const OPENED: &str =
    "Content-Length: 50\r\n\r\n{\"jsonrpc\":\"2.0\",\"id\":\"lspmux:open\",\"result\":null}";

const OTHER: &str = "Content-Length: 38\r\n\r\n{\"jsonrpc\":\"2.0\",\"id\":2,\"result\":null}";

// What a link says to a client that names this server, or none.
const CLIENTS: [(&str, Option<&str>, &str); 13] = [
    ("no server", None, "xyz"),
    (
        "opened, and more",
        Some("nope"),
        "Content-Length: 50\r\n\r\n{\"jsonrpc\":\"2.0\",\"id\":\"lspmux:open\",\"result\":null}xyz",
    ),
    ("opened", Some("nope"), OPENED),
    (
        "refused",
        Some("nope"),
        "Content-Length: 87\r\n\r\n{\"jsonrpc\":\"2.0\",\"id\":\"lspmux:open\",\"error\":{\"code\":-32602,\"message\":\"Invalid params\"}}",
    ),
    ("nothing", Some("nope"), ""),
    ("garbage", Some("nope"), "xyz"),
    ("half a header", Some("nope"), "Content-Len"),
    ("a header without a length", Some("nope"), "\r\n"),
    (
        "half a frame",
        Some("nope"),
        "Content-Length: 50\r\n\r\n{\"jsonrpc\"",
    ),
    ("no JSON", Some("nope"), "Content-Length: 3\r\n\r\nxyz"),
    ("another id", Some("nope"), OTHER),
    (
        "a null id",
        Some("nope"),
        "Content-Length: 75\r\n\r\n{\"jsonrpc\":\"2.0\",\"id\":null,\"error\":{\"code\":-32700,\"message\":\"Parse error\"}}",
    ),
    (
        "a request",
        Some("nope"),
        "Content-Length: 86\r\n\r\n{\"jsonrpc\":\"2.0\",\"id\":\"lspmux:open\",\"method\":\"lspmux/open\",\"params\":{\"server\":\"nope\"}}",
    ),
];

// What a link says to a question.
const QUESTIONS: [(&str, Question, &str); 8] = [
    (
        "groups",
        Question::Status,
        "Content-Length: 49\r\n\r\n{\"jsonrpc\":\"2.0\",\"id\":1,\"result\": {\"groups\":[]} }",
    ),
    (
        "stopped",
        Question::Stop,
        "Content-Length: 49\r\n\r\n{\"jsonrpc\":\"2.0\",\"id\":1,\"result\": {\"groups\":[]} }",
    ),
    (
        "an error",
        Question::Status,
        "Content-Length: 75\r\n\r\n{\"jsonrpc\":\"2.0\",\"id\":1,\"error\":{\"code\":-32803,\"message\":\"Request failed\"}}",
    ),
    ("nothing to a stop", Question::Stop, ""),
    ("another id to a status", Question::Status, OTHER),
    (
        "a header without a length to a status",
        Question::Status,
        "\r\n",
    ),
    (
        "half a frame to a status",
        Question::Status,
        "Content-Length: 49\r\n\r\n{",
    ),
    ("garbage to a stop", Question::Stop, "xyz"),
];

// Runs a client that names no server and whose input says `abc`.
fn run_plain<R: Threads + Wait + Sync>(
    threads: &R,
    rt: HostRuntime,
    name: &str,
    door: OneDoor,
) -> Result<(), Fail> {
    let outside = Outside {
        door,
        input: source(rt.alloc(), "abc")?,
        output: sink(rt.alloc()),
    };
    let ran = run_client(threads, rt.alloc(), None, outside)?;
    tell(rt, name, &ran)
}

pub fn clients<R: Threads + Wait + Sync>(threads: &R, rt: HostRuntime) -> Result<(), Fail> {
    let alloc = rt.alloc();
    for (name, server, says) in CLIENTS {
        let outside = Outside {
            door: door(alloc, source(alloc, says)?, sink(alloc)),
            input: source(alloc, "abc")?,
            output: sink(alloc),
        };
        let ran = run_client(threads, alloc, server, outside)?;
        tell(rt, name, &ran)?;
    }
    Ok(())
}

pub fn questions(rt: HostRuntime) -> Result<(), Fail> {
    let alloc = rt.alloc();
    for (name, question, says) in QUESTIONS {
        let through = door(alloc, source(alloc, says)?, sink(alloc));
        let ran = run_question(alloc, question, through, sink(alloc))?;
        tell(rt, name, &ran)?;
    }
    let through = door(alloc, source(alloc, QUESTIONS[0].2)?, sink(alloc));
    let ran = run_question(alloc, Question::Status, through, failing_sink(alloc)?)?;
    tell(rt, "a status whose output is closed", &ran)?;
    let ran = run_question(alloc, Question::Stop, OneDoor::new(None), sink(alloc))?;
    tell(rt, "a stop whose door fails", &ran)
}

/// The input and the link each wait, behind their first read, until the other one's bytes were written.
pub fn both_ways_at_once<R: Threads + Wait + Sync>(
    threads: &R,
    rt: HostRuntime,
) -> Result<(), Fail> {
    let alloc = rt.alloc();
    let to_link = Meter::new(alloc)?;
    let to_output = Meter::new(alloc)?;
    let says = waiting_source(alloc, "xyz", 1, &to_link, 3)?;
    let outside = Outside {
        input: waiting_source(alloc, "abc", 1, &to_output, 3)?,
        door: door(alloc, says, metered_sink(alloc, to_link)),
        output: metered_sink(alloc, to_output),
    };
    let ran = run_client(threads, alloc, None, outside)?;
    tell(rt, "both ways at once", &ran)
}

pub fn failed_calls<R: Threads + Wait + Sync>(threads: &R, rt: HostRuntime) -> Result<(), Fail> {
    let alloc = rt.alloc();
    let outside = Outside {
        door: door(alloc, source(alloc, "xyz")?, sink(alloc)),
        input: failing_source(alloc, "abc", 1)?,
        output: sink(alloc),
    };
    tell(
        rt,
        "an input that fails",
        &run_client(threads, alloc, None, outside)?,
    )?;
    let outside = Outside {
        door: door(alloc, source(alloc, "xyz")?, sink(alloc)),
        input: source(alloc, "abc")?,
        output: failing_sink(alloc)?,
    };
    tell(
        rt,
        "an output that is closed",
        &run_client(threads, alloc, None, outside)?,
    )?;
    let unsent = door(alloc, source(alloc, "xyz")?, failing_sink(alloc)?);
    run_plain(threads, rt, "a link that can't be written", unsent)?;
    let unread = door(alloc, failing_source(alloc, "xyz", 1)?, sink(alloc));
    run_plain(threads, rt, "a link that can't be read", unread)
}

pub fn no_links<R: Threads + Wait + Sync>(threads: &R, rt: HostRuntime) -> Result<(), Fail> {
    run_plain(threads, rt, "a door that fails", OneDoor::new(None))?;
    let closed = OneDoor::new(Some(OneLink::new(None)));
    run_plain(threads, rt, "a port without a link", closed)
}

/// As the input ends, the link is closed, and ends only then.
pub fn an_input_that_ends<R: Threads + Wait + Sync>(
    threads: &R,
    rt: HostRuntime,
) -> Result<(), Fail> {
    let alloc = rt.alloc();
    let closed = Meter::new(alloc)?;
    let says = Says::new(waiting_source(alloc, "", 0, &closed, 1)?, sink(alloc));
    let hears = Hears::new(sink(alloc), metered_sink(alloc, closed));
    let through = OneDoor::new(Some(OneLink::new(Some((says, hears)))));
    run_plain(threads, rt, "an input that ends", through)
}

/// The input ends only once the link has ended, as the program's own input does.
pub fn an_input_that_never_ends<R: Threads + Wait + Sync>(
    threads: &R,
    rt: HostRuntime,
) -> Result<(), Fail> {
    let alloc = rt.alloc();
    let ended = Meter::new(alloc)?;
    let input = waiting_source(alloc, "abc", 1, &ended, 1)?;
    let says = Says::new(source(alloc, "xyz")?, metered_sink(alloc, ended));
    let hears = Hears::new(sink(alloc), sink(alloc));
    let outside = Outside {
        door: OneDoor::new(Some(OneLink::new(Some((says, hears))))),
        input,
        output: sink(alloc),
    };
    let ran = run_client(threads, alloc, None, outside)?;
    tell(rt, "an input that never ends", &ran)
}
