// One question to the daemon.
ghost use Rattle.std.specs.Prelude.{◌≡◌, ◌≤◌, ℕ, List, length, None, IfOk, option_map};
ghost use Rattle.outside_io.specs.Doors.{address_of};
ghost use Rattle.outside_io.specs.Faults.{Rose};
ghost use Rattle.outside_io.specs.Sessions.{Session, session_of};
ghost use Rattle.mux_client.specs.Complete.{IsDone, OffersLink, SaysFirst, Stays};
ghost use Rattle.mux_client.specs.Dials.{AtPort, Called, Dialled, door_state, port_state};
ghost use Rattle.mux_client.specs.Questions.{Asked, Resulted, output_state};
ghost use Rattle.mux_client.specs.Replies.{Says};
ghost use Rattle.mux_client.specs.Requests.{IsResult, method_of, question_id, question_text, shown_text};

use crate::dialling::{Link, NoLink, dial, hang_up, take_link};
use crate::exchange::exchange;
use crate::fault::ClientFault;
use crate::pieces::write_piece;
use crate::reply::{Reply, read_reply};
use message_body::{Body, Memory};
use mux_config::Config;
use outside_io::{Door, Port, Sink, Source};
use rpc_message::request;
use std::alloc::Global;

/// What the daemon is asked.
#[derive(Clone, Copy, Debug, PartialEq, Eq)]
pub enum Question {
    /// Which groups there are.
    Status,
    /// To end.
    Stop,
}

impl Question {
    /// Its method, `lspmux/status` or `lspmux/stop`.
    pub fn method(self) -> &'static str
        ensures { result.now ≡ method_of self }
    {
        match self {
            Question::Status => "lspmux/status",
            Question::Stop => "lspmux/stop",
        }
    }
}

// The request that asks it, under the id 1.
fn question_request(alloc: Global, question: Question) -> Result<Body, Memory>
    ensures { IfOk result (λ body. body ≡ question_text question) }
{
    request(alloc, 1, question.method(), None)
}

// What a frame's content says of that request.
fn question_reply(alloc: Global, content: &[u8]) -> Result<Reply, Memory>
    requires { length content.now ≤ 268435456 }
    ensures { IfOk result (λ reply. Says question_id content.now reply) }
{
    read_reply(alloc, content, b"1")
}

// Sends a question on a link and takes the result's bytes.
#[tactic(auto, using(crate::proofs::Asking::resulted, crate::proofs::Asking::resulted_refused, crate::proofs::Asking::resulted_other, crate::proofs::Asking::resulted_unlooked, crate::proofs::Asking::resulted_none, crate::proofs::Asking::resulted_unsent))]
fn result_of<S: Source, K: Sink>(
    alloc: Global,
    limit: u32,
    question: Question,
    link: &mut Link<S, K>,
) -> Result<Body, ClientFault>
    requires { limit ≤ 268435456 }
    ensures { Resulted limit question (session_of S.taken S.left S.faults K.written K.faults link.old.source link.old.sink)
        (session_of S.taken S.left S.faults K.written K.faults link.new.source link.new.sink) result }
{
    let Ok(asked) = question_request(alloc, question) else {
        return Err(ClientFault::Memory);
    };
    let answer = exchange(
        alloc,
        limit,
        asked.bytes(),
        &mut link.source,
        &mut link.sink,
    )?;
    let Ok(reply) = question_reply(alloc, answer.bytes()) else {
        return Err(ClientFault::Memory);
    };
    match reply {
        Reply::Result(value) => Ok(value),
        Reply::Refusal => Err(ClientFault::Answer),
        Reply::Other => Err(ClientFault::Answer),
    }
}

// What is shown of a result's bytes.
fn shown(alloc: Global, question: Question, value: &[u8]) -> Result<Vec<u8>, Memory>
    ensures { IfOk result (λ line. line.items ≡ shown_text question value.now) }
{
    match question {
        Question::Status => {
            let mut line = Vec::from_slice(alloc, value)?;
            line.push(b'\n')?;
            Ok(line)
        }
        Question::Stop => Ok(Vec::new(alloc)),
    }
}

// Asks over a link, and shows the result.
#[tactic(auto, using(crate::proofs::Asking::asked_none, crate::proofs::Asking::asked_unshown, crate::proofs::Asking::asked_whole, crate::proofs::Asking::asked_cut))]
fn ask_over<S: Source, K: Sink, O: Sink>(
    alloc: Global,
    limit: u32,
    question: Question,
    link: &mut Link<S, K>,
    output: &mut O,
) -> Result<(), ClientFault>
    requires { limit ≤ 268435456 }
    ensures { Asked limit question (output_state O.written O.faults output.old) (output_state O.written O.faults output.new)
        (session_of S.taken S.left S.faults K.written K.faults link.old.source link.old.sink)
        (session_of S.taken S.left S.faults K.written K.faults link.new.source link.new.sink) result }
{
    let value = result_of(alloc, limit, question, link)?;
    let Ok(line) = shown(alloc, question, value.bytes()) else {
        return Err(ClientFault::Memory);
    };
    if write_piece(output, line.as_slice()) {
        Ok(())
    } else {
        Err(ClientFault::Output)
    }
}

// Takes a port's link, asks over it, and hands it back.
#[tactic(auto, using(crate::proofs::Dials::at_none, crate::proofs::Dials::at_link))]
fn ask_at<P: Port, O: Sink>(
    alloc: Global,
    limit: u32,
    question: Question,
    port: &mut P,
    output: &mut O,
) -> Result<(), ClientFault>
    requires { limit ≤ 268435456 }
    ensures { AtPort (port_state P.sessions P.links P.held P.faults port.old) (port_state P.sessions P.links P.held P.faults port.new)
        (output_state O.written O.faults output.new ≡ output_state O.written O.faults output.old)
        (Asked limit question (output_state O.written O.faults output.old) (output_state O.written O.faults output.new)) result }
{
    let mut link = match take_link(port) {
        Ok(link) => link,
        Err(NoLink) => return Err(ClientFault::Answer),
    };
    let asked = ask_over(alloc, limit, question, &mut link, output);
    hang_up(port, link);
    asked
}

// Dials a place, and asks over its link. The port is left there.
#[tactic(auto, using(crate::proofs::Dials::called_so, crate::proofs::Dials::dialled_none, crate::proofs::Dials::dialled_given))]
fn ask_from<D: Door, O: Sink>(
    alloc: Global,
    config: &Config,
    question: Question,
    door: &mut D,
    port: &mut Option<D::Port>,
    output: &mut O,
) -> Result<(), ClientFault>
    requires { port.old ≡ None }
    ensures called { Called (address_of config.now.place) (D.calls door.old) (D.calls door.new) result }
    ensures ran { Dialled (door_state D.left D.faults door.old) (door_state D.left D.faults door.new)
        (option_map (port_state D.Port.Port.sessions D.Port.Port.links D.Port.Port.held D.Port.Port.faults) port.new)
        (output_state O.written O.faults output.new ≡ output_state O.written O.faults output.old)
        (Asked config.now.content question (output_state O.written O.faults output.old) (output_state O.written O.faults output.new)) result }
{
    dial(door, &config.place, port)?;
    match port {
        Some(port) => ask_at(alloc, config.content, question, port, output),
        None => unreachable!(),
    }
}

/// Asks the daemon: dials the settings' place, sends the question under the id 1, and takes the link's first frame, which is to be
/// its result. Of the status it writes the result's bytes and a line feed to the output, of a stop nothing. The dialled port is
/// left in `port`, and has its link back.
pub fn ask<D: Door, O: Sink>(
    alloc: Global,
    config: &Config,
    question: Question,
    door: &mut D,
    port: &mut Option<D::Port>,
    output: &mut O,
) -> Result<(), ClientFault>
    requires { port.old ≡ None }
    ensures called { Called (address_of config.now.place) (D.calls door.old) (D.calls door.new) result }
    ensures ran { Dialled (door_state D.left D.faults door.old) (door_state D.left D.faults door.new)
        (option_map (port_state D.Port.Port.sessions D.Port.Port.links D.Port.Port.held D.Port.Port.faults) port.new)
        (output_state O.written O.faults output.new ≡ output_state O.written O.faults output.old)
        (Asked config.now.content question (output_state O.written O.faults output.old) (output_state O.written O.faults output.new)) result }
    ensures complete { (link : Session) (bytes : List ℕ) → OffersLink (door_state D.left D.faults door.old) link bytes
        → SaysFirst config.now.content (IsResult question_id) bytes → ¬ Rose (D.faults door.old) (D.faults door.new)
        → ¬ Rose (O.faults output.old) (O.faults output.new)
        → Stays (option_map (port_state D.Port.Port.sessions D.Port.Port.links D.Port.Port.held D.Port.Port.faults) port.new) link → IsDone result }
{
    ask_from(alloc, config, question, door, port, output)
}
