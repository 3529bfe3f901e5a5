// What an item means, by the lane that it is taken of.
ghost use Rattle.std.specs.Prelude.{◌≡◌, ◌≤◌, IsTrue, if◌then◌else◌, length, nat_le, None, Some, true, false};
ghost use Rattle.lane_lists.specs.declared.item.Meaning.TheVariants as meant;
ghost use Rattle.mux_history.specs.declared.cause.Cause.TheVariants as cause;
ghost use Rattle.mux_history.specs.Cores.{body_length};
ghost use Rattle.lane_desk.specs.Smalls.{IsSmall};
ghost use Rattle.lane_lists.specs.Seats.{editor_posted, editor_side, ended_by, gone_if, late, server_posted, server_side, small, start_ended, ticked};

use crate::seat::Seat;
use lane_lists::{Meaning, Posted, Side};
use message_body::Body;
use mux_history::{Cause, Why};

// The most bytes of a body of a cause.
const MOST: usize = 268_435_456;

// It means this cause where that is allowed.
fn means_if(allowed: bool, cause: Cause) -> Meaning
    requires { IsTrue allowed → body_length cause ≤ 268435456 }
    ensures means { result ≡ (if allowed then meant.Means cause else meant.Stray) }
    ensures small { IsSmall result }
{
    if allowed {
        Meaning::Means(cause)
    } else {
        Meaning::Stray
    }
}

fn is_small(body: &Body) -> bool
    ensures { result ≡ nat_le (length body.now) 268435456 }
{
    body.bytes().len() <= MOST
}

fn from_editor(editor: u64, body: Body) -> Meaning
    ensures means { result ≡ small body (cause.FromEditor editor body) }
    ensures small { IsSmall result }
{
    means_if(is_small(&body), Cause::FromEditor(editor, body))
}

fn from_server(start: u64, body: Body) -> Meaning
    ensures means { result ≡ small body (cause.FromServer start body) }
    ensures small { IsSmall result }
{
    means_if(is_small(&body), Cause::FromServer(start, body))
}

// An item of a session that is over.
fn late(tail: bool) -> Meaning
    ensures means { result ≡ late tail }
    ensures small { IsSmall result }
{
    if tail {
        Meaning::Silent
    } else {
        Meaning::Stray
    }
}

fn ended_by(editor: u64, why: Why) -> Meaning
    ensures means { result ≡ ended_by editor why }
    ensures small { IsSmall result }
{
    match why {
        Why::WriteFault => Meaning::Stray,
        _ => Meaning::Means(Cause::EditorGone(editor, why)),
    }
}

fn start_ended(start: u64, why: Why) -> Meaning
    ensures means { result ≡ start_ended start why }
    ensures small { IsSmall result }
{
    match why {
        Why::End | Why::ReadFault | Why::BadFrame => Meaning::Means(Cause::ServerGone(start)),
        _ => Meaning::Stray,
    }
}

// An item that an editor's lane without a session posts.
fn posted_between(next: u64, tail: bool, item: Posted) -> Meaning
    ensures means { result ≡ editor_posted next None tail item }
    ensures small { IsSmall result }
{
    match item {
        Posted::Link => means_if(!tail, Cause::Joined(next)),
        Posted::Body(_) | Posted::Ended(_) => late(tail),
        _ => Meaning::Stray,
    }
}

// An item of an editor's session.
fn posted_by_editor(next: u64, editor: u64, tail: bool, item: Posted) -> Meaning
    ensures means { result ≡ editor_posted next (Some editor) tail item }
    ensures small { IsSmall result }
{
    let _ = next;
    let _ = tail;
    match item {
        Posted::Body(body) => from_editor(editor, body),
        Posted::Ended(why) => ended_by(editor, why),
        _ => Meaning::Stray,
    }
}

// An item of a start that is to come up.
fn posted_before_up(start: u64, tail: bool, item: Posted) -> Meaning
    ensures means { result ≡ server_posted (Some start) false tail item }
    ensures small { IsSmall result }
{
    match item {
        Posted::Up => means_if(!tail, Cause::Started(start)),
        Posted::NoStart => means_if(!tail, Cause::StartFailed(start)),
        Posted::Body(_) | Posted::Ended(_) => late(tail),
        _ => Meaning::Stray,
    }
}

// An item of a start that is up.
fn posted_by_server(start: u64, tail: bool, item: Posted) -> Meaning
    ensures means { result ≡ server_posted (Some start) true tail item }
    ensures small { IsSmall result }
{
    let _ = tail;
    match item {
        Posted::Body(body) => from_server(start, body),
        Posted::Ended(why) => start_ended(start, why),
        _ => Meaning::Stray,
    }
}

// An item that a server's lane without a start posts.
fn posted_by_nobody(up: bool, tail: bool, item: Posted) -> Meaning
    ensures means { result ≡ server_posted None up tail item }
    ensures small { IsSmall result }
{
    let _ = up;
    match item {
        Posted::Body(_) | Posted::Ended(_) => late(tail),
        _ => Meaning::Stray,
    }
}

/// What the ticker's lane posts.
pub fn ticked(item: Posted) -> Meaning
    ensures means { result ≡ ticked item }
    ensures small { IsSmall result }
{
    match item {
        Posted::Tick(time) => Meaning::Means(Cause::Tick(time)),
        _ => Meaning::Stray,
    }
}

impl Seat {
    /// What an editor's lane posts, where the next editor has this number.
    pub fn editor_posted(&self, next: u64, item: Posted) -> Meaning
        ensures means { result ≡ editor_posted next self.now.now self.now.tail item }
        ensures small { IsSmall result }
    {
        match self.session() {
            None => posted_between(next, self.has_tail(), item),
            Some(editor) => posted_by_editor(next, editor, self.has_tail(), item),
        }
    }

    /// What a server's lane posts.
    pub fn server_posted(&self, item: Posted) -> Meaning
        ensures means { result ≡ server_posted self.now.now self.now.up self.now.tail item }
        ensures small { IsSmall result }
    {
        match self.session() {
            None => posted_by_nobody(self.is_up(), self.has_tail(), item),
            Some(start) if self.is_up() => posted_by_server(start, self.has_tail(), item),
            Some(start) => posted_before_up(start, self.has_tail(), item),
        }
    }

    /// What an editor's lane says of the foremost order that it owes an answer to.
    pub fn editor_side(&self, item: Side) -> Meaning
        ensures means { result ≡ editor_side self.now.now self.now.owed item }
        ensures small { IsSmall result }
    {
        let Some((editor, bytes)) = self.first_owed() else {
            return Meaning::Stray;
        };
        if !self.is_now(editor) {
            return Meaning::Silent;
        }
        match item {
            Side::Wrote => Meaning::Means(Cause::Drained(editor, bytes as u64)),
            Side::Broke => Meaning::Means(Cause::EditorGone(editor, Why::WriteFault)),
        }
    }

    // The start of this lane is gone.
    fn gone_if_up(&self, start: u64) -> Meaning
        ensures means { result ≡ gone_if self.now.up start }
        ensures small { IsSmall result }
    {
        means_if(self.is_up(), Cause::ServerGone(start))
    }

    /// What a server's lane says of the foremost order that it owes an answer to.
    pub fn server_side(&self, item: Side) -> Meaning
        ensures means { result ≡ server_side self.now.now self.now.up self.now.owed item }
        ensures small { IsSmall result }
    {
        let Some((start, _)) = self.first_owed() else {
            return Meaning::Stray;
        };
        match item {
            Side::Wrote => Meaning::Silent,
            Side::Broke if self.is_now(start) => self.gone_if_up(start),
            Side::Broke => Meaning::Silent,
        }
    }
}
