// What one side saw of a history.
ghost use Rattle.std.specs.Prelude.{◌≡◌, ◌++◌, IfOk, OnOk, flat_map};
ghost use Rattle.event_model.specs.Event.{heard, said, events_of};
ghost use Rattle.event_model.specs.Parts.{editor_part, server_part};
ghost use Rattle.journal_show.specs.Parts.{event_line, is_seen, part_text, seen_line, entry_text};

use crate::side::Side;
use drive_text::{write_cause, write_out};
use message_body::{Body, Memory};
use mux_history::{Cause, Entry, Out};
use std::alloc::Global;

fn is_editors_cause(cause: &Cause, editor: u64) -> bool
    ensures { result ≡ is_seen (Side.Editor editor) (heard cause.now) }
{
    match cause {
        Cause::FromEditor(e, _) => *e == editor,
        Cause::EditorGone(e, _) => *e == editor,
        Cause::Joined(_)
        | Cause::Started(_)
        | Cause::StartFailed(_)
        | Cause::FromServer(..)
        | Cause::ServerGone(_)
        | Cause::Drained(..)
        | Cause::Tick(_) => false,
    }
}

fn is_servers_cause(cause: &Cause, server: u64) -> bool
    ensures { result ≡ is_seen (Side.Server server) (heard cause.now) }
{
    match cause {
        Cause::Started(s) => *s == server,
        Cause::StartFailed(s) => *s == server,
        Cause::FromServer(s, _) => *s == server,
        Cause::ServerGone(s) => *s == server,
        Cause::Joined(_)
        | Cause::FromEditor(..)
        | Cause::EditorGone(..)
        | Cause::Drained(..)
        | Cause::Tick(_) => false,
    }
}

fn sees_cause(side: Side, cause: &Cause) -> bool
    ensures { result ≡ is_seen side (heard cause.now) }
{
    match side {
        Side::Editor(editor) => is_editors_cause(cause, editor),
        Side::Server(server) => is_servers_cause(cause, server),
    }
}

fn sees_out(side: Side, out: &Out) -> bool
    ensures { result ≡ is_seen side (said out.now) }
{
    match (side, out) {
        (Side::Editor(editor), Out::ToEditor(e, _)) => *e == editor,
        (Side::Editor(editor), Out::CloseEditor(e)) => *e == editor,
        (Side::Server(server), Out::ToServer(s, _)) => *s == server,
        (Side::Server(server), Out::EndServer(s)) => *s == server,
        _ => false,
    }
}

// Writes a cause's line, if the side sees it.
#[tactic(auto, using(crate::proofs::Parts::heard_line))]
fn write_heard(alloc: Global, text: &mut Vec<u8>, cause: &Cause, side: Side) -> Result<(), Memory>
    ensures { OnOk result (text.new.items ≡ text.old.items ++ seen_line side (heard cause.now)) }
{
    if sees_cause(side, cause) {
        write_cause(alloc, text, cause)?;
        text.push(b'\n')?;
    }
    Ok(())
}

// Writes an out's line, if the side sees it.
#[tactic(auto, using(crate::proofs::Parts::said_line))]
fn write_said(alloc: Global, text: &mut Vec<u8>, out: &Out, side: Side) -> Result<(), Memory>
    ensures { OnOk result (text.new.items ≡ text.old.items ++ seen_line side (said out.now)) }
{
    if sees_out(side, out) {
        write_out(alloc, text, out)?;
    }
    Ok(())
}

fn write_all_said(alloc: Global, text: &mut Vec<u8>, outs: &[Out], side: Side) -> Result<(), Memory>
    ensures { OnOk result (text.new.items ≡ text.old.items ++ flat_map (λ out. seen_line side (said out)) outs.now) }
{
    for out in outs {
        write_said(alloc, text, out, side)?;
    }
    Ok(())
}

// Writes the lines of an entry that the side sees.
fn write_part(alloc: Global, text: &mut Vec<u8>, entry: &Entry, side: Side) -> Result<(), Memory>
    ensures { OnOk result (text.new.items ≡ text.old.items ++ entry_text side entry.now) }
{
    write_heard(alloc, text, &entry.cause, side)?;
    write_all_said(alloc, text, entry.outs.as_slice(), side)
}

fn part_lines(alloc: Global, entries: &[Entry], side: Side) -> Result<Body, Memory>
    ensures { IfOk result (λ text. text ≡ part_text side entries.now) }
{
    let mut text = Vec::new(alloc);
    for entry in entries {
        write_part(alloc, &mut text, entry, side)?;
    }
    Ok(Body::new(text))
}

/// The lines of what this editor sent, what it was sent, and the end of its link, each with its line feed. The time is
/// linear in the entries.
pub fn editor_lines(alloc: Global, entries: &[Entry], editor: u64) -> Result<Body, Memory>
    ensures { IfOk result (λ text. text ≡ flat_map event_line (editor_part editor (events_of entries.now))) }
{
    part_lines(alloc, entries, Side::Editor(editor))
}

/// The lines of what this start of a server sent, what it was sent, and its program's start and end, each with its line
/// feed. The time is linear in the entries.
pub fn server_lines(alloc: Global, entries: &[Entry], server: u64) -> Result<Body, Memory>
    ensures { IfOk result (λ text. text ≡ flat_map event_line (server_part server (events_of entries.now))) }
{
    part_lines(alloc, entries, Side::Server(server))
}
