// The lines of outs, causes and entries.
ghost use Rattle.std.specs.Prelude.{◌≡◌, ◌++◌, IfOk, OnOk, string_bytes};
ghost use Rattle.drive_text.specs.Outs.{head_of, out_line, out_lines};
ghost use Rattle.drive_text.specs.Spellings.{spelled_why, cause_head, spelled, entry_lines};

use crate::marks::write_body;
use message_body::{Body, Memory};
use mux_history::{Cause, Entry, Out, Outs, Why};
use std::alloc::Global;

// The front of the line, before the body or the line feed.
fn head_of(alloc: Global, out: &Out) -> Result<String, Memory>
    ensures { IfOk result (λ head. string_bytes head ≡ head_of out.now) }
{
    match out {
        Out::ToEditor(editor, _) => Ok(format!(in alloc; ">ed {editor} ")?),
        Out::ToServer(start, _) => Ok(format!(in alloc; ">sv {start} ")?),
        Out::Spawn(start, group) => Ok(format!(in alloc; ">spawn {start} {group}")?),
        Out::CloseEditor(editor) => Ok(format!(in alloc; ">close {editor}")?),
        Out::EndServer(start) => Ok(format!(in alloc; ">end {start}")?),
    }
}

/// Writes an out's line, with its line feed. The time is linear in its body.
pub fn write_out(alloc: Global, text: &mut Vec<u8>, out: &Out) -> Result<(), Memory>
    ensures { OnOk result (text.new.items ≡ text.old.items ++ out_line out.now) }
{
    let head = head_of(alloc, out)?;
    text.extend_from_slice(head.as_bytes())?;
    match out {
        Out::ToEditor(_, body) | Out::ToServer(_, body) => write_body(text, body.bytes())?,
        Out::Spawn(..) | Out::CloseEditor(_) | Out::EndServer(_) => {}
    }
    text.push(b'\n')?;
    Ok(())
}

fn write_lines(alloc: Global, text: &mut Vec<u8>, outs: &Outs) -> Result<(), Memory>
    ensures { OnOk result (text.new.items ≡ text.old.items ++ out_lines outs.now) }
{
    for out in outs.as_slice() {
        write_out(alloc, text, out)?;
    }
    Ok(())
}

/// The lines of these outs, each with its line feed. The time is linear in them.
pub fn write_outs(alloc: Global, outs: &Outs) -> Result<Body, Memory>
    ensures { IfOk result (λ text. text ≡ out_lines outs.now) }
{
    let mut text = Vec::new(alloc);
    write_lines(alloc, &mut text, outs)?;
    Ok(Body::new(text))
}

fn why_word(why: Why) -> &'static str
    ensures { result.now ≡ spelled_why why }
{
    match why {
        Why::End => "end",
        Why::ReadFault => "read",
        Why::WriteFault => "write",
        Why::BadFrame => "frame",
    }
}

// The front of a cause's line, before the body or the line feed.
fn cause_head(alloc: Global, cause: &Cause) -> Result<String, Memory>
    ensures { IfOk result (λ head. string_bytes head ≡ cause_head cause.now) }
{
    match cause {
        Cause::Joined(editor) => Ok(format!(in alloc; "join {editor}")?),
        Cause::FromEditor(editor, _) => Ok(format!(in alloc; "ed {editor} ")?),
        Cause::EditorGone(editor, why) => {
            let word = why_word(*why);
            Ok(format!(in alloc; "gone {editor} {word}")?)
        }
        Cause::Started(start) => Ok(format!(in alloc; "up {start}")?),
        Cause::StartFailed(start) => Ok(format!(in alloc; "nostart {start}")?),
        Cause::FromServer(start, _) => Ok(format!(in alloc; "sv {start} ")?),
        Cause::ServerGone(start) => Ok(format!(in alloc; "exit {start}")?),
        Cause::Drained(editor, bytes) => Ok(format!(in alloc; "drained {editor} {bytes}")?),
        Cause::Tick(time) => Ok(format!(in alloc; "tick {time}")?),
    }
}

/// Writes a cause's line, without its line feed. The time is linear in its body.
#[tactic(auto, using(crate::proofs::Heads::two_parts))]
pub fn write_cause(alloc: Global, text: &mut Vec<u8>, cause: &Cause) -> Result<(), Memory>
    ensures { OnOk result (text.new.items ≡ text.old.items ++ spelled cause.now) }
{
    let head = cause_head(alloc, cause)?;
    text.extend_from_slice(head.as_bytes())?;
    match cause {
        Cause::FromEditor(_, body) | Cause::FromServer(_, body) => write_body(text, body.bytes())?,
        _ => {}
    }
    Ok(())
}

/// The line of a cause, without its line feed. The time is linear in its body.
pub fn write_cause_line(alloc: Global, cause: &Cause) -> Result<Body, Memory>
    ensures { IfOk result (λ line. line ≡ spelled cause.now) }
{
    let mut text = Vec::new(alloc);
    write_cause(alloc, &mut text, cause)?;
    Ok(Body::new(text))
}

/// The lines of an entry: its cause, its outs, and a point, each with its line feed. The time is linear in them.
pub fn write_entry(alloc: Global, entry: &Entry) -> Result<Body, Memory>
    ensures { IfOk result (λ text. text ≡ entry_lines entry.now) }
{
    let mut text = Vec::new(alloc);
    write_cause(alloc, &mut text, &entry.cause)?;
    text.push(b'\n')?;
    write_lines(alloc, &mut text, &entry.outs)?;
    text.extend_from_slice(b".\n")?;
    Ok(Body::new(text))
}
