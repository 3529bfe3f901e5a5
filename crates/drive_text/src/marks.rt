// Marks in the text of a body.
ghost use Rattle.std.specs.Prelude.{◌≡◌, ◌++◌, IfOk, OnOk};
ghost use Rattle.std.specs.List.{list_any};
ghost use Rattle.drive_text.specs.Marks.{body_of_text, is_break, is_special, mark_of, marked, text_of_body};

use message_body::{Body, Memory};
use std::alloc::Global;

// What a byte behind a `^` stands for.
fn mark_of(byte: u8) -> Option<u8>
    ensures { result ≡ mark_of byte }
{
    match byte {
        b'^' => Some(b'^'),
        b'n' => Some(b'\n'),
        b'r' => Some(b'\r'),
        _ => None,
    }
}

// A line feed or a carriage return.
fn is_break(byte: u8) -> bool
    ensures { result ≡ is_break byte }
{
    byte == b'\n' || byte == b'\r'
}

// A byte that a body's text marks.
fn is_special(byte: u8) -> bool
    ensures { result ≡ is_special byte }
{
    byte == b'^' || is_break(byte)
}

fn has_special(bytes: &[u8]) -> bool
    ensures { result ≡ list_any is_special bytes.now }
{
    bytes.iter().any(|byte| is_special(*byte))
}

// The same, a byte at a time.
fn unmarked(alloc: Global, text: &[u8]) -> Result<Option<Body>, Memory>
    ensures { IfOk result (λ body. body ≡ body_of_text text.now) }
{
    let mut bytes = Vec::with_capacity(alloc, text.len())?;
    let mut in_mark = false;
    for byte in text {
        if in_mark {
            let Some(meant) = mark_of(*byte) else {
                return Ok(None);
            };
            bytes.push(meant)?;
            in_mark = false;
        } else if *byte == b'^' {
            in_mark = true;
        } else if is_break(*byte) {
            return Ok(None);
        } else {
            bytes.push(*byte)?;
        }
    }
    if in_mark {
        return Ok(None);
    }
    Ok(Some(Body::new(bytes)))
}

/// The body that a text writes, if it writes one.
#[tactic(auto, using(crate::proofs::Bodies::plain_text))]
pub fn body_of_text(alloc: Global, text: &[u8]) -> Result<Option<Body>, Memory>
    ensures { IfOk result (λ body. body ≡ body_of_text text.now) }
{
    if has_special(text) {
        return unmarked(alloc, text);
    }
    Ok(Some(Body::new(Vec::from_slice(alloc, text)?)))
}

// Writes one byte of a body.
fn write_marked(text: &mut Vec<u8>, byte: u8) -> Result<(), Memory>
    ensures { OnOk result (text.new.items ≡ text.old.items ++ marked byte) }
{
    match byte {
        b'^' => text.extend_from_slice(b"^^")?,
        b'\n' => text.extend_from_slice(b"^n")?,
        b'\r' => text.extend_from_slice(b"^r")?,
        _ => text.push(byte)?,
    }
    Ok(())
}

// The same, a byte at a time.
fn write_all_marked(text: &mut Vec<u8>, body: &[u8]) -> Result<(), Memory>
    ensures { OnOk result (text.new.items ≡ text.old.items ++ text_of_body body.now) }
{
    for byte in body {
        write_marked(text, *byte)?;
    }
    Ok(())
}

/// Writes the text of a body.
#[tactic(auto, using(crate::proofs::Bodies::plain_body))]
pub fn write_body(text: &mut Vec<u8>, body: &[u8]) -> Result<(), Memory>
    ensures { OnOk result (text.new.items ≡ text.old.items ++ text_of_body body.now) }
{
    if has_special(body) {
        return write_all_marked(text, body);
    }
    text.extend_from_slice(body)?;
    Ok(())
}
