// Bytes in which some places are replaced.
ghost use Rattle.std.specs.Prelude.{◌≡◌, IfOk};
ghost use Rattle.json_text.specs.Changes.{edits_of};
ghost use Rattle.json_text.specs.Replace.{replace, Rise};

use crate::span::Span;
use message_body::{Body, Memory};
use std::alloc::Global;

/// A place in a list of bytes, and the bytes that come there.
#[derive(Debug, Drop)]
pub struct Change {
    pub span: Span,
    pub text: Body,
}

/// The bytes with each change made, in one pass: its cost is linear in the bytes and the new texts. The caller gives the places
/// in rising order: each begins at or behind the end of the one before, and ends at or behind its own begin, within the bytes.
pub fn splice(alloc: Global, bytes: &[u8], changes: &[Change]) -> Result<Body, Memory>
    requires { Rise bytes.now (edits_of changes.now) }
    ensures { IfOk result (λ body. body ≡ replace bytes.now (edits_of changes.now)) }
{
    let mut written = Vec::new(alloc);
    let mut at: usize = 0;
    for change in changes {
        written.extend_from_slice(&bytes[at..change.span.from])?;
        written.extend_from_slice(change.text.bytes())?;
        at = change.span.to;
    }
    written.extend_from_slice(&bytes[at..])?;
    Ok(Body::new(written))
}
