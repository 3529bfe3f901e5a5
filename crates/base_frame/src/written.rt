//! A frame as it is written.
ghost use Rattle.std.specs.Prelude.{◌≡◌, IfOk};
ghost use Rattle.base_frame.specs.Frames.{framed};

use itoa::Buffer;
use message_body::{Body, Memory};
use std::alloc::Global;

/// The frame with this content: `Content-Length`, the empty line and the content (LSP 3.17, Base Protocol).
pub fn frame(alloc: Global, body: &[u8]) -> Result<Body, Memory>
    ensures { IfOk result (λ bytes. bytes ≡ framed body.now) }
{
    let mut buffer = Buffer::new();
    let mut bytes = Vec::from_slice(alloc, b"Content-Length: ")?;
    bytes.extend_from_slice(buffer.format(body.len()).as_bytes())?;
    bytes.extend_from_slice(b"\r\n\r\n")?;
    bytes.extend_from_slice(body)?;
    Ok(Body::new(bytes))
}
