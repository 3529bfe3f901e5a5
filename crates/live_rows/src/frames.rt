// Messages in frames, over any stream.
use base_frame::{FrameReader, Next, frame};
use message_body::Body;
use std::alloc::Global;
use std::io::{Read, Write};
use std::test::Fail;

// No content here is longer.
const MOST: u32 = 100_000;

// No message comes in more pieces.
const PIECES: u32 = 1_000;

/// What comes over a stream, frame by frame.
#[derive(Drop)]
pub(crate) struct Frames<R> {
    source: R,
    reader: FrameReader,
}

impl<R: Read> Frames<R> {
    pub(crate) fn new(alloc: Global, source: R) -> Frames<R> {
        Frames {
            source,
            reader: FrameReader::new(alloc, MOST),
        }
    }

    /// The content of the next frame; none where the stream ends.
    pub(crate) fn next(&mut self) -> Result<Option<Body>, Fail> {
        let mut buf = [0u8; 4096];
        for _ in 0..PIECES {
            match self.reader.next() {
                Next::Frame(body) => return Ok(Some(body)),
                Next::BadFrame(..) => return Err(Fail::new("a frame has a fault")),
                Next::NotYet => {}
            }
            let count = self.source.read(&mut buf)?;
            if count == 0 {
                return Ok(None);
            }
            self.reader.feed(&buf[..count])?;
        }
        Err(Fail::new("a message has too many pieces"))
    }
}

/// Writes a message in its frame.
pub(crate) fn send<W: Write>(alloc: Global, sink: &mut W, message: &str) -> Result<(), Fail> {
    let framed = frame(alloc, message.as_bytes())?;
    sink.write_all(framed.bytes())?;
    Ok(())
}

/// A content as text.
pub(crate) fn text(body: &Body) -> Result<&str, Fail> {
    Ok(std::str::from_utf8(body.bytes())?)
}
