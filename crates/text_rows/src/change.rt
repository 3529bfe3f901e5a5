// Changes of a text, as tests make them.
use doc_text::{ChangeFault, Text};
use json_span::Tape;
use message_body::{Body, Memory};
use position_codec::Encoding;
use std::alloc::Global;

/// Makes the changes of a JSON text, and gives what the text is then, also behind a fault.
pub fn change<T: Text + Drop>(
    alloc: Global,
    text: &str,
    encoding: Encoding,
    changes: &[u8],
) -> Result<(Result<(), ChangeFault>, Body), Memory> {
    let mut text = T::new(alloc, text.as_bytes())?;
    if changes.len() > 1000 {
        return Err(Memory);
    }
    let Ok(tape) = Tape::read(alloc, changes) else {
        return Err(Memory);
    };
    let done = text.apply(alloc, encoding, &tape, tape.root());
    Ok((done, text.whole(alloc)?))
}
