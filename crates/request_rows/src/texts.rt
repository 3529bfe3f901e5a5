// Bodies and messages of tests.
use message_body::Body;
use rpc_message::Message;
use std::alloc::Global;
use std::test::Fail;

pub(crate) fn text(alloc: Global, bytes: &[u8]) -> Result<Body, Fail> {
    Ok(Body::new(bytes.to_vec(alloc)?))
}

// The message that a short body is.
pub(crate) fn read<'a>(alloc: Global, body: &'a str) -> Option<Message<'a>> {
    if body.len() > 10_000 {
        return None;
    }
    Message::read(alloc, body.as_bytes()).ok()
}
