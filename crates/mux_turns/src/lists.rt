//! E12 and L2: the last lists of diagnostics that are kept of starts (LSP 3.17, Publish Diagnostics).
ghost use Rattle.std.specs.Prelude.{◌≡◌, option_map, IfOk};
ghost use Rattle.group_facts.specs.group_rows.specs.diagnostics_route.specs.Shown.{shown_text};

use message_body::{Body, Memory};
use mux_tables::diagnostics_route::shown;
use rpc_message::Message;
use std::alloc::Global;

// The most bytes of a body of a cause.
const MOST: usize = 268_435_456;

/// E12 and L2: a list that is kept as it is shown to an editor, by the editor's own version of the document, where that is open there. It
/// was read as it came, so that only memory can fail.
pub fn listed_text(alloc: Global, body: &Body, own: Option<&[u8]>) -> Result<Body, Memory>
    ensures { IfOk result (λ text. text ≡ shown_text (option_map (λ b. b.now) own.entry) body.now) }
{
    let bytes = body.bytes();
    if bytes.len() > MOST {
        return Err(Memory);
    }
    match Message::read(alloc, bytes) {
        Ok(message) => shown(alloc, &message, own),
        Err(_) => Err(Memory),
    }
}
