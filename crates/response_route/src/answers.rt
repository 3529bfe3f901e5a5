//! S5: what the editor that asked gets of an answer.
ghost use Rattle.std.specs.Prelude.{◌≡◌, ℕ, List, IfOk};
ghost use Rattle.rpc_message.specs.Parsed.{IsRead};
ghost use Rattle.response_route.specs.Answers.{answer_text};
ghost use Rattle.response_route.specs.Edits.{Renaming, all_edits};
ghost use Rattle.response_route.specs.Reading.{Gives};
ghost use Rattle.response_route.specs.Results.{documents_in};
ghost use Rattle.response_route.specs.Versions.{Means};

use crate::documents::documents_of;
use crate::edits::changes_of;
use crate::fault::EditFault;
use crate::mapping::Mapping;
use json_text::Change;
use message_body::{Body, Memory};
use rpc_message::{ErrorCode, Message, error_answer};
use std::alloc::Global;

// The changes that put the editor's versions in the place of those in a message's result, if it has one.
fn message_changes(
    alloc: Global,
    message: &Message,
    mapping: Mapping,
) -> Result<Vec<Change>, EditFault>
    ensures { (body : List ℕ) (r : Renaming) → IsRead message.now body → Means mapping.entry r → Gives result (all_edits r (documents_in body)) }
{
    match message.result() {
        Some(node) => {
            let documents = documents_of(alloc, message.tape(), node)?;
            changes_of(alloc, message.tape(), documents.as_slice(), mapping)
        }
        None => Ok(Vec::new(alloc)),
    }
}

/// S5 with V1 and V2: the body that the editor which asked gets of an answer: its own id, and its own versions in place of the
/// start's; where one of these stands for no text that the editor has, an error (LSP 3.17, ContentModified). It costs the body, and for
/// each version a look-up that compares URIs as often as the logarithm of what is open.
pub fn answer(alloc: Global, message: &Message, id: &[u8], mapping: Mapping) -> Result<Body, Memory>
    ensures { (body : List ℕ) (r : Renaming) → IsRead message.now body → Means mapping.entry r
        → IfOk result (λ text. text ≡ answer_text r body id.now) }
{
    let _body = message.bytes();
    match message_changes(alloc, message, mapping) {
        Ok(changes) => message.with_changes(alloc, id, changes),
        Err(EditFault::Modified) => error_answer(alloc, id, ErrorCode::ContentModified),
        Err(EditFault::Memory) => Err(Memory),
    }
}
