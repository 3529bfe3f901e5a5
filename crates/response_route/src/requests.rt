//! V3: what an editor gets of a start's request `workspace/applyEdit`.
ghost use Rattle.std.specs.Prelude.{◌≡◌, ℕ, List, IfOk};
ghost use Rattle.rpc_message.specs.Parsed.{IsRead};
ghost use Rattle.response_route.specs.Asked.{asked_text, documents_asked};
ghost use Rattle.response_route.specs.Edits.{Renaming, all_edits};
ghost use Rattle.response_route.specs.Reading.{Gives};
ghost use Rattle.response_route.specs.Versions.{Means};

use crate::documents::action_documents;
use crate::edits::changes_of;
use crate::fault::EditFault;
use crate::mapping::Mapping;
use json_text::Change;
use message_body::{Body, Memory};
use rpc_message::Message;
use std::alloc::Global;

// The changes that put the editor's versions in the place of those in the edit of a message's params, if it has one.
fn edit_changes(
    alloc: Global,
    message: &Message,
    mapping: Mapping,
) -> Result<Vec<Change>, EditFault>
    ensures { (body : List ℕ) (r : Renaming) → IsRead message.now body → Means mapping.entry r → Gives result (all_edits r (documents_asked body)) }
{
    match message.params() {
        Some(node) => {
            let documents = action_documents(alloc, message.tape(), node)?;
            changes_of(alloc, message.tape(), documents.as_slice(), mapping)
        }
        None => Ok(Vec::new(alloc)),
    }
}

/// V3: the body that an editor gets of a start's request `workspace/applyEdit` (LSP 3.17, ApplyWorkspaceEditParams): another id, and the
/// editor's own versions in place of the start's; none where one of these stands for no text that the editor has. It costs the body, and
/// for each version a look-up that compares URIs as often as the logarithm of what is open.
pub fn asked(
    alloc: Global,
    message: &Message,
    id: &[u8],
    mapping: Mapping,
) -> Result<Option<Body>, Memory>
    ensures { (body : List ℕ) (r : Renaming) → IsRead message.now body → Means mapping.entry r
        → IfOk result (λ text. text ≡ asked_text r body id.now) }
{
    let _body = message.bytes();
    match edit_changes(alloc, message, mapping) {
        Ok(changes) => Ok(Some(message.with_changes(alloc, id, changes)?)),
        Err(EditFault::Modified) => Ok(None),
        Err(EditFault::Memory) => Err(Memory),
    }
}
