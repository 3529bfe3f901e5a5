// What is kept of an open request.
ghost use Rattle.std.specs.Prelude.{◌≡◌, ◌&&◌, nat_eq};
ghost use Rattle.id_rewrite.specs.Forms.{same_form};

use crate::form::same_form;
use message_body::Body;
use response_route::Versions;

/// A request that was sent on and isn't answered.
///
/// `id` is the text of the id that the editor gave it (JSON-RPC 2.0, section 4: a string or a number). `work` and
/// `partial` are the texts of its tokens for progress, where it has them (LSP 3.17, Work Done Progress and Partial
/// Result Progress).
#[derive(Drop)]
pub struct Pending {
    pub editor: u64,
    pub id: Body,
    pub work: Option<Body>,
    pub partial: Option<Body>,
    /// Whether the editor cancelled it (LSP 3.17, Cancellation Support).
    pub cancelled: bool,
    /// What was noted as it was sent on, of the documents that its editor had open; none where nothing was, or it isn't wanted any more.
    pub noted: Option<Versions>,
}

/// Whether a request is of an editor, under an id.
pub fn is_under(pending: &Pending, editor: u64, id: &[u8]) -> bool
    ensures { result ≡ (nat_eq pending.now.editor editor && same_form id.now pending.now.id) }
{
    pending.editor == editor && same_form(id, pending.id.bytes())
}

/// An open request, and the number that is its id at the server.
#[derive(Drop)]
pub struct Numbered {
    pub number: u32,
    pub pending: Pending,
}

/// Each number below the limit was given.
#[derive(Clone, Copy, Debug, PartialEq, Eq)]
pub struct NumbersUsed;
