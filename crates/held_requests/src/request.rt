// What is kept of a request.
ghost use Rattle.std.specs.Prelude.{◌≡◌};
ghost use Rattle.held_requests.specs.Tables.{is_of, is_under};

use id_rewrite::same_form;
use message_body::Body;

/// A request of an editor that waits: `id` is the text of the id that the editor gave it (JSON-RPC 2.0, section 4), `body` all of it, as
/// it came.
#[derive(Debug, Drop)]
pub struct Request {
    pub editor: u64,
    pub id: Body,
    pub body: Body,
}

/// Whether a request is an editor's.
pub fn is_of(request: &Request, editor: u64) -> bool
    ensures { result ≡ is_of editor request.now }
{
    request.editor == editor
}

/// Whether a request is an editor's, under an id that stands for what these bytes do.
pub fn is_under(request: &Request, editor: u64, id: &[u8]) -> bool
    ensures { result ≡ is_under editor id.now request.now }
{
    request.editor == editor && same_form(id, request.id.bytes())
}
