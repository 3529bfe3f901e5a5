//! What the routing table reads in params.
ghost use Rattle.std.specs.Prelude.{◌≡◌, ℕ, List, Option, true, IfOk, option_map};
ghost use Rattle.json_text.specs.Json.{Json};
ghost use Rattle.json_nodes.specs.At.{Found};
ghost use Rattle.rpc_message.specs.Message.{Id, message_of, notification, request};
ghost use Rattle.rpc_message.specs.Parsed.{IsRead};
ghost use Rattle.mux_model.specs.event_model.specs.Members.{has_token, is_token, named_of, params_of};
ghost use Rattle.mux_members.specs.Finds.{is_ascii};
ghost use Rattle.mux_members.specs.Tokens.{text_of, token_bytes};

use crate::envelope::request_params;
use crate::look::{is_integer, is_text, member, member_bytes};
use crate::notice::string;
use message_body::{Body, Memory};
use rpc_message::Message;
use rpc_message::json_span::Tape;
use std::alloc::Global;

// Whether a value is a progress token (LSP 3.17, ProgressToken).
fn is_token(tape: &Tape, node: Option<u32>) -> bool
    ensures { (o : Option Json) → Found tape.now o node → result ≡ is_token o }
{
    is_integer(tape, node) || is_text(tape, node)
}

/// Whether a request's params have a token for progress or for partial results (LSP 3.17, WorkDoneProgressParams and
/// PartialResultParams).
pub fn has_token(m: &Message) -> bool
    ensures { (bytes method : List ℕ) (id : Id) (params : Option Json) → IsRead m.now bytes → message_of bytes ≡ request id method params
        → result ≡ has_token params }
{
    let tape = m.tape();
    let params = request_params(m);
    is_token(tape, member(tape, params, "workDoneToken"))
        || is_token(tape, member(tape, params, "partialResultToken"))
}

/// Whether the last member of this name of a value is a progress token (LSP 3.17, ProgressToken).
pub fn named_token(tape: &Tape, node: Option<u32>, name: &str) -> bool
    ensures { is_ascii name.now ≡ true → (o : Option Json) → Found tape.now o node → result ≡ is_token (named_of name.now o) }
{
    is_token(tape, member(tape, node, name))
}

/// The bytes of a token of a request's params, where its last member of this name is one (LSP 3.17, ProgressToken).
pub fn token<'a>(m: &'a Message, name: &str) -> Option<&'a [u8]>
    ensures { is_ascii name.now ≡ true → (bytes method : List ℕ) (id : Id) (params : Option Json) → IsRead m.now bytes
        → message_of bytes ≡ request id method params → option_map (λ b. b.now) result ≡ token_bytes name.now bytes }
{
    let tape = m.tape();
    let params = m.params();
    if named_token(tape, params, name) {
        member_bytes(tape, params, name)
    } else {
        None
    }
}

/// The characters of a member of params, where it is a string, in UTF-8.
pub fn text(alloc: Global, m: &Message, name: &str) -> Result<Option<Body>, Memory>
    ensures asked { is_ascii name.now ≡ true → (bytes method : List ℕ) (id : Id) (params : Option Json) → IsRead m.now bytes
        → message_of bytes ≡ request id method params → IfOk result (λ text. text ≡ text_of (named_of name.now (params_of bytes))) }
    ensures told { is_ascii name.now ≡ true → (bytes method : List ℕ) (params : Option Json) → IsRead m.now bytes
        → message_of bytes ≡ notification method params → IfOk result (λ text. text ≡ text_of (named_of name.now params)) }
{
    string(alloc, m.tape(), m.params(), name)
}
