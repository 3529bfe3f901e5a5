//! What a notification that cancels names: a request (LSP 3.17, Cancellation Support), or work by its token (Work Done Progress).
ghost use Rattle.std.specs.Prelude.{◌≡◌, ℕ, List, Option, true, codes, option_map};
ghost use Rattle.std.specs.Option.{option_and_then};
ghost use Rattle.json_nodes.specs.At.{Found};
ghost use Rattle.json_text.specs.Json.{Json};
ghost use Rattle.mux_model.specs.event_model.specs.Members.{named_of};
ghost use Rattle.mux_members.specs.Cancels.{IsTextOf, may_be_id};
ghost use Rattle.mux_members.specs.Finds.{is_ascii};
ghost use Rattle.rpc_message.specs.Message.{id_of, message_of, notification};
ghost use Rattle.rpc_message.specs.Parsed.{IsRead};

use crate::envelope::notification_params;
use crate::look::{bytes, is_integer, is_text, member};
use rpc_message::Message;
use rpc_message::json_span::Tape;

// Whether a value is an integer or a string, as an id is (JSON-RPC 2.0, section 4).
fn is_id(tape: &Tape, node: Option<u32>) -> bool
    ensures { (o : Option Json) → Found tape.now o node → result ≡ may_be_id o }
{
    is_integer(tape, node) || is_text(tape, node)
}

// The bytes of a member of a notification's params, where it is an integer or a string.
fn id_named<'a>(m: &'a Message, name: &str) -> Option<&'a [u8]>
    ensures { is_ascii name.now ≡ true → (text method : List ℕ) (params : Option Json) → IsRead m.now text → message_of text ≡ notification method params
        → IsTextOf (option_and_then id_of (named_of name.now params)) (option_map (λ b. b.now) result) }
{
    let tape = m.tape();
    let id = member(tape, notification_params(m), name);
    if is_id(tape, id) {
        Some(bytes(tape, id))
    } else {
        None
    }
}

/// E11: the bytes of the id that a notification's params name; none where they name no integer and no string.
pub fn cancelled_id<'a>(m: &'a Message) -> Option<&'a [u8]>
    ensures { (text method : List ℕ) (params : Option Json) → IsRead m.now text → message_of text ≡ notification method params
        → IsTextOf (option_and_then id_of (named_of (codes "id") params)) (option_map (λ b. b.now) result) }
{
    id_named(m, "id")
}

/// E11: the same of the token that they name (LSP 3.17, ProgressToken).
pub fn cancelled_token<'a>(m: &'a Message) -> Option<&'a [u8]>
    ensures { (text method : List ℕ) (params : Option Json) → IsRead m.now text → message_of text ≡ notification method params
        → IsTextOf (option_and_then id_of (named_of (codes "token") params)) (option_map (λ b. b.now) result) }
{
    id_named(m, "token")
}
