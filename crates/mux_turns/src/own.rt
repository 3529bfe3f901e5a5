//! E4 to E6: the requests of the multiplexer's own.
ghost use Rattle.std.specs.Prelude.{◌≡◌, ℕ, List};
ghost use Rattle.group_facts.specs.group_rows.specs.Rows.{asks_lspmux};
ghost use Rattle.rpc_message.specs.Message.{message_of};
ghost use Rattle.rpc_message.specs.Parsed.{IsRead};

use group_facts::mux_members::{is_open, is_status, is_stop};
use rpc_message::Message;

/// E4 to E6: whether a message is a request of the multiplexer's own.
pub fn asks_lspmux(message: &Message) -> bool
    ensures { (body : List ℕ) → IsRead message.now body → result ≡ asks_lspmux (message_of body) }
{
    is_open(message) || (is_status(message) || is_stop(message))
}
