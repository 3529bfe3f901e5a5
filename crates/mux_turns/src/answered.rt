//! The numbers that ids of responses write.
ghost use Rattle.std.specs.Prelude.{◌≡◌, ◌<◌, ◌^◌, ℕ, List, Option, Some, IfSome, bytes_eq, decimal};
ghost use Rattle.event_model.specs.Requests.{answered_id};
ghost use Rattle.mux_tables.specs.Stands.{NamesAsk, NamesAt};
ghost use Rattle.mux_turns.specs.Responses.{is_response};
ghost use Rattle.rpc_message.specs.Message.{Id, message_of};
ghost use Rattle.rpc_message.specs.Parsed.{IsRead};
ghost use Rattle.rpc_message.specs.ValueTexts.{IsResponseIdText};

use itoa::Buffer;
use rpc_message::{Message, Sort};

// Whether these bytes write a number.
pub fn writes(bytes: &[u8], n: u64) -> bool
    ensures { result ≡ bytes_eq bytes.now (decimal n) }
{
    let mut digits = Buffer::new();
    bytes == digits.format(n).as_bytes()
}

// The number that a text writes, if it writes one.
fn parsed(text: &str) -> Option<u64>
    ensures number { (n : ℕ) → n < 2 ^ 64 → text.now ≡ decimal n → result ≡ Some n }
    ensures bound { IfSome result (λ n. n < 2 ^ 64) }
{
    match text.parse::<u64>() {
        Ok(n) => Some(n),
        Err(_) => None,
    }
}

// The same of bytes.
pub fn read(bytes: &[u8]) -> Option<u64>
    ensures number { (n : ℕ) → n < 2 ^ 64 → bytes.now ≡ decimal n → result ≡ Some n }
    ensures bound { IfSome result (λ n. n < 2 ^ 64) }
{
    match std::str::from_utf8(bytes) {
        Ok(text) => parsed(text),
        Err(_) => None,
    }
}

// The number that the text of an id writes, where it is one of 64 bits, without a sign and leading zeros.
fn number_in(id: &[u8]) -> Option<u64>
    ensures { (i : Option Id) → IsResponseIdText i id.now → NamesAsk i result }
{
    let n = read(id)?;
    if writes(id, n) { Some(n) } else { None }
}

// Whether a message of this class answers a request (JSON-RPC 2.0, section 5).
fn is_response(sort: Sort) -> bool
    ensures { result ≡ is_response sort }
{
    matches!(sort, Sort::Result | Sort::Error)
}

/// The number that the id of a response writes, as those of requests to editors are written; none of another message.
pub fn answered_ask(message: &Message) -> Option<u64>
    ensures { (body : List ℕ) → IsRead message.now body → NamesAsk (answered_id (message_of body)) result }
{
    if is_response(message.sort()) {
        number_in(message.id_bytes())
    } else {
        None
    }
}

// A number, where it is one of 32 bits.
fn small(n: u64) -> Option<u32>
    ensures { (i : Option Id) → NamesAsk i (Some n) → NamesAt i result }
{
    match u32::try_from(n) {
        Ok(n) => Some(n),
        Err(_) => None,
    }
}

// The same, where there is a number.
fn narrow(n: Option<u64>) -> Option<u32>
    ensures { (i : Option Id) → NamesAsk i n → NamesAt i result }
{
    match n {
        None => None,
        Some(n) => small(n),
    }
}

/// The number that the id of a response writes, as those of forwarded requests are written; none of another message.
pub fn answered_number(message: &Message) -> Option<u32>
    ensures { (body : List ℕ) → IsRead message.now body → NamesAt (answered_id (message_of body)) result }
{
    narrow(answered_ask(message))
}
