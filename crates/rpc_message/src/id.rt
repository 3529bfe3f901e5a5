//! Identifiers, by their bytes (JSON-RPC 2.0, section 4; LSP 3.17, Request Message).
ghost use Rattle.std.specs.Prelude.{◌≡◌, ◌&&◌, ℕ, true, false, List, [], ◌∷◌, ◌++◌, bytes_eq};
ghost use Rattle.json_span.specs.Characters.{characters_in};
ghost use Rattle.rpc_message.specs.Ids.{is_quoted, between_quotes};
ghost use Rattle.rpc_message.specs.Message.{Id, is_integer, same_id};
ghost use Rattle.rpc_message.specs.ValueTexts.{IsIdText};

use json_span::same_characters;

/// Whether a number's text has no fraction and no exponent.
#[tactic(auto, unfolding(crate::specs::Message::is_integer))]
pub fn is_integer(text: &[u8]) -> bool
    ensures { result ≡ is_integer text.now }
{
    for byte in text {
        if !(byte.is_ascii_digit() || *byte == b'-') {
            return false;
        }
    }
    true
}

/// Whether an identifier is a string, by its first byte.
pub fn is_quoted(id: &[u8]) -> bool
    ensures { result ≡ is_quoted id.now }
{
    match id {
        [first, ..] => *first == b'"',
        [] => false,
    }
}

// What is between the quotation marks of a string.
fn between_quotes(id: &[u8]) -> &[u8]
    ensures read { result.now ≡ between_quotes id.now }
    ensures string { (raw : List ℕ) → id.now ≡ 34 ∷ (raw ++ (34 ∷ [])) → result.now ≡ raw }
{
    if id.len() >= 2 {
        &id[1..id.len() - 1]
    } else {
        &[]
    }
}

/// Whether two identifiers are the same: two integers of one text, or two strings of the same characters. Bytes of which
/// one doesn't begin as a string are the same where they are equal, whatever they are. Of two that begin as strings, though
/// one is none, the characters between first and last byte are compared, up to the first place where none can be read.
pub fn same_id(a: &[u8], b: &[u8]) -> bool
    ensures ids { (i j : Id) → IsIdText i a.now → IsIdText j b.now → result ≡ same_id i j }
    ensures bytes { (is_quoted a.now && is_quoted b.now) ≡ false → result ≡ bytes_eq a.now b.now }
    ensures strings { (is_quoted a.now && is_quoted b.now) ≡ true
        → result ≡ bytes_eq (characters_in (between_quotes a.now)) (characters_in (between_quotes b.now)) }
{
    if is_quoted(a) && is_quoted(b) {
        same_characters(between_quotes(a), between_quotes(b))
    } else {
        a == b
    }
}
