//! A string's characters as text, and compared with a text or with another string's.
ghost use Rattle.std.specs.Prelude.{◌≡◌, ℕ, ◌↔◌, ◌++◌, List, IfOk, OnOk, IsTrue, bytes_eq, encode_utf8, encode_utf8_all};
ghost use Rattle.std.specs.Str.{chars};
ghost use Rattle.json_text.specs.String.{SpellsCharacters};
ghost use Rattle.json_token.specs.Characters.{characters_in};

use crate::character::{is_at_end, next_character, strip_character};
use crate::run::plain_end;
use std::alloc::{AllocError, Global};

/// The characters that the bytes between a string's quotation marks stand for, in UTF-8. A surrogate with no partner stands for
/// U+FFFD.
pub fn decode(alloc: Global, raw: &[u8]) -> Result<Vec<u8>, AllocError>
    ensures { (cs : List ℕ) → SpellsCharacters cs raw.now → IfOk result (λ v. v.items ≡ encode_utf8_all cs) }
{
    let mut text = Vec::new(alloc);
    let mut rest = raw;
    loop {
        let end = plain_end(rest, 0);
        text.extend_from_slice(&rest[..end])?;
        let Some((character, more)) = next_character(&rest[end..]) else {
            return Ok(text);
        };
        push_character(&mut text, character)?;
        rest = more;
    }
}

// Behind these bytes, a character in UTF-8.
fn push_character(text: &mut Vec<u8>, character: char) -> Result<(), AllocError>
    ensures { OnOk result (text.new.items ≡ text.old.items ++ encode_utf8 character) }
{
    let mut buffer = [0; 4];
    text.extend_from_slice(character.encode_utf8(&mut buffer).as_bytes())
}

/// Whether the bytes between a string's quotation marks stand for the characters of a text.
pub fn spells_text(raw: &[u8], text: &str) -> bool
    ensures { (cs : List ℕ) → SpellsCharacters cs raw.now → (IsTrue result ↔ (cs ≡ chars text.now)) }
{
    let mut rest = raw;
    for wanted in text.chars() {
        let Some(more) = strip_character(rest, wanted) else {
            return false;
        };
        rest = more;
    }
    is_at_end(rest)
}

/// Whether the bytes between the quotation marks of two strings stand for the same characters. Of other bytes it compares the
/// characters that are read up to the first place where none can be.
pub fn same_characters(a: &[u8], b: &[u8]) -> bool
    ensures read { result ≡ bytes_eq (characters_in a.now) (characters_in b.now) }
    ensures strings { (cs ds : List ℕ) → SpellsCharacters cs a.now → SpellsCharacters ds b.now → (IsTrue result ↔ (cs ≡ ds)) }
{
    let mut rest = a;
    let mut other_rest = b;
    while let Some((character, more)) = next_character(rest) {
        let Some(other_more) = strip_character(other_rest, character) else {
            return false;
        };
        rest = more;
        other_rest = other_more;
    }
    is_at_end(other_rest)
}
