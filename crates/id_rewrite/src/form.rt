//! What the bytes of an identifier stand for, without memory (JSON-RPC 2.0, section 4).
ghost use Rattle.std.specs.Prelude.{◌≡◌, bytes_eq, encode_utf8, encode_utf8_all};
ghost use Rattle.id_rewrite.specs.Forms.{characters_of, form, inner, same_form};
ghost use Rattle.id_rewrite.specs.Fingerprints.{Adds, fingerprint, front};

use json_token::{next_character, plain_ascii_end};
use response_route::rpc_message::is_quoted;
use sha2::{Digest, Sha512};

// What is between the quotation marks of a string.
fn inner(id: &[u8]) -> &[u8]
    ensures { result.now ≡ inner id.now }
{
    if id.len() >= 2 {
        &id[1..id.len() - 1]
    } else {
        &[]
    }
}

// Whether the bytes between two strings' quotation marks stand for the same characters.
fn same_characters(a: &[u8], b: &[u8]) -> bool
    ensures { result ≡ bytes_eq (characters_of a.now) (characters_of b.now) }
{
    let mut rest = a;
    let mut other = b;
    while let Some((character, more)) = next_character(rest) {
        let Some((wanted, other_more)) = next_character(other) else {
            return false;
        };
        if character != wanted {
            return false;
        }
        rest = more;
        other = other_more;
    }
    next_character(other).is_none()
}

// The same, at once where the bytes are the same.
fn same_inside(a: &[u8], b: &[u8]) -> bool
    ensures { result ≡ bytes_eq (characters_of a.now) (characters_of b.now) }
{
    a == b || same_characters(a, b)
}

/// Whether two identifiers stand for the same, by what their bytes are: strings by the characters that are read of them, and
/// all others byte by byte.
pub fn same_form(a: &[u8], b: &[u8]) -> bool
    ensures { result ≡ same_form a.now b.now }
{
    if is_quoted(a) && is_quoted(b) {
        same_inside(inner(a), inner(b))
    } else {
        a == b
    }
}

// Behind a message, a character in UTF-8.
fn add(hasher: &mut Sha512, character: char)
    ensures { Adds hasher.old hasher.new (encode_utf8 character) }
{
    let mut buffer = [0; 4];
    hasher.update(character.encode_utf8(&mut buffer).as_bytes());
}

// Behind a message, the characters that the bytes between a string's quotation marks stand for. Runs of ASCII are added as they are.
fn add_characters(hasher: &mut Sha512, raw: &[u8])
    ensures { Adds hasher.old hasher.new (encode_utf8_all (characters_of raw.now)) }
{
    let mut rest = raw;
    loop {
        let end = plain_ascii_end(rest, 0);
        hasher.update(&rest[..end]);
        let Some((character, more)) = next_character(&rest[end..]) else {
            return;
        };
        add(hasher, character);
        rest = more;
    }
}

// Behind a message, each byte as the character of this code.
fn add_bytes(hasher: &mut Sha512, bytes: &[u8])
    ensures { Adds hasher.old hasher.new (encode_utf8_all bytes.now) }
{
    let mut rest = bytes;
    loop {
        let end = plain_ascii_end(rest, 0);
        hasher.update(&rest[..end]);
        let Some((byte, more)) = rest[end..].split_first() else {
            return;
        };
        add(hasher, char::from(*byte));
        rest = more;
    }
}

// The number that the first sixteen bytes of a digest write.
fn front(digest: &[u8; 64]) -> u128
    ensures { result ≡ front digest.now }
{
    match digest.first_chunk::<16>() {
        Some(bytes) => u128::from_be_bytes(*bytes),
        None => 0,
    }
}

// Behind a message, what an identifier stands for.
fn add_form(hasher: &mut Sha512, id: &[u8])
    ensures { Adds hasher.old hasher.new (encode_utf8_all (form id.now)) }
{
    if is_quoted(id) {
        add(hasher, '"');
        add_characters(hasher, inner(id));
    } else {
        add_bytes(hasher, id);
    }
}

/// A number of an editor and of what its identifier stands for, by their SHA-512 digest (FIPS 180-4): the same for
/// identifiers that `same_form` takes for the same, and, as far as anyone can find, for no others. Its time is linear in
/// the identifier.
pub fn fingerprint(editor: u64, id: &[u8]) -> u128
    ensures { result ≡ fingerprint editor id.now }
{
    let mut hasher = Sha512::new();
    hasher.update(&editor.to_be_bytes());
    add_form(&mut hasher, id);
    front(&hasher.finalize())
}
