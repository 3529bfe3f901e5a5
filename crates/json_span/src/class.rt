//! What a byte is between the tokens of RFC 8259, section 2.
ghost use Rattle.std.specs.Prelude.{◌≡◌};
ghost use Rattle.json_token.specs.NumberMoves.{number_begin};
ghost use Rattle.json_span.specs.Classes.{class_of, class_of_number};

use crate::word::Begun;
use json_token::{NumberPart, number_begin};

/// What a byte is where a value, a name, a comma or a bracket may stand.
#[derive(Clone, Copy, Debug)]
pub enum Class {
    Space,
    Quote,
    Colon,
    Comma,
    OpenArray,
    CloseArray,
    OpenObject,
    CloseObject,
    /// The first letter of a literal name.
    Begins(Begun),
    /// The first byte of a number.
    Number(NumberPart),
    Other,
}

#[inline(always)]
fn class_of_number(byte: u8) -> Class
    ensures { result ≡ class_of_number (number_begin byte) }
{
    match number_begin(byte) {
        Some(part) => Class::Number(part),
        None => Class::Other,
    }
}

/// What this byte is.
#[tactic(auto, unfolding(crate::specs::Classes::class_of))]
#[inline(always)]
pub fn class_of(byte: u8) -> Class
    ensures { result ≡ class_of byte }
{
    match byte {
        b' ' | b'\t' | b'\n' | b'\r' => Class::Space,
        b'"' => Class::Quote,
        b':' => Class::Colon,
        b',' => Class::Comma,
        b'[' => Class::OpenArray,
        b']' => Class::CloseArray,
        b'{' => Class::OpenObject,
        b'}' => Class::CloseObject,
        b'n' => Class::Begins(Begun::N),
        b'f' => Class::Begins(Begun::F),
        b't' => Class::Begins(Begun::T),
        _ => class_of_number(byte),
    }
}
