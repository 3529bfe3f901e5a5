//! The numbers and strings of RFC 8259, a byte at a time; where runs of bytes end; and what a string's bytes decode to.
#![tactic(auto)]

mod character;
mod decoded;
mod number;
mod run;
mod string;

pub use character::next_character;
pub use decoded::{decode, same_characters, spells_text};
pub use number::{NumberMove, NumberPart, number_begin, number_may_end, number_move, takes_digits};
pub use run::{digits_end, plain_ascii_end, plain_end, space_end};
pub use string::{Move, Part, string_move};
