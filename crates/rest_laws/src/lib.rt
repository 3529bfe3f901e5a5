//! That an editor on whose texts a start agrees is left at rest: laws of every legal history.
#![tactic(auto)]

mod laws;

pub use laws::{kept_agreement, one_encoding, rest, silence, told_ready};
