//! The program, over all that it meets outside of itself: its words, its settings, and the command that they ask for.
#![tactic(auto)]

mod client;
mod notes;
mod outside;
mod program;

pub use lspmux_words::Level;
pub use outside::{Left, Outside};
pub use program::{log_level, lspmux};
