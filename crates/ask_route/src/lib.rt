//! The table of asks, the requests of one start of a server that wait for an editor's answer (LSP 3.17, Base Protocol).
#![tactic(auto)]

mod ask;
mod asks;
mod numbers;
mod rows;

pub use ask::{Ask, Place, Seat};
pub use asks::Asks;
