//! The stages of a start of a server.
#![tactic(auto)]

mod life;

pub use life::Life;
