//! The editors that joined: where each stands, and whose it is.
#![tactic(auto)]

mod editors;
mod session;

pub use editors::Editors;
