//! A small core for tests, which gives each editor and each start its bodies back, and one editor's session over a deck of it.
#![tactic(auto)]

mod echo;
mod session;

pub use echo::Echo;
pub use session::{Begin, Ran, run};
