//! The words of every history: events, what a row of the routing table is, the parts of an editor and of a start, and the
//! settings.
#![tactic(auto)]

mod phase;
mod settings;
mod stage;

pub use phase::Phase;
pub use settings::{Limits, Server};
pub use stage::Stage;
