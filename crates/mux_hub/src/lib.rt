//! The core of the multiplexer: one call takes a cause and gives its outs.
#![tactic(auto)]

mod hub;
mod starts;

pub use event_model::{Limits, Server};
pub use hub::Hub;
pub use mux_steps::StepFault;
