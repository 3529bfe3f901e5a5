//! A hub that is made by settings.
#![tactic(auto)]

mod settled;

pub use settled::{Settled, hub_of};
