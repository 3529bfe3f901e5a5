//! Records by rising numbers, of which some are kept: what a table keeps where most numbers that were given aren't needed any more.
#![tactic(auto)]

mod numbered;
mod search;

pub use numbered::Numbered;
pub use search::{forget, place_of};
