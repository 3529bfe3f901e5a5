//! X1 to X3 as code over the tables: the program of a group's last start ends, or couldn't be run.
#![tactic(auto)]

mod exits;
mod losses;
mod partings;
mod told;
mod turned;

pub use exits::take_exit;
pub use losses::Loss;
pub use mux_starts;
pub use partings::Parting;
