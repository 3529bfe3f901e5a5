//! The command `make`, which drives a made input and writes what its history counts, or writes the lines of that input.
#![tactic(auto)]

mod causes;
mod counts;
mod lines;
mod program;
mod shown;

pub use counts::Counts;
pub use program::{make_command, make_lines_command};
