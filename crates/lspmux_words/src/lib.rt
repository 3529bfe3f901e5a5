//! The words behind the program's name, read into a command.
#![tactic(auto)]

mod command;
mod fault;
mod level;
mod number;
mod program;
mod read;
mod usage;

pub use command::Command;
pub use fault::WordsFault;
pub use level::Level;
pub use read::command_of;
pub use usage::USAGE;
