//! The settings of a command, from the file that it names, and the line that says why they are refused.
#![tactic(auto)]

mod fault;
mod file;
mod line;

pub use fault::SettingsFault;
pub use file::settings;
pub use line::{refuse, write_line};
