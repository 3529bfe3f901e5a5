//! The command `drive`, which reads cause lines, steps one hub and writes out lines.
#![tactic(auto)]

mod all_lines;
mod buffer;
mod line;
mod program;
mod refusal;
mod reports;
mod step;
mod stop;

pub use all_lines::drive;
pub use mux_hub::{Hub, Limits, Server, StepFault};
pub use program::drive_command;
pub use refusal::Refusal;
pub use reports::report;
pub use stop::Stop;
