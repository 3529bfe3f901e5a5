//! Rows of the routing table of what starts say, of their programs, and of ticks, as code over the tables.
#![tactic(auto)]

mod answers;
mod applied;
mod broadcasts;
mod creates;
mod ends;
mod folders;
mod hasty;
mod held;
mod lists;
mod progress;
mod recalled;
mod refreshed;
mod refused;
mod registered;
mod results;
mod single;
mod starts;
mod ticks;

pub use answers::take_answer;
pub use broadcasts::take_broadcast;
pub use creates::{Due, take_create};
pub use ends::{take_ending, take_left, take_stopping};
pub use folders::take_folders;
pub use hasty::{is_first_error, take_hasty};
pub use lists::take_list;
pub use mux_members;
pub use mux_tables;
pub use mux_turns::{Carries, answered_number, stage_at};
pub use progress::{Telling, take_progress};
pub use recalled::take_recall;
pub use refreshed::take_refresh;
pub use refused::{part, take_refused};
pub use registered::{copies, take_register, take_unregister};
pub use results::take_result;
pub use single::{take_focused, take_lowest, take_repeated};
pub use starts::take_started;
pub use ticks::take_tick;
