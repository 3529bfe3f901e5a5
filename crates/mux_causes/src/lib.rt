//! Which causes can come, and what is on its way to each editor.
#![tactic(auto)]

mod backlogs;
mod coming;

pub use backlogs::Backlogs;
pub use coming::fits;
pub use mux_turns::{Carries, mux_tables};
