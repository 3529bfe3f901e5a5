//! Journal files: what a journal of lines says, and what one editor or one start of a server saw of it.
#![tactic(auto)]

mod law;
mod part;
mod reading;
mod side;

pub use law::journal_law;
pub use part::{editor_lines, server_lines};
pub use reading::{Journaled, ShowFault, read_journal};
