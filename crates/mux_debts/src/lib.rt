//! What starts owe to editors (S9), beside the tables: what comes to be owed, what is asked behind an editor's message, and what ends.
#![tactic(auto)]

mod leaves;
mod notes;
mod pays;

pub use leaves::{forget_closed, forget_editor, forget_start};
pub use notes::note_refresh;
pub use pays::{pay, take_debts};
pub use refresh_debts::Debts;
