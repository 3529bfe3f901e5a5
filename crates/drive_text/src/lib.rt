//! The lines of `drive` and of journal files: one for each cause and each out of the multiplexer, and made inputs.
#![tactic(auto)]

mod journal;
mod law;
mod line;
mod made;
mod marks;
mod read;
mod read_out;
mod word;
mod write;

pub use journal::LineJournal;
pub use law::{causes_law, outs_law};
pub use line::{LineFault, cause_of_line, read_line};
pub use made::{make, make_causes};
pub use read::cause_of;
pub use read_out::out_of;
pub use write::{write_cause, write_cause_line, write_entry, write_out, write_outs};
