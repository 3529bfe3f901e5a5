//! A core of the multiplexer, which takes a cause and says its outs, and the journal that keeps its entries.
#![tactic(auto)]

mod drop_journal;
mod fault;
mod journal;
mod memory_journal;
mod steps;

pub use drop_journal::DropJournal;
pub use fault::StepFault;
pub use journal::{Journal, JournalFault};
pub use memory_journal::MemJournal;
pub use steps::Steps;
