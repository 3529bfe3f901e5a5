//! Notes of what the core does that a user must act on: a journal that looks at each entry under the core's lock, and a clock that
//! notes at its next moment, under no lock, what the journal saw.
#![tactic(auto)]

mod clock;
mod journal;
mod news;

pub use clock::NotingClock;
pub use journal::NotingJournal;
pub use news::News;
