//! The tables of editors, groups and starts, and what each event does to them.
#![tactic(auto)]

mod answers;
mod asks;
mod created;
mod documents;
mod halts;
mod hears;
mod holds;
mod last_lists;
mod looks;
mod losses;
mod notes;
mod places;
mod puts;
mod registers;
mod replies;
mod requests;
mod resumes;
mod says;
mod seats;
mod serves;
mod shows;
mod statuses;
mod stops;
mod tables;
mod tokens;

pub use ask_route;
pub use diagnostics_route;
pub use id_rewrite;
pub use mux_tokens;
pub use mux_waits;
pub use replies::Reply;
pub use tables::{Course, Origins, Start, Tables};
pub use tokens::Told;
