//! The open requests of the editors at one start of a server: each has the start's number in place of its editor's id
//! (JSON-RPC 2.0, section 4).
#![tactic(auto)]

mod form;
mod pending;
mod slots;
mod table;

pub use form::{fingerprint, same_form};
pub use pending::{Numbered, NumbersUsed, Pending};
pub use response_route;
pub use table::IdTable;
