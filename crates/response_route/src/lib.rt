//! The versions of documents in what a start of a server answers and asks: where they are read, and the editor's own in their place (V1
//! to V3).
#![tactic(auto)]

mod answers;
mod documents;
mod edits;
mod fault;
mod laws;
mod mapping;
mod requests;
mod versions;

pub use answers::answer;
pub use documents::documents_of;
pub use edits::changes_of;
pub use fault::EditFault;
pub use laws::{answers_law, asks_law, edits_law};
pub use mapping::Mapping;
pub use requests::asked;
pub use rpc_message;
pub use versions::{Stamp, Versions};
