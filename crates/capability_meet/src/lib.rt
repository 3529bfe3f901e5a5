//! The order of capabilities and what two of them have in common (LSP 3.17, ClientCapabilities and ServerCapabilities of the
//! Initialize Request).
#![tactic(auto)]

mod compact;
mod fault;
mod indexed_array;
mod kinds;
mod laws;
mod meeting;
mod order;
mod parts;
mod showing;
mod spot;
mod twins;
mod value_text;
mod written;

pub use fault::CapFault;
pub use json_span;
pub use laws::{
    below_members, below_reflexive, below_transitive, declared_says, declared_text_is_greatest,
    meet_is_below, meet_is_greatest, meet_says, meet_text_is_greatest,
};
pub use meeting::{declared, meet};
pub use order::below;
pub use showing::shown;
