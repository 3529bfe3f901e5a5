//! What messages say of documents, what an editor has of them, and what a start of a server was told.
#![tactic(auto)]

mod agreement;

pub use agreement::Agreement;
pub use doc_text;
pub use rpc_message;
pub use rpc_message::json_span;
