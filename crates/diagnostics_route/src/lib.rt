//! The last lists of diagnostics of one start of a server (LSP 3.17, Publish Diagnostics), and how they are shown to editors.
#![tactic(auto)]

mod fitting;
mod last_list;
mod lists;
mod reading;
mod showing;
mod without;

pub use document_model::Agreement;
pub use fitting::fits;
pub use last_list::{LastList, Version};
pub use lists::Lists;
pub use reading::published;
pub use showing::shown;
