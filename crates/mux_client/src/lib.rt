//! An editor's end of a link to the daemon, and questions to the daemon. Each dials the settings' place.
#![tactic(auto)]

mod buffer;
mod copies;
mod dialling;
mod editor;
mod exchange;
mod fault;
mod handshake;
mod pieces;
mod question;
mod reply;

pub use editor::client;
pub use fault::ClientFault;
pub use handshake::open_server;
pub use question::{Question, ask};
