//! The folder in which a server's program starts: the path that a workspace folder's URI names on this machine.
#![tactic(auto)]

mod path;

pub use path::path_of;
