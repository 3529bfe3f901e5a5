// One group of editors.
use crate::key::Key;
use message_body::Body;

/// What is kept of one group.
#[derive(Drop)]
pub struct Kept {
    pub key: Key,
    /// The capabilities that are declared to its server.
    pub declared: Body,
    /// Whether it takes editors.
    pub live: bool,
    /// The moment since which it has no editor.
    pub idle: Option<u64>,
    /// How many of its starts ended while it was live.
    pub exits: u64,
}
