/// The four classes of messages (JSON-RPC 2.0, sections 4 and 5).
#[derive(Clone, Copy, Debug, PartialEq, Eq)]
pub enum Sort {
    Request,
    Notification,
    /// A response with a result.
    Result,
    /// A response with an error.
    Error,
}

/// Why a body was not read as a message.
#[derive(Clone, Copy, Debug, PartialEq, Eq)]
pub enum Malformed {
    /// It is no JSON text (RFC 8259), or nests more than 1,024 deep.
    NotJson,
    /// It is such a text, and no message of the four classes.
    NotMessage,
    /// Out of memory.
    Memory,
}
