use message_body::Body;

/// What the multiplexer allows.
#[derive(Clone, Copy, Debug)]
pub struct Limits {
    /// Live groups, 1 to 16.
    pub groups: u32,
    /// Restarts of a group's server, 0 to 1,000.
    pub restarts: u32,
    /// Seconds that a group without editors lives, 0 to 86,400.
    pub idle: u64,
    /// Seconds from `shutdown` until a program is ended, 0 to 3,600.
    pub grace: u64,
    /// Unsent bytes of one editor, 1,024 to 1,073,741,824.
    pub backlog: u64,
    /// Numbers of the requests to one start, 3 to 2,147,483,647; the last is kept for `shutdown`.
    pub requests: u32,
    /// Versions of one document at a start, 2 to 2,147,483,647.
    pub versions: u32,
}

/// A configured server: its name, and the capabilities beyond which no editor's are passed on.
#[derive(Debug, Drop)]
pub struct Server {
    pub name: Body,
    pub ceiling: Option<Body>,
}
