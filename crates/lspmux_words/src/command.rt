//! What the words ask of the program.
use crate::level::Level;

/// What the words behind the program's name ask for. A text is one of the words, or the part of one behind its `=`; it isn't
/// empty.
#[derive(Clone, Copy, Debug, PartialEq, Eq)]
pub enum Command<'a> {
    /// Steps one hub over the lines of the standard input.
    Drive {
        config: Option<&'a str>,
    },
    /// Serves editors.
    Serve {
        config: Option<&'a str>,
        log: Level,
    },
    /// Is an editor's link over the standard input and output.
    Client {
        config: Option<&'a str>,
        server: Option<&'a str>,
    },
    /// Asks the daemon for its groups.
    Status {
        config: Option<&'a str>,
    },
    /// Stops the daemon.
    Stop {
        config: Option<&'a str>,
    },
    /// Drives a made input of `count` turns, 1 to 1,000,000.
    Make {
        count: u32,
        seed: u64,
    },
    /// Writes a made input of `count` turns, 1 to 1,000,000.
    MakeLines {
        count: u32,
        seed: u64,
    },
}
