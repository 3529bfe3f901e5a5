//! How much a daemon logs.
ghost use Rattle.std.specs.Prelude.{◌≡◌};
ghost use Rattle.lspmux_words.specs.Meaning.{level_in};

/// How much a daemon logs, from the least to the most.
#[derive(Clone, Copy, Debug, PartialEq, Eq)]
pub enum Level {
    Error,
    Warn,
    Info,
    Debug,
    Trace,
}

/// The level of this name.
pub(crate) fn level_of(name: &str) -> Option<Level>
    ensures { result ≡ level_in name.now }
{
    match name {
        "error" => Some(Level::Error),
        "warn" => Some(Level::Warn),
        "info" => Some(Level::Info),
        "debug" => Some(Level::Debug),
        "trace" => Some(Level::Trace),
        _ => None,
    }
}
