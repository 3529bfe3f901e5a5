ghost use Rattle.std.specs.Prelude.{◌≡◌};
ghost use Rattle.event_model.specs.Stages.{is_ended, is_ready, may_begin};

/// Where one start of a server stands (LSP 3.17, Lifecycle Messages).
#[derive(Clone, Copy, Debug, PartialEq, Eq)]
pub enum Stage {
    /// It was never spawned.
    Unspawned,
    /// From its spawn on.
    Spawning,
    /// From the moment that its program runs.
    Initializing,
    /// From its result to `initialize` on.
    Ready,
    /// From the request `shutdown` on.
    Stopping,
    /// Its program is to be ended.
    Ending,
    /// Its program ended, or couldn't be run.
    Ended,
}

impl Stage {
    /// Whether its server answered `initialize`, and it wasn't asked to shut down or to end.
    pub fn is_ready(self) -> bool
        ensures { result ≡ is_ready self }
    {
        matches!(self, Stage::Ready)
    }

    /// Whether it is to begin or to end: its program may yet run, if it didn't before.
    pub fn may_begin(self) -> bool
        ensures { result ≡ may_begin self }
    {
        matches!(self, Stage::Spawning | Stage::Ending)
    }

    /// Whether its program ended, or couldn't be run.
    pub fn is_ended(self) -> bool
        ensures { result ≡ is_ended self }
    {
        matches!(self, Stage::Ended)
    }
}
