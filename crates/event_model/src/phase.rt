ghost use Rattle.std.specs.Prelude.{◌≡◌};
ghost use Rattle.event_model.specs.Phases.{is_begun, is_linked, is_running, is_served, is_there, is_waiting, needs_server};

/// Where an editor stands (LSP 3.17, Lifecycle Messages, as the multiplexer sees it).
#[derive(Clone, Copy, Debug, PartialEq, Eq)]
pub enum Phase {
    /// It never joined.
    Absent,
    /// From its link on.
    New,
    /// From its `initialize` until the answer.
    Waiting,
    /// From the result on.
    Answered,
    /// From its first later message on.
    Running,
    /// From its `shutdown` on.
    Down,
    /// Its link is to be ended.
    Closed,
    /// Its link ended.
    Gone,
}

impl Phase {
    /// Whether the editor joined, and its link neither ended nor is to be ended.
    pub fn is_there(self) -> bool
        ensures { result ≡ is_there self }
    {
        !matches!(self, Phase::Absent | Phase::Closed | Phase::Gone)
    }

    /// Whether the editor joined, and its link didn't end.
    pub fn is_linked(self) -> bool
        ensures { result ≡ is_linked self }
    {
        !matches!(self, Phase::Absent | Phase::Gone)
    }

    /// Whether its `initialize` came and wasn't answered yet.
    pub fn is_waiting(self) -> bool
        ensures { result ≡ is_waiting self }
    {
        matches!(self, Phase::Waiting)
    }

    /// Whether its `initialize` was answered, its `shutdown` didn't come, and its link neither ended nor is to be ended.
    pub fn is_served(self) -> bool
        ensures { result ≡ is_served self }
    {
        matches!(self, Phase::Answered | Phase::Running)
    }

    /// Whether it sent a message behind the answer to its `initialize`, its `shutdown` didn't come, and its link neither ended
    /// nor is to be ended.
    pub fn is_running(self) -> bool
        ensures { result ≡ is_running self }
    {
        matches!(self, Phase::Running)
    }

    /// Whether its `initialize` came, and its link neither ended nor is to be ended: it is an editor of its group.
    pub fn is_begun(self) -> bool
        ensures { result ≡ is_begun self }
    {
        matches!(
            self,
            Phase::Waiting | Phase::Answered | Phase::Running | Phase::Down
        )
    }

    /// Whether its `initialize` came, its `shutdown` didn't, and its link neither ended nor is to be ended: for it a server that
    /// exits is started again.
    pub fn needs_server(self) -> bool
        ensures { result ≡ needs_server self }
    {
        matches!(self, Phase::Waiting | Phase::Answered | Phase::Running)
    }
}
