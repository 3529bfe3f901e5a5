// One start of a server.
ghost use Rattle.std.specs.Prelude.{◌≡◌, ◌≢◌, ◌↔◌, IsSome};
ghost use Rattle.event_model.specs.declared.stage.Stage.TheVariants.{Ended, Ending, Initializing, Ready, Spawning, Stopping, Unspawned};
ghost use Rattle.restart_replay.specs.Standings.{moved, spawned, stopped};

use event_model::Stage;
use std::marker::Model;

/// Where one start of a server stands (LSP 3.17, Lifecycle Messages), from its spawn on.
#[derive(Debug, Drop)]
pub struct Life {
    start: u64,
    group: u64,
    stage: Stage,
    /// The number and the moment of its `shutdown`, as long as the answer is awaited.
    stopping: Option<(u32, u64)>,
}

impl Model for Life {
    ghost use Rattle.restart_replay.specs.Standings.{IsLife, Standing};

    ghost Value = { Standing };

    ghost view = { λ l. record { start = l.start; group = l.group; stage = l.stage; stopping = l.stopping } };

    ghost invariant = { λ l. IsLife l.stage l.stopping };
}

impl Life {
    /// The start of this number, of the group of this number, as it is spawned.
    pub fn new(start: u64, group: u64) -> Life
        ensures { result ≡ spawned start group }
    {
        Life {
            start,
            group,
            stage: Stage::Spawning,
            stopping: None,
        }
    }

    /// Its number.
    pub fn start(&self) -> u64
        ensures { result ≡ self.now.start }
    {
        self.start
    }

    /// The number of its group.
    pub fn group(&self) -> u64
        ensures { result ≡ self.now.group }
    {
        self.group
    }

    /// Where it stands; `Unspawned` never comes.
    pub fn stage(&self) -> Stage
        ensures stage { result ≡ self.now.stage }
        ensures spawned { result ≢ Unspawned }
    {
        self.stage
    }

    /// Its program runs, and is sent `initialize`.
    pub fn started(&mut self)
        requires { self.old.stage ≡ Spawning }
        ensures { self.new ≡ moved Initializing self.old }
    {
        self.stage = Stage::Initializing;
    }

    /// Its result to `initialize` came.
    pub fn result(&mut self)
        requires { self.old.stage ≡ Initializing }
        ensures { self.new ≡ moved Ready self.old }
    {
        self.stage = Stage::Ready;
    }

    /// It is sent `shutdown` under this number, at this moment, in seconds.
    pub fn stop(&mut self, number: u32, now: u64)
        requires { self.old.stage ≡ Ready }
        ensures { self.new ≡ stopped number now self.old }
    {
        self.stage = Stage::Stopping;
        self.stopping = Some((number, now));
    }

    /// Its program is to be ended.
    pub fn end(&mut self)
        requires { self.old.stage ≢ Ended }
        ensures { self.new ≡ moved Ending self.old }
    {
        self.stage = Stage::Ending;
        self.stopping = None;
    }

    /// Its program ended, or couldn't be run.
    pub fn over(&mut self)
        requires { self.old.stage ≢ Ended }
        ensures { self.new ≡ moved Ended self.old }
    {
        self.stage = Stage::Ended;
        self.stopping = None;
    }

    /// The number and the moment that `stop` was given, as long as the answer is awaited.
    pub fn stopping(&self) -> Option<(u32, u64)>
        ensures given { result ≡ self.now.stopping }
        ensures awaited { IsSome result ↔ (self.now.stage ≡ Stopping) }
    {
        self.stopping
    }
}
