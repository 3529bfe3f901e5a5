// A berth for programs of this machine.
ghost use Rattle.std.specs.Prelude.{◌≡◌, ℕ, ◌+◌, ◌<◌, List, Option, None};
ghost use Rattle.outside_io.specs.Sessions.{Session};
ghost use Rattle.outside_io.specs.Starts.{Start};

use crate::notes::Notes;
use crate::program;
use crate::program::{ProgramInput, ProgramOutput};
use crate::reading::Reading;
use crate::reason::words_on;
use crate::writing::Writing;
use log::{info, warn};
use outside_io::{Berth, Sink, StartFault};
use std::io::ErrorKind;

/// A berth for programs of this machine.
///
/// A program starts in the folder that is named, or in this program's where there is no such folder, with its environment
/// and its standard error; `SHLVL` is 1 where it would be none. A start without words fails. A run that is handed back is
/// ended, if it wasn't.
#[derive(Drop)]
pub struct RealBerth {
    rt: HostRuntime,
    notes: Notes,
    held: u64,
    faults: u64,
    // The system's words on the last start that failed.
    reason: String,
}

impl RealBerth {
    /// A berth in which no start failed yet.
    pub fn new(rt: HostRuntime, notes: Notes) -> RealBerth
        ensures { ⟦<RealBerth as Berth>⟧.faults result ≡ 0 }
    {
        RealBerth {
            rt,
            notes,
            held: 0,
            faults: 0,
            reason: String::new(rt.alloc()),
        }
    }
}

// What a program is called: the first of its words.
fn name_of(words: &[String]) -> &str {
    match words.first() {
        Some(name) => name.as_str(),
        None => "without words",
    }
}

impl Berth for RealBerth {
    type In = Reading<ProgramOutput>;

    type Out = Writing<ProgramInput>;

    ghost runs = { λ _. None };

    ghost left = { λ _. None };

    ghost asked = { λ _. None };

    ghost held = { λ b. b.held };

    ghost faults = { λ b. b.faults };

    fn start(
        &mut self,
        words: &[String],
        folder: Option<&str>,
        inn: &mut Option<Reading<ProgramOutput>>,
        out: &mut Option<Writing<ProgramInput>>,
    ) -> Result<(), StartFault> {
        let Some(held) = self.held.checked_add(1) else {
            return Err(StartFault::Memory);
        };
        match program::start(&self.rt, self.rt.alloc(), words, folder) {
            Ok((output, input)) => {
                info!(self.notes; "the program {} runs as {}", name_of(words), input.id());
                self.held = held;
                *inn = Some(Reading::new(output));
                *out = Some(Writing::new(self.rt, input));
                Ok(())
            }
            Err(error) if error.kind() == ErrorKind::OutOfMemory => Err(StartFault::Memory),
            Err(error) => {
                warn!(self.notes; "the program {} can't be run: {error}", name_of(words));
                self.faults = self.faults.saturating_add(1);
                self.reason = words_on(self.rt.alloc(), &error);
                Err(StartFault::Failed)
            }
        }
    }

    fn finish(
        &mut self,
        inn: &mut Option<Reading<ProgramOutput>>,
        out: &mut Option<Writing<ProgramInput>>,
    ) {
        drop(inn.take());
        if let Some(mut sink) = out.take() {
            sink.close();
            info!(self.notes; "the program {} is gone", sink.inner().id());
        }
        self.held -= 1;
    }

    fn reason(&self) -> &str {
        self.reason.as_str()
    }
}
