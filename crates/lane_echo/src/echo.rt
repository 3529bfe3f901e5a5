// A core that gives each editor and each start its bodies back, ends all of them when it is asked to stop, and spawns starts.
ghost use Rattle.std.specs.Prelude.{◌≡◌, ◌+◌, [], ◌∷◌, ◌++◌, ℕ, IfOk, IfSome, IfNone, false, true, nat_lt, ◌||◌};
ghost use Rattle.mux_history.specs.Cores.{joins, spawns_of_outs};
ghost use Rattle.lane_echo.specs.Stops.{is_stop, most, spawns_by, starts_of};

use message_body::{Body, Memory};
use mux_history::{Cause, Out, Outs};
use mux_steps::{StepFault, Steps};
use std::alloc::Global;

/// The core. An empty body of an editor asks it to stop: it goes back, and behind it that editor is closed and each start is ended.
/// A body of one byte has it spawn a start. Each other body goes back to the editor or the start that sent it.
#[derive(Drop)]
pub struct Echo {
    alloc: Global,
    joined: u64,
    spawned: u64,
    stopped: bool,
    spent: bool,
}

impl Echo {
    /// A core without a history.
    pub fn new(alloc: Global) -> Echo
        ensures stands { ⟦<Echo as Steps>⟧.stands result [] }
        ensures faults { ⟦<Echo as Steps>⟧.faults result ≡ 0 }
        ensures ready { ⟦<Echo as Steps>⟧.spent result ≡ false }
    {
        Echo {
            alloc,
            joined: 0,
            spawned: 0,
            stopped: false,
            spent: false,
        }
    }

    /// How many editors joined.
    pub fn joined(&self) -> u64
        ensures { result ≡ self.now.joined }
    {
        self.joined
    }
}

// The ends of so many starts.
#[tactic(auto, using(crate::proofs::Histories::spawns_one))]
fn ends(alloc: Global, count: u64) -> Result<Outs, Memory>
    ensures { (s : ℕ) → IfOk result (λ outs. spawns_of_outs s outs ≡ 0) }
{
    let mut outs = Outs::new(alloc);
    for start in 0..count {
        outs.push(Out::EndServer(start))?;
    }
    Ok(outs)
}

// One out more.
fn with(outs: Outs, out: Out) -> Result<Outs, Memory>
    ensures { IfOk result (λ all. all ≡ outs ++ out ∷ []) }
{
    let mut outs = outs;
    outs.push(out)?;
    Ok(outs)
}

// What it says to a body of an editor, where so many starts were spawned.
#[tactic(auto, using(crate::proofs::Histories::spawns_two, crate::proofs::Histories::spawns_one))]
fn answer_body(alloc: Global, spawned: u64, editor: u64, body: Body) -> Result<Outs, Memory>
    ensures { (s : ℕ) → IfOk result (λ outs. spawns_of_outs s outs ≡ spawns_by spawned (Cause.FromEditor editor body) s) }
{
    match body.bytes().len() {
        0 => {
            let outs = with(ends(alloc, spawned)?, Out::ToEditor(editor, body))?;
            with(outs, Out::CloseEditor(editor))
        }
        1 => with(Outs::new(alloc), Out::Spawn(spawned, 0)),
        _ => with(Outs::new(alloc), Out::ToEditor(editor, body)),
    }
}

// What it says to a cause.
fn answer(alloc: Global, spawned: u64, cause: Cause) -> Result<Outs, Memory>
    ensures { (s : ℕ) → IfOk result (λ outs. spawns_of_outs s outs ≡ spawns_by spawned cause s) }
{
    match cause {
        Cause::FromEditor(editor, body) => answer_body(alloc, spawned, editor, body),
        Cause::FromServer(start, body) => with(Outs::new(alloc), Out::ToServer(start, body)),
        _ => Ok(Outs::new(alloc)),
    }
}

// Whether it was asked to stop behind this cause.
fn stopped_behind(stopped: bool, cause: &Cause) -> bool
    ensures { result ≡ (stopped || is_stop cause.now) }
{
    match cause {
        Cause::FromEditor(_, body) => stopped || body.bytes().is_empty(),
        _ => stopped,
    }
}

// How many starts were spawned behind this cause.
fn spawned_behind(spawned: u64, cause: &Cause) -> Option<u64>
    ensures some { IfSome result (λ n. (n ≡ spawned + starts_of cause.now) × (nat_lt most (spawned + starts_of cause.now) ≡ false)) }
    ensures none { IfNone result (nat_lt most (spawned + starts_of cause.now) ≡ true) }
{
    match cause {
        Cause::FromEditor(_, body) if body.bytes().len() == 1 => spawned.checked_add(1),
        _ => Some(spawned),
    }
}

// How many editors joined behind this cause.
fn joined_behind(joined: u64, cause: &Cause) -> Option<u64>
    ensures some { IfSome result (λ n. (n ≡ joined + joins cause.now) × (nat_lt most (joined + joins cause.now) ≡ false)) }
    ensures none { IfNone result (nat_lt most (joined + joins cause.now) ≡ true) }
{
    match cause {
        Cause::Joined(_) => joined.checked_add(1),
        _ => Some(joined),
    }
}

impl Steps for Echo {
    ghost use Rattle.std.specs.Prelude.{◌≡◌, ℕ, true, false};
    ghost use Rattle.mux_history.specs.Cores.{joined};
    ghost use Rattle.lane_echo.specs.Stops.{Spawned, has_stop, is_stop, passes_behind};

    ghost stands = { λ e history. (e.joined ≡ joined history) × (e.stopped ≡ has_stop history) × Spawned e.spawned history };

    ghost faults = { λ e. 0 };

    ghost spent = { λ e. e.spent };

    ghost allows = { λ history cause. true };

    ghost passes = { λ e history cause. passes_behind e.joined e.spawned cause };

    ghost asks_stop = { λ history cause. is_stop cause };

    ghost stops = { has_stop };

    fn fits(&self, cause: &Cause) -> bool {
        let _ = cause;
        true
    }

    fn next_editor(&self) -> u64 {
        self.joined
    }

    fn stopped(&self) -> bool {
        self.stopped
    }

    fn server_of(&self, start: u64) -> Option<u32> {
        if start < self.spawned { Some(0) } else { None }
    }

    fn folder_of(&self, start: u64) -> Result<Option<String>, Memory> {
        Ok(Some(format!(in self.alloc; "/work/{start}")?))
    }

    #[tactic(auto, using(crate::proofs::Histories::joined_more, crate::proofs::Histories::spawned_more, crate::proofs::Histories::once_only, crate::proofs::Histories::stop_more, crate::proofs::Histories::stop_asked, crate::proofs::Histories::stop_stays))]
    fn step(&mut self, cause: Cause) -> Result<Outs, StepFault> {
        if self.spent {
            return Err(StepFault::Spent);
        }
        self.spent = true;
        let stopped = stopped_behind(self.stopped, &cause);
        let Some(joined) = joined_behind(self.joined, &cause) else {
            return Err(StepFault::Numbers);
        };
        let Some(spawned) = spawned_behind(self.spawned, &cause) else {
            return Err(StepFault::Numbers);
        };
        let Ok(outs) = answer(self.alloc, self.spawned, cause) else {
            return Err(StepFault::Memory);
        };
        self.joined = joined;
        self.spawned = spawned;
        self.stopped = stopped;
        self.spent = false;
        Ok(outs)
    }
}
