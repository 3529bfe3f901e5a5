// A core of the multiplexer, as the threads and the lines of `drive` use one.
ghost use Rattle.std.specs.Prelude.{◌≡◌, ◌≢◌, ℕ, ◌≤◌, ◌↔◌, List, [], ◌∷◌, ◌++◌, Bool, true, false, IsTrue, IsNone, IfOk, OnOk, OnErr, IsErrOf, IsOkUnless};
ghost use Rattle.outside_io.specs.Faults.{Rose};
ghost use Rattle.mux_history.specs.declared.entry.Entry.{Entry};
ghost use Rattle.mux_history.specs.declared.cause.Cause.{Cause};
ghost use Rattle.mux_history.specs.Cores.{joined, spawns, body_length};
ghost use Rattle.mux_steps.specs.Faults.{Counted};

use crate::fault::StepFault;
use message_body::Memory;
use mux_history::{Cause, Outs};

/// A core of the multiplexer: it stands for a history, and each step that answers Ok adds one entry to that history,
/// with the step's cause and the answered outs.
///
/// What its rows are is the core's own matter. Its user knows just what stands here.
pub trait Steps {
    /// It stands for this history. Where its journal tells its entries, these are the history.
    ghost stands: { Self → List Entry → Type 0 };

    /// How many appends of its journal failed.
    ghost faults: { Self → ℕ };

    /// Whether a step had a fault.
    ghost spent: { Self → Bool };

    /// Which causes can come behind a history.
    ghost allows: { List Entry → Cause → Bool };

    /// Which causes, with their outs behind a history, would be more than it can number.
    ghost passes: { Self → List Entry → Cause → Bool };

    /// Which causes ask it to stop.
    ghost asks_stop: { List Entry → Cause → Bool };

    /// Whether a history has a request to stop that was answered.
    ghost stops: { List Entry → Bool };

    /// Whether this cause can come behind the history.
    fn fits(&self, cause: &Cause) -> bool
        ensures { (history : List Entry) → stands self.now history → spent self.now ≡ false → result ≡ allows history cause.now };

    /// The number of the editor that joins next.
    fn next_editor(&self) -> u64
        ensures { (history : List Entry) → stands self.now history → spent self.now ≡ false → result ≡ joined history };

    /// Whether a request to stop was answered.
    fn stopped(&self) -> bool
        ensures { (history : List Entry) → stands self.now history → spent self.now ≡ false → result ≡ stops history };

    /// The place of the server whose command a start runs; None just of a start that wasn't spawned.
    fn server_of(&self, start: u64) -> Option<u32>
        ensures { (history : List Entry) → stands self.now history → spent self.now ≡ false → IsNone result ↔ (spawns start history ≡ 0) };

    /// The folder in which a start's program is to run; None where it is the daemon's own.
    fn folder_of(&self, start: u64) -> Result<Option<String>, Memory>;

    /// Takes a cause that can come, whose body has at most 268,435,456 bytes, and gives its outs. The entry was appended to
    /// the journal. No start is spawned twice, and once a request to stop was answered this stays so.
    fn step(&mut self, cause: Cause) -> Result<Outs, StepFault>
        requires small { body_length cause ≤ 268435456 }
        requires allowed { (history : List Entry) → stands self.old history → spent self.old ≡ false → IsTrue (allows history cause) }
        ensures ok { (history : List Entry) → stands self.old history
            → IfOk result (λ outs. stands self.new (history ++ record { cause = cause; outs = outs } ∷ [])) }
        ensures err { (history : List Entry) → stands self.old history → OnErr result (stands self.new history) }
        ensures once { (history : List Entry) (s : ℕ) → stands self.old history
            → IfOk result (λ outs. spawns s (history ++ record { cause = cause; outs = outs } ∷ []) ≤ 1) }
        ensures stops { (history : List Entry) → stands self.old history → asks_stop history cause ≡ true
            → IfOk result (λ outs. stops (history ++ record { cause = cause; outs = outs } ∷ []) ≡ true) }
        ensures stays { (history : List Entry) → stands self.old history → stops history ≡ true
            → IfOk result (λ outs. stops (history ++ record { cause = cause; outs = outs } ∷ []) ≡ true) }
        ensures ready { OnOk result (spent self.new ≡ false) }
        ensures over { OnErr result (spent self.new ≡ true) }
        ensures spent_only { IsErrOf result StepFault.Spent ↔ (spent self.old ≡ true) }
        ensures numbers { (history : List Entry) → stands self.old history → spent self.old ≡ false
            → Counted (passes self.old history cause) result }
        ensures journal_only { IsErrOf result StepFault.Journal → Rose (faults self.old) (faults self.new) }
        ensures later { faults self.old ≤ faults self.new }
        ensures complete { (history : List Entry) → stands self.old history → spent self.old ≡ false
            → passes self.old history cause ≡ false → ¬ Rose (faults self.old) (faults self.new) → IsOkUnless result StepFault.Memory };
}
