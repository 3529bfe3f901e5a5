// Why a line is refused.
ghost use Rattle.std.specs.Prelude.{◌≡◌, Ok, Err, false, IsTrue, IfSome, IfNone, Some, List};
ghost use Rattle.mux_history.specs.declared.entry.Entry.{Entry};
ghost use Rattle.mux_hub.specs.Hubs.{HubStands};
ghost use Rattle.mux_model.specs.Fits.{fits};
ghost use Rattle.drive_program.specs.Runs.{judged};

use mux_history::Cause;
use mux_hub::Hub;
use mux_steps::Journal;

/// Why a line is refused.
#[derive(Clone, Copy, Debug, PartialEq, Eq)]
pub enum Refusal {
    /// It is in no form, or too long.
    Form,
    /// Its cause doesn't fit.
    Absent,
}

/// Why a cause is refused, if it is.
pub fn refusal_of<J: Journal>(cause: &Cause, hub: &Hub<J>) -> Option<Refusal>
    requires ready { hub.now.spent ≡ false }
    ensures refused { (history : List Entry) → HubStands J.told hub.now history → IfSome result (λ r. judged history (Some cause.now) ≡ Err r) }
    ensures taken { (history : List Entry) → HubStands J.told hub.now history → IfNone result (judged history (Some cause.now) ≡ Ok cause.now) }
    ensures fits { (history : List Entry) → HubStands J.told hub.now history → IfNone result (IsTrue (fits history cause.now)) }
{
    if hub.fits(cause) {
        None
    } else {
        Some(Refusal::Absent)
    }
}
