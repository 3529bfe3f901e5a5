//! L1, X1 and Z1: nothing is owed any more to an editor that leaves, nor by a start that ends.
ghost use Rattle.std.specs.Prelude.{◌++◌, ◌∷◌, List, []};
ghost use Rattle.event_model.specs.Event.{Event, behind, said, with_cause};
ghost use Rattle.event_model.specs.Settings.{Settings};
ghost use Rattle.mux_debts.specs.Stands.{DebtsStand};
ghost use Rattle.mux_history.specs.declared.cause.Cause.TheVariants.{EditorGone, ServerGone, StartFailed};
ghost use Rattle.mux_history.specs.declared.cause.Why.{Why};

use mux_history::{Out, Outs};
use refresh_debts::Debts;

/// The link of an editor ended. It takes no memory.
pub fn forget_editor(debts: &mut Debts, e: u64)
    ensures { (settings : Settings) (events : List Event) (why : Why) → DebtsStand settings debts.old events
        → DebtsStand settings debts.new (with_cause events (EditorGone e why)) }
{
    debts.leave(e);
}

/// The program of a start ended, or couldn't be run. It takes no memory.
pub fn forget_start(debts: &mut Debts, s: u64)
    ensures gone { (settings : Settings) (events : List Event) → DebtsStand settings debts.old events
        → DebtsStand settings debts.new (with_cause events (ServerGone s)) }
    ensures failed { (settings : Settings) (events : List Event) → DebtsStand settings debts.old events
        → DebtsStand settings debts.new (with_cause events (StartFailed s)) }
{
    debts.over(s);
}

// One of an entry's outs.
fn forget(debts: &mut Debts, out: &Out)
    ensures { (settings : Settings) (events : List Event) → DebtsStand settings debts.old events
        → DebtsStand settings debts.new (events ++ said out.now ∷ []) }
{
    match out {
        Out::CloseEditor(e) => debts.leave(*e),
        _ => {}
    }
}

/// The outs of an entry were said: nothing is owed any more to editors whose links are to be ended. It takes no memory.
pub fn forget_closed(debts: &mut Debts, outs: &Outs)
    ensures { (settings : Settings) (base : List Event) → DebtsStand settings debts.old base → DebtsStand settings debts.new (behind base outs.now) }
{
    for out in outs.as_slice() {
        forget(debts, out);
    }
}
