// From a cause to its row.
ghost use Rattle.std.specs.Prelude.{◌≡◌, ◌≤◌, true, List, [], IfOk, OnOk};
ghost use Rattle.event_model.specs.Does.{Done};
ghost use Rattle.event_model.specs.Event.{Event, behind, with_cause};
ghost use Rattle.event_model.specs.Settings.{Settings};
ghost use Rattle.mux_starts.specs.group_facts.specs.Facts.{Known};
ghost use Rattle.mux_starts.specs.group_facts.specs.Settled.{Settled};
ghost use Rattle.group_rows.specs.Rows.{outs_of, row_of};
ghost use Rattle.mux_starts.specs.group_facts.specs.Ceilings.{HaveCeilings};
ghost use Rattle.mux_history.specs.Cores.{body_length};
ghost use Rattle.mux_debts.specs.Stands.{DebtsStand};
ghost use Rattle.mux_model.specs.Fits.{fits_behind};
ghost use Rattle.mux_starts.specs.mux_tables.specs.Documents.{AllStand, DocumentsStand, nothing_owed};
ghost use Rattle.mux_starts.specs.mux_tables.specs.Stands.{Stands};
ghost use Rattle.mux_turns.specs.Carried.{CarriedStand};

use crate::editors::{from_editor, gone, joined};
use crate::servers::from_server;
use event_model::{Limits, Server};
use message_body::Memory;
use mux_debts::{Debts, forget_editor, forget_start};
use mux_exits::take_exit;
use mux_history::{Cause, Outs};
use mux_starts::mux_tables::Tables;
use mux_starts::{take_started, take_tick};
use mux_turns::Carries;
use std::alloc::Global;

// The row of a cause, from the first of its outs.
fn follow(
    tables: &mut Tables,
    carries: &mut Carries,
    debts: &mut Debts,
    alloc: Global,
    limits: &Limits,
    servers: &[Server],
    default: u32,
    outs: &mut Outs,
    cause: &Cause,
) -> Result<(), Memory>
    requires small { body_length cause.now ≤ 268435456 }
    requires limit { 2 ≤ tables.old.requests }
    requires versions { 1 ≤ tables.old.versions }
    requires ceilings { HaveCeilings servers.now }
    ensures same_limit { tables.new.requests ≡ tables.old.requests }
    ensures same_versions { tables.new.versions ≡ tables.old.versions }
    ensures does { (settings : Settings) (before : List Event) → settings.limits ≡ limits.now → settings.servers ≡ servers.now → settings.default ≡ default
        → outs.old ≡ [] → Known settings before → Settled settings before → fits_behind before cause.now ≡ true → CarriedStand settings carries.old before → DebtsStand settings debts.old before
        → Stands settings tables.old before → DocumentsStand settings nothing_owed tables.old before
        → OnOk result (Done (λ k events. AllStand settings k events)
        (row_of settings before cause.now) (with_cause before cause.now) [] (tables.new, nothing_owed) outs.new) }
    ensures carried { (settings : Settings) (before : List Event) → settings.limits ≡ limits.now → settings.servers ≡ servers.now → settings.default ≡ default
        → outs.old ≡ [] → Known settings before → Settled settings before → fits_behind before cause.now ≡ true → CarriedStand settings carries.old before
        → Stands settings tables.old before → DocumentsStand settings nothing_owed tables.old before
        → OnOk result (CarriedStand settings carries.new (behind (with_cause before cause.now) outs.new)) }
    ensures owed { (settings : Settings) (before : List Event) → Known settings before → Settled settings before → fits_behind before cause.now ≡ true
        → DebtsStand settings debts.old before → Stands settings tables.old before → DocumentsStand settings nothing_owed tables.old before
        → OnOk result (DebtsStand settings debts.new (with_cause before cause.now)) }
{
    match cause {
        Cause::Joined(e) => {
            joined(tables, alloc, outs, *e)?;
            Ok(())
        }
        Cause::EditorGone(e, _) => {
            forget_editor(debts, *e);
            gone(tables, alloc, outs, *e)?;
            Ok(())
        }
        Cause::FromEditor(e, body) => {
            from_editor(
                tables, carries, debts, alloc, servers, default, outs, *e, body,
            )?;
            Ok(())
        }
        Cause::Started(s) => {
            take_started(tables, alloc, outs, *s)?;
            Ok(())
        }
        Cause::FromServer(s, body) => {
            from_server(tables, carries, debts, alloc, outs, *s, body)?;
            Ok(())
        }
        Cause::StartFailed(s) | Cause::ServerGone(s) => {
            forget_start(debts, *s);
            take_exit(tables, alloc, limits.restarts as u64, outs, *s)?;
            Ok(())
        }
        // X6: bytes were written to the editor, which gives nothing.
        Cause::Drained(_, _) => Ok(()),
        Cause::Tick(now) => {
            take_tick(tables, alloc, outs, *now, limits.grace)?;
            Ok(())
        }
    }
}

/// Takes a cause that can come: its outs are those of its row. What groups carry stands behind them, and what starts owe
/// behind the cause.
/// Where the answer is an error the tables stand for nothing any more.
pub fn take(
    tables: &mut Tables,
    carries: &mut Carries,
    debts: &mut Debts,
    alloc: Global,
    limits: &Limits,
    servers: &[Server],
    default: u32,
    cause: &Cause,
) -> Result<Outs, Memory>
    requires small { body_length cause.now ≤ 268435456 }
    requires limit { 2 ≤ tables.old.requests }
    requires versions { 1 ≤ tables.old.versions }
    requires ceilings { HaveCeilings servers.now }
    ensures same_limit { tables.new.requests ≡ tables.old.requests }
    ensures same_versions { tables.new.versions ≡ tables.old.versions }
    ensures takes { (settings : Settings) (before : List Event) → settings.limits ≡ limits.now → settings.servers ≡ servers.now → settings.default ≡ default
        → Known settings before → Settled settings before → fits_behind before cause.now ≡ true → CarriedStand settings carries.old before → DebtsStand settings debts.old before
        → Stands settings tables.old before → DocumentsStand settings nothing_owed tables.old before
        → IfOk result (λ outs. (outs ≡ outs_of settings before cause.now)
        × AllStand settings (tables.new, nothing_owed) (behind (with_cause before cause.now) outs)) }
    ensures carried { (settings : Settings) (before : List Event) → settings.limits ≡ limits.now → settings.servers ≡ servers.now → settings.default ≡ default
        → Known settings before → Settled settings before → fits_behind before cause.now ≡ true → CarriedStand settings carries.old before
        → Stands settings tables.old before → DocumentsStand settings nothing_owed tables.old before
        → IfOk result (λ outs. CarriedStand settings carries.new (behind (with_cause before cause.now) outs)) }
    ensures owed { (settings : Settings) (before : List Event) → Known settings before → Settled settings before → fits_behind before cause.now ≡ true
        → DebtsStand settings debts.old before → Stands settings tables.old before → DocumentsStand settings nothing_owed tables.old before
        → OnOk result (DebtsStand settings debts.new (with_cause before cause.now)) }
{
    let mut outs = Outs::new(alloc);
    follow(
        tables, carries, debts, alloc, limits, servers, default, &mut outs, cause,
    )?;
    Ok(outs)
}
