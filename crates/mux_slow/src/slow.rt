//! Z1: editors that are slow leave.
ghost use Rattle.std.specs.Prelude.{◌≡◌, ◌<◌, ◌++◌, ℕ, List, true, length, nat_lt, OnOk};
ghost use Rattle.event_model.specs.Does.{Does};
ghost use Rattle.event_model.specs.Event.{Event, behind};
ghost use Rattle.event_model.specs.Phases.{backlog_of};
ghost use Rattle.event_model.specs.Row as rows;
ghost use Rattle.event_model.specs.Row.{each};
ghost use Rattle.event_model.specs.Settings.{Settings};
ghost use Rattle.group_facts.specs.SlowRows.{close_slow, is_slow, slow_row};
ghost use Rattle.group_rows.specs.Rows.{closing_row};
ghost use Rattle.mux_causes.specs.Backlogs.{BacklogsStand};
ghost use Rattle.mux_slow.specs.Told.{AllTold};
ghost use Rattle.mux_tables.specs.Documents.{AllStand, DocumentsStand, nothing_owed};
ghost use Rattle.mux_tables.specs.Stands.{Stands};

use crate::told::told_in;
use message_body::Memory;
use mux_causes::Backlogs;
use mux_history::Outs;
use mux_tables::Tables;
use mux_turns::{depart, leaving};
use std::alloc::Global;

// More bytes are on their way to an editor than it may have waiting.
fn is_over(backlogs: &Backlogs, limit: u64, e: u64) -> bool
    ensures { (settings : Settings) (events : List Event) → settings.limits.backlog ≡ limit → BacklogsStand backlogs.now events
        → result ≡ nat_lt settings.limits.backlog (backlog_of e events) }
{
    match backlogs.count(e) {
        Some(bytes) => bytes > limit,
        None => false,
    }
}

// An editor that is there is slow.
fn is_slow(tables: &Tables, backlogs: &Backlogs, limit: u64, e: u64) -> bool
    ensures inside { result ≡ true → e < length tables.now.editors }
    ensures slow { (settings : Settings) (events : List Event) → settings.limits.backlog ≡ limit → Stands settings tables.now events
        → BacklogsStand backlogs.now events → result ≡ is_slow settings e events }
{
    e < tables.editors.count() && tables.phase(e).is_there() && is_over(backlogs, limit, e)
}

// Its link is to be ended, and it leaves.
fn end_link(tables: &mut Tables, alloc: Global, outs: &mut Outs, e: u64) -> Result<(), Memory>
    requires { e < length tables.old.editors }
    ensures requests { tables.new.requests ≡ tables.old.requests }
    ensures versions { tables.new.versions ≡ tables.old.versions }
    ensures does { (settings : Settings) (base : List Event)
        → OnOk result (Does (λ k events. AllStand settings k events) (closing_row settings (behind base outs.old) e) base
        (tables.old, nothing_owed) outs.old (tables.new, nothing_owed) outs.new) }
{
    let left = leaving(tables, e)?;
    let owed = tables.close(alloc, outs, e)?;
    depart(tables, alloc, outs, &left, owed)?;
    Ok(())
}

// So does an editor that is slow.
fn close_slow(
    tables: &mut Tables,
    alloc: Global,
    backlogs: &Backlogs,
    limit: u64,
    outs: &mut Outs,
    e: u64,
) -> Result<(), Memory>
    ensures requests { tables.new.requests ≡ tables.old.requests }
    ensures versions { tables.new.versions ≡ tables.old.versions }
    ensures does { (settings : Settings) (base : List Event) → settings.limits.backlog ≡ limit → BacklogsStand backlogs.now (behind base outs.old)
        → OnOk result (Does (λ k events. AllStand settings k events) (close_slow settings e) base
        (tables.old, nothing_owed) outs.old (tables.new, nothing_owed) outs.new) }
{
    if is_slow(tables, backlogs, limit, e) {
        end_link(tables, alloc, outs, e)?;
    }
    Ok(())
}

// Of these editors, one after the other.
fn close_each(
    tables: &mut Tables,
    alloc: Global,
    backlogs: &Backlogs,
    limit: u64,
    outs: &mut Outs,
    editors: &[u64],
) -> Result<(), Memory>
    ensures requests { tables.new.requests ≡ tables.old.requests }
    ensures versions { tables.new.versions ≡ tables.old.versions }
    ensures does { (settings : Settings) (base : List Event) → settings.limits.backlog ≡ limit → BacklogsStand backlogs.now (behind base outs.old)
        → AllStand settings (tables.old, nothing_owed) (behind base outs.old)
        → OnOk result (Does (λ k events. AllStand settings k events) (each (close_slow settings) editors.now) base
        (tables.old, nothing_owed) outs.old (tables.new, nothing_owed) outs.new) }
{
    for e in editors {
        close_slow(tables, alloc, backlogs, limit, outs, *e)?;
    }
    Ok(())
}

/// Z1: behind the outs of an entry's row each editor that is there and has more bytes on their way than `limit` leaves, rising, and its
/// link is to be ended: its outs come behind those. The counts have the row's outs in them. Only editors that the row told something
/// are looked at, so no other one may be slow (`AllTold`).
pub fn leave_slow(
    tables: &mut Tables,
    alloc: Global,
    backlogs: &Backlogs,
    limit: u64,
    outs: &mut Outs,
) -> Result<(), Memory>
    ensures requests { tables.new.requests ≡ tables.old.requests }
    ensures versions { tables.new.versions ≡ tables.old.versions }
    ensures slow { (settings : Settings) (base : List Event) → settings.limits.backlog ≡ limit → AllTold settings base outs.old
        → Stands settings tables.old (behind base outs.old) → DocumentsStand settings nothing_owed tables.old (behind base outs.old)
        → BacklogsStand backlogs.now (behind base outs.old)
        → OnOk result ((outs.new ≡ outs.old ++ rows.outs (slow_row settings) (behind base outs.old))
        × (AllStand settings (tables.new, nothing_owed) (behind base outs.new) × BacklogsStand backlogs.now (behind base outs.new))) }
{
    let told = told_in(alloc, outs)?;
    close_each(tables, alloc, backlogs, limit, outs, &told)?;
    Ok(())
}
