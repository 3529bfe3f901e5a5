//! E6: an editor stops all.
ghost use Rattle.std.specs.Prelude.{◌≡◌, ◌<◌, ℕ, List, [], map, Some, true, length, OnOk, slice_get};
ghost use Rattle.std.specs.List.{All, AllByRecursion};
ghost use Rattle.event_model.specs.Does.{Does, Done};
ghost use Rattle.event_model.specs.Event.{Event, behind, with_cause};
ghost use Rattle.event_model.specs.Row.{each};
ghost use Rattle.event_model.specs.Settings.{Settings};
ghost use Rattle.event_model.specs.Spawns.{start_of};
ghost use Rattle.group_rows.specs.StopRows.{close_each, lose_requests, refuse_open, stop_row};
ghost use Rattle.group_words.specs.Houses.{stops};
ghost use Rattle.mux_editors.specs.Halting.{Halts, Refusing, Stays, lose_from};
ghost use Rattle.mux_history.specs.declared.cause.Cause.TheVariants.{FromEditor};
ghost use Rattle.mux_tables.specs.Documents.{AllStand, DocumentsStand, Owed, nothing_owed};
ghost use Rattle.mux_tables.specs.Halts.{ids_at};
ghost use Rattle.mux_tables.specs.Stands.{Stands, number_in};
ghost use Rattle.mux_turns.specs.group_facts.specs.Facts.{AllForwarded, Known};
ghost use Rattle.mux_turns.specs.group_facts.specs.Settled.{Settled};
ghost use Rattle.mux_turns.specs.Initials.{IsNamed, refuse_id};
ghost use Rattle.group_rows.specs.Forwarded.{forwarding_of};
ghost use Rattle.rpc_message.specs.Message.{message_of};
ghost use Rattle.rpc_message.specs.Parsed.{IsRead};

use crate::parting::lose_waiting;
use crate::quiet::phase_of;
use message_body::Memory;
use mux_history::Outs;
use mux_tables::Tables;
use mux_turns::{end_groups, refuse_ids, refuse_initialize};
use rpc_message::{Message, ok_reply};
use std::alloc::Global;

// Those of its requests that the last start of its group, which is in this place, has to answer fail.
fn lose_at(
    tables: &mut Tables,
    alloc: Global,
    outs: &mut Outs,
    g: usize,
    e: u64,
) -> Result<(), Memory>
    requires { g < length tables.old.lasts.items }
    ensures requests { tables.new.requests ≡ tables.old.requests }
    ensures versions { tables.new.versions ≡ tables.old.versions }
    ensures lasts { tables.new.lasts ≡ tables.old.lasts }
    ensures editors { tables.new.editors ≡ tables.old.editors }
    ensures does { (settings : Settings) (base : List Event) (s : ℕ) → slice_get (map number_in tables.old.lasts.items) g ≡ Some s
        → AllByRecursion IsNamed (ids_at e (forwarding_of settings s (behind base outs.old)).open_requests)
        → OnOk result (Does (λ t events. Stands settings t events) (each (refuse_id e) (ids_at e (forwarding_of settings s (behind base outs.old)).open_requests))
        base tables.old outs.old tables.new outs.new) }
    ensures documents { (settings : Settings) (owed : Owed) (base : List Event) → DocumentsStand settings owed tables.old (behind base outs.old)
        → OnOk result (DocumentsStand settings owed tables.new (behind base outs.new)) }
{
    let ids = tables.ids_of(alloc, g, e)?;
    refuse_ids(tables, alloc, outs, e, &ids)?;
    Ok(())
}

// Where its group, which has this number, has such a start.
fn lose_in(
    tables: &mut Tables,
    alloc: Global,
    outs: &mut Outs,
    home: u64,
    e: u64,
) -> Result<(), Memory>
    ensures requests { tables.new.requests ≡ tables.old.requests }
    ensures versions { tables.new.versions ≡ tables.old.versions }
    ensures lasts { tables.new.lasts ≡ tables.old.lasts }
    ensures editors { tables.new.editors ≡ tables.old.editors }
    ensures does { (settings : Settings) (before base : List Event) → Stays settings before (behind base outs.old) → AllForwarded settings before
        → OnOk result (Does (λ t events. Stands settings t events) (lose_from settings before e (start_of home before)) base tables.old outs.old tables.new outs.new) }
    ensures documents { (settings : Settings) (owed : Owed) (base : List Event) → DocumentsStand settings owed tables.old (behind base outs.old)
        → OnOk result (DocumentsStand settings owed tables.new (behind base outs.new)) }
{
    match tables.place_of(home) {
        None => Ok(()),
        Some(g) => {
            lose_at(tables, alloc, outs, g, e)?;
            Ok(())
        }
    }
}

// Where it is in a group.
fn lose_requests(tables: &mut Tables, alloc: Global, outs: &mut Outs, e: u64) -> Result<(), Memory>
    requires { e < length tables.old.editors }
    ensures requests { tables.new.requests ≡ tables.old.requests }
    ensures versions { tables.new.versions ≡ tables.old.versions }
    ensures lasts { tables.new.lasts ≡ tables.old.lasts }
    ensures editors { tables.new.editors ≡ tables.old.editors }
    ensures does { (settings : Settings) (before base : List Event) → Stays settings before (behind base outs.old) → AllForwarded settings before
        → OnOk result (Does (λ t events. Stands settings t events) (lose_requests settings before e) base tables.old outs.old tables.new outs.new) }
    ensures documents { (settings : Settings) (owed : Owed) (base : List Event) → DocumentsStand settings owed tables.old (behind base outs.old)
        → OnOk result (DocumentsStand settings owed tables.new (behind base outs.new)) }
{
    match tables.editors.group(e) {
        None => Ok(()),
        Some(home) => {
            lose_in(tables, alloc, outs, home, e)?;
            Ok(())
        }
    }
}

// What is open at an editor fails, and what waits.
fn refuse_open(tables: &mut Tables, alloc: Global, outs: &mut Outs, e: u64) -> Result<(), Memory>
    requires { e < length tables.old.editors }
    ensures requests { tables.new.requests ≡ tables.old.requests }
    ensures versions { tables.new.versions ≡ tables.old.versions }
    ensures lasts { tables.new.lasts ≡ tables.old.lasts }
    ensures editors { tables.new.editors ≡ tables.old.editors }
    ensures does { (settings : Settings) (before base : List Event) → AllForwarded settings before → Refusing settings before (behind base outs.old)
        → OnOk result (Does (λ t events. Stands settings t events) (refuse_open settings before e) base tables.old outs.old tables.new outs.new) }
    ensures documents { (settings : Settings) (owed : Owed) (base : List Event) → DocumentsStand settings owed tables.old (behind base outs.old)
        → OnOk result (DocumentsStand settings owed tables.new (behind base outs.new)) }
{
    refuse_initialize(tables, alloc, outs, e)?;
    lose_requests(tables, alloc, outs, e)?;
    lose_waiting(tables, alloc, outs, e)?;
    Ok(())
}

// What is open at each of these editors does, editor by editor.
fn refuse_each(
    tables: &mut Tables,
    alloc: Global,
    outs: &mut Outs,
    editors: &[u64],
) -> Result<(), Memory>
    requires { All (λ e. e < length tables.old.editors) editors.now }
    ensures requests { tables.new.requests ≡ tables.old.requests }
    ensures versions { tables.new.versions ≡ tables.old.versions }
    ensures lasts { tables.new.lasts ≡ tables.old.lasts }
    ensures editors { tables.new.editors ≡ tables.old.editors }
    ensures does { (settings : Settings) (before base : List Event) → AllForwarded settings before → Refusing settings before (behind base outs.old)
        → OnOk result (Does (λ t events. Stands settings t events) (each (refuse_open settings before) editors.now) base
        tables.old outs.old tables.new outs.new) }
    ensures documents { (settings : Settings) (owed : Owed) (base : List Event) → DocumentsStand settings owed tables.old (behind base outs.old)
        → OnOk result (DocumentsStand settings owed tables.new (behind base outs.new)) }
{
    for e in editors {
        refuse_open(tables, alloc, outs, *e)?;
    }
    Ok(())
}

// The links of these editors are to be ended. None leaves: what their starts are owed for their documents isn't sent.
fn close_each(
    tables: &mut Tables,
    alloc: Global,
    outs: &mut Outs,
    editors: &[u64],
) -> Result<(), Memory>
    requires { All (λ e. e < length tables.old.editors) editors.now }
    ensures requests { tables.new.requests ≡ tables.old.requests }
    ensures versions { tables.new.versions ≡ tables.old.versions }
    ensures lasts { tables.new.lasts ≡ tables.old.lasts }
    ensures does { (settings : Settings) (base : List Event)
        → OnOk result (Does (λ t events. Halts settings t events) (close_each editors.now) base tables.old outs.old tables.new outs.new) }
{
    for e in editors {
        tables.close(alloc, outs, *e)?;
    }
    Ok(())
}

/// E6: `lspmux/stop` comes from an editor that is there, under an id that isn't open. It is answered; what else is open at the editors
/// that are there fails, editor by editor; their links are to be ended; and the groups that live end.
pub fn take_stop(
    tables: &mut Tables,
    alloc: Global,
    outs: &mut Outs,
    e: u64,
    message: &Message,
) -> Result<(), Memory>
    requires { e < length tables.old.editors }
    ensures requests { tables.new.requests ≡ tables.old.requests }
    ensures versions { tables.new.versions ≡ tables.old.versions }
    ensures does { (settings : Settings) (before : List Event) (body : List ℕ) → IsRead message.now body → stops before e (message_of body) ≡ true
        → outs.old ≡ [] → Known settings before → Settled settings before
        → Stands settings tables.old before → DocumentsStand settings nothing_owed tables.old before
        → OnOk result (Done (λ k events. AllStand settings k events) (stop_row settings before e body)
        (with_cause before (FromEditor e body)) [] (tables.new, nothing_owed) outs.new) }
{
    let there = tables.there()?;
    let phase = phase_of(tables, e);
    let live = tables.hear_stop(e, phase)?;
    let id = message.id_bytes();
    let text = ok_reply(alloc, id, b"null")?;
    tables.answer(outs, e, id, text)?;
    refuse_each(tables, alloc, outs, &there)?;
    close_each(tables, alloc, outs, &there)?;
    end_groups(tables, alloc, outs, &live)?;
    Ok(())
}
