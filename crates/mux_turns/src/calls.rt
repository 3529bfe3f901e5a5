//! S6 and S7: an editor that runs is told of registrations (LSP 3.17, Register Capability and Unregister Capability).
ghost use Rattle.std.specs.Prelude.{◌≡◌, ◌<◌, ℕ, List, None, true, length, OnOk};
ghost use Rattle.event_model.specs.Does.{Does};
ghost use Rattle.event_model.specs.Event.{Event, behind};
ghost use Rattle.event_model.specs.Phases.{desk_of, is_running};
ghost use Rattle.event_model.specs.Settings.{Settings};
ghost use Rattle.group_facts.specs.group_rows.specs.Asks.{asking_of};
ghost use Rattle.group_facts.specs.group_rows.specs.Live.{register_text, unregister_text};
ghost use Rattle.group_facts.specs.group_rows.specs.LiveRows.{call, unregister_any};
ghost use Rattle.mux_tables.specs.Documents.{AllStand, Owed};
ghost use Rattle.mux_turns.specs.Calls.{IsCall};

use crate::live_texts::{register_text, unregister_text};
use group_facts::registrations::Registration;
use message_body::Memory;
use mux_history::Outs;
use mux_tables::Tables;
use std::alloc::Global;

/// S6: an editor that runs is told of what is registered, under its next number, while one below 2^64 is left. No request is at work that
/// one editor answers. Where the answer is an error the tables stand for nothing any more.
pub fn call_registered(
    tables: &mut Tables,
    alloc: Global,
    outs: &mut Outs,
    e: u64,
    items: &[Registration],
) -> Result<(), Memory>
    requires { e < length tables.old.editors }
    ensures requests { tables.new.requests ≡ tables.old.requests }
    ensures versions { tables.new.versions ≡ tables.old.versions }
    ensures lasts { tables.new.lasts ≡ tables.old.lasts }
    ensures count { OnOk result (length tables.new.editors ≡ length tables.old.editors) }
    ensures does { (settings : Settings) (owed : Owed) (base : List Event) → IsCall (register_text items.now)
        → is_running (desk_of e (behind base outs.old)).phase ≡ true → ((s : ℕ) → (asking_of settings s (behind base outs.old)).asker ≡ None)
        → OnOk result (Does (λ k events. AllStand settings k events)
        (call (register_text items.now) e) base (tables.old, owed) outs.old (tables.new, owed) outs.new) }
{
    let Some(n) = tables.next_ask(e) else {
        return Ok(());
    };
    let text = register_text(alloc, items, n)?;
    tables.call(outs, e, text)?;
    Ok(())
}

/// S7: the same of what is taken back.
pub fn call_unregistered(
    tables: &mut Tables,
    alloc: Global,
    outs: &mut Outs,
    e: u64,
    items: &[Registration],
) -> Result<(), Memory>
    requires { e < length tables.old.editors }
    ensures requests { tables.new.requests ≡ tables.old.requests }
    ensures versions { tables.new.versions ≡ tables.old.versions }
    ensures lasts { tables.new.lasts ≡ tables.old.lasts }
    ensures count { OnOk result (length tables.new.editors ≡ length tables.old.editors) }
    ensures does { (settings : Settings) (owed : Owed) (base : List Event) → IsCall (unregister_text items.now)
        → is_running (desk_of e (behind base outs.old)).phase ≡ true → ((s : ℕ) → (asking_of settings s (behind base outs.old)).asker ≡ None)
        → OnOk result (Does (λ k events. AllStand settings k events)
        (call (unregister_text items.now) e) base (tables.old, owed) outs.old (tables.new, owed) outs.new) }
{
    let Some(n) = tables.next_ask(e) else {
        return Ok(());
    };
    let text = unregister_text(alloc, items, n)?;
    tables.call(outs, e, text)?;
    Ok(())
}

/// S6: the same of what is taken back, where there is any.
pub fn call_unregistered_any(
    tables: &mut Tables,
    alloc: Global,
    outs: &mut Outs,
    e: u64,
    items: &[Registration],
) -> Result<(), Memory>
    requires { e < length tables.old.editors }
    ensures requests { tables.new.requests ≡ tables.old.requests }
    ensures versions { tables.new.versions ≡ tables.old.versions }
    ensures lasts { tables.new.lasts ≡ tables.old.lasts }
    ensures count { OnOk result (length tables.new.editors ≡ length tables.old.editors) }
    ensures does { (settings : Settings) (owed : Owed) (base : List Event) → IsCall (unregister_text items.now)
        → is_running (desk_of e (behind base outs.old)).phase ≡ true → ((s : ℕ) → (asking_of settings s (behind base outs.old)).asker ≡ None)
        → OnOk result (Does (λ k events. AllStand settings k events)
        (unregister_any items.now e) base (tables.old, owed) outs.old (tables.new, owed) outs.new) }
{
    if items.is_empty() {
        return Ok(());
    }
    call_unregistered(tables, alloc, outs, e, items)?;
    Ok(())
}
