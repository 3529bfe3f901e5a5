//! S3: a start refuses its `initialize`.
ghost use Rattle.std.specs.Prelude.{◌≡◌, ◌<◌, ◌++◌, ◌∷◌, ℕ, List, [], Some, map, true, length, OnOk, slice_get};
ghost use Rattle.event_model.specs.declared.stage.Stage.TheVariants.{Initializing};
ghost use Rattle.event_model.specs.Does.{Does, Done};
ghost use Rattle.event_model.specs.Event.{Event, behind, with_cause};
ghost use Rattle.event_model.specs.Phases.{desk_of};
ghost use Rattle.event_model.specs.Row.{each, look, send};
ghost use Rattle.event_model.specs.Settings.{Settings};
ghost use Rattle.group_rows.specs.Asks.{members_in};
ghost use Rattle.group_rows.specs.Rows.{refusal, refused_row, waiting_in};
ghost use Rattle.group_rows.specs.Waiting.{part};
ghost use Rattle.group_words.specs.Houses.{home_of, is_first_error};
ghost use Rattle.mux_history.specs.declared.cause.Cause.TheVariants.{FromServer};
ghost use Rattle.mux_history.specs.declared.out.Out.TheVariants.{CloseEditor};
ghost use Rattle.mux_starts.specs.Refusing.{Adds, IsUnready};
ghost use Rattle.mux_tables.specs.declared.tables.Start.{Start};
ghost use Rattle.mux_tables.specs.Documents.{AllStand, DocumentsStand, nothing_owed};
ghost use Rattle.mux_tables.specs.Names.{id_in};
ghost use Rattle.mux_tables.specs.Stands.{Stands, number_in};
ghost use Rattle.mux_turns.specs.Welcomes.{AllAsking, IsAsking};
ghost use Rattle.rpc_message.specs.Message.{id_bytes, message_of};
ghost use Rattle.rpc_message.specs.Parsed.{IsRead};

use message_body::Memory;
use mux_history::Outs;
use mux_tables::Tables;
use mux_turns::{answered_number, refuse_held};
use rpc_message::Message;
use std::alloc::Global;

// The link of an editor is to be ended, whose group's last start isn't ready.
fn put_out(tables: &mut Tables, alloc: Global, outs: &mut Outs, e: u64) -> Result<(), Memory>
    requires { e < length tables.old.editors }
    ensures requests { tables.new.requests ≡ tables.old.requests }
    ensures versions { tables.new.versions ≡ tables.old.versions }
    ensures lasts { tables.new.lasts ≡ tables.old.lasts }
    ensures count { OnOk result (length tables.new.editors ≡ length tables.old.editors) }
    ensures ids { OnOk result ((n : ℕ) → id_in (slice_get tables.new.editors n) ≡ id_in (slice_get tables.old.editors n)) }
    ensures outs { OnOk result (outs.new ≡ outs.old ++ CloseEditor e ∷ []) }
    ensures does { (settings : Settings) (base : List Event) (g : ℕ) → IsUnready g tables.old.lasts.items
        → home_of settings e (behind base outs.old) ≡ Some g
        → OnOk result (Does (λ k events. AllStand settings k events)
        (send (CloseEditor e)) base (tables.old, nothing_owed) outs.old (tables.new, nothing_owed) outs.new) }
{
    // Such a start is owed no word of the editor's documents.
    tables.close(alloc, outs, e)?;
    Ok(())
}

/// S3 and X3: each request of an editor that waits in the group of this number is refused, and its link is to be ended; the group's
/// last start isn't ready.
pub fn part(
    tables: &mut Tables,
    alloc: Global,
    outs: &mut Outs,
    g: u64,
    e: u64,
) -> Result<(), Memory>
    requires { e < length tables.old.editors }
    ensures requests { tables.new.requests ≡ tables.old.requests }
    ensures versions { tables.new.versions ≡ tables.old.versions }
    ensures lasts { tables.new.lasts ≡ tables.old.lasts }
    ensures count { OnOk result (length tables.new.editors ≡ length tables.old.editors) }
    ensures adds { OnOk result (Adds outs.old outs.new) }
    ensures does { (settings : Settings) (base : List Event) → IsUnready g tables.old.lasts.items
        → home_of settings e (behind base outs.old) ≡ Some g
        → OnOk result (Does (λ k events. AllStand settings k events)
        (part settings g e) base (tables.old, nothing_owed) outs.old (tables.new, nothing_owed) outs.new) }
{
    refuse_held(tables, alloc, outs, g, e)?;
    put_out(tables, alloc, outs, e)?;
    Ok(())
}

// An editor that waits gets the error under the id of its `initialize`, and then its link is to be ended.
fn refuse_one(
    tables: &mut Tables,
    alloc: Global,
    outs: &mut Outs,
    e: u64,
    message: &Message,
) -> Result<(), Memory>
    requires { e < length tables.old.editors }
    ensures requests { tables.new.requests ≡ tables.old.requests }
    ensures versions { tables.new.versions ≡ tables.old.versions }
    ensures lasts { tables.new.lasts ≡ tables.old.lasts }
    ensures count { OnOk result (length tables.new.editors ≡ length tables.old.editors) }
    ensures ids { OnOk result ((n : ℕ) → id_in (slice_get tables.new.editors n) ≡ id_in (slice_get tables.old.editors n)) }
    ensures adds { OnOk result (Adds outs.old outs.new) }
    ensures does { (settings : Settings) (base : List Event) (body : List ℕ) (g : ℕ) → IsRead message.now body
        → is_first_error (message_of body) ≡ true → IsUnready g tables.old.lasts.items → home_of settings e (behind base outs.old) ≡ Some g
        → IsAsking (behind base outs.old) e → id_in (slice_get tables.old.editors e) ≡ Some (id_bytes (desk_of e (behind base outs.old)).initialize)
        → OnOk result (Does (λ k events. AllStand settings k events)
        (refusal body e) base (tables.old, nothing_owed) outs.old (tables.new, nothing_owed) outs.new) }
{
    match tables.initialize_id(e) {
        None => Ok(()),
        Some(id) => {
            let own = id.copy(alloc)?;
            let text = message.with_id(alloc, own.bytes())?;
            tables.answer(outs, e, own.bytes(), text)?;
            put_out(tables, alloc, outs, e)?;
            Ok(())
        }
    }
}

// So do all editors of a group that wait, rising.
fn refuse_all(
    tables: &mut Tables,
    alloc: Global,
    outs: &mut Outs,
    g: u64,
    message: &Message,
) -> Result<(), Memory>
    ensures requests { tables.new.requests ≡ tables.old.requests }
    ensures versions { tables.new.versions ≡ tables.old.versions }
    ensures lasts { tables.new.lasts ≡ tables.old.lasts }
    ensures does { (settings : Settings) (base : List Event) (body : List ℕ) → IsRead message.now body → is_first_error (message_of body) ≡ true
        → IsUnready g tables.old.lasts.items → AllAsking (behind base outs.old)
        → OnOk result (Does (λ k events. AllStand settings k events) (look (λ events. each (refusal body)
        (waiting_in settings g events))) base (tables.old, nothing_owed) outs.old (tables.new, nothing_owed) outs.new) }
{
    let numbers = tables.waiting(g)?;
    for e in &numbers {
        refuse_one(tables, alloc, outs, *e, message)?;
    }
    Ok(())
}

// Each editor of a group is parted with, rising.
fn part_all(tables: &mut Tables, alloc: Global, outs: &mut Outs, g: u64) -> Result<(), Memory>
    ensures requests { tables.new.requests ≡ tables.old.requests }
    ensures versions { tables.new.versions ≡ tables.old.versions }
    ensures lasts { tables.new.lasts ≡ tables.old.lasts }
    ensures does { (settings : Settings) (base : List Event) → IsUnready g tables.old.lasts.items
        → OnOk result (Does (λ k events. AllStand settings k events) (look (λ events. each (part settings g)
        (members_in settings g events))) base (tables.old, nothing_owed) outs.old (tables.new, nothing_owed) outs.new) }
{
    let numbers = tables.members(g)?;
    for e in &numbers {
        part(tables, alloc, outs, g, *e)?;
    }
    Ok(())
}

/// S3: the group's last start refuses its `initialize`, and the group ends: the editors of it that wait get the error, each under its
/// own id, and their links are to be ended, as those of its other editors are then, and the start's program.
pub fn take_refused(
    tables: &mut Tables,
    alloc: Global,
    outs: &mut Outs,
    g: usize,
    message: &Message,
) -> Result<(), Memory>
    requires group { g < length tables.old.lasts.items }
    requires stage { (x : Start) → slice_get tables.old.lasts.items g ≡ Some x → x.life.stage ≡ Initializing }
    ensures requests { tables.new.requests ≡ tables.old.requests }
    ensures versions { tables.new.versions ≡ tables.old.versions }
    ensures does { (settings : Settings) (before : List Event) (body : List ℕ) (s : ℕ) → IsRead message.now body
        → is_first_error (message_of body) ≡ true → slice_get (map number_in tables.old.lasts.items) g ≡ Some s → outs.old ≡ []
        → AllAsking before → Stands settings tables.old before → DocumentsStand settings nothing_owed tables.old before
        → OnOk result (Done (λ k events. AllStand settings k events) (refused_row settings before s body)
        (with_cause before (FromServer s body)) [] (tables.new, nothing_owed) outs.new) }
{
    let group = tables.group_number(g);
    tables.hear_refusal(g, answered_number(message));
    refuse_all(tables, alloc, outs, group, message)?;
    part_all(tables, alloc, outs, group)?;
    tables.end(outs, g)?;
    Ok(())
}
