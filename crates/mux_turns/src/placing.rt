//! E7: an editor's `initialize`, by the group in which it is placed (LSP 3.17, Initialize Request).
ghost use Rattle.std.specs.Prelude.{◌≡◌, ◌<◌, ◌≤◌, ℕ, List, [], Option, Some, length, slice_get, OnOk, false, true};
ghost use Rattle.event_model.specs.Does.{Alike, Does};
ghost use Rattle.event_model.specs.Event.{Event, behind, with_cause};
ghost use Rattle.event_model.specs.Phases.{desk_of, is_served};
ghost use Rattle.event_model.specs.Row.{nothing};
ghost use Rattle.event_model.specs.Settings.{Settings};
ghost use Rattle.event_model.specs.Spawns.{start_of};
ghost use Rattle.event_model.specs.Stages.{is_ready, life_of};
ghost use Rattle.group_words.specs.declared.placed.Placed.TheVariants.{Joins, New, TooMany};
ghost use Rattle.group_words.specs.Houses.{places};
ghost use Rattle.group_words.specs.Rows.{placed_row, result_of};
ghost use Rattle.json_text.specs.Json.{Json};
ghost use Rattle.mux_history.specs.declared.cause.Cause.TheVariants.{FromEditor};
ghost use Rattle.mux_tables.specs.Documents.{AllStand, DocumentsStand, Owed, nothing_owed};
ghost use Rattle.mux_tables.specs.declared.tables.Start.{Start};
ghost use Rattle.mux_tables.specs.Stands.{Stands};
ghost use Rattle.mux_turns.specs.Founding.{IsNext};
ghost use Rattle.mux_turns.specs.Welcomes.{IsShown};
ghost use Rattle.rpc_message.specs.Message.{Id, message_of, request};
ghost use Rattle.rpc_message.specs.Parsed.{IsRead};

use crate::refusals::refuse;
use message_body::Memory;
use mux_history::Outs;
use mux_tables::Tables;
use rpc_message::{ErrorCode, Message, ok_reply};
use std::alloc::Global;

/// E7: whether an editor that joins this group waits, as it stands before its `initialize`: the group has no start that is ready, and
/// nothing is sent.
pub fn waits(tables: &Tables, g: u64) -> bool
    ensures waits { result ≡ true → (settings : Settings) (before : List Event) (e : ℕ) (body : List ℕ) → Stands settings tables.now before
        → Alike (placed_row e body before (Joins g)) nothing }
    ensures ready { result ≡ false → (settings : Settings) (before : List Event) → Stands settings tables.now before → (s : ℕ)
        × (start_of g before ≡ Some s) × (is_ready (life_of s before).stage ≡ true) }
{
    match tables.place_of(g) {
        None => true,
        Some(g) => !tables.stage(g).is_ready(),
    }
}

/// E7: the editor joins a group whose last start is ready: its `initialize` is answered at once, with what editors are shown of the
/// result that the start gave; the text of that is one of a value.
pub fn welcome(
    tables: &mut Tables,
    alloc: Global,
    outs: &mut Outs,
    e: u64,
    message: &Message,
    g: usize,
) -> Result<(), Memory>
    requires editor { e < length tables.old.editors }
    requires group { g < length tables.old.lasts.items }
    ensures requests { tables.new.requests ≡ tables.old.requests }
    ensures versions { tables.new.versions ≡ tables.old.versions }
    ensures does { (settings : Settings) (before : List Event) (body method : List ℕ) (id : Id) (params : Option Json) (h s : ℕ)
        → IsRead message.now body → message_of body ≡ request id method params → places (desk_of e before).phase (message_of body) ≡ true
        → ((x : Start) → slice_get tables.old.lasts.items g ≡ Some x → x.life.group ≡ h) → start_of h before ≡ Some s → is_ready (life_of s before).stage ≡ true
        → ((given : List ℕ) → result_of s before ≡ Some given → IsShown given) → outs.old ≡ []
        → OnOk result (Does (λ k events. AllStand settings k events) (placed_row e body before (Joins h)) (with_cause before (FromEditor e body))
        (tables.old, nothing_owed) outs.old (tables.new, nothing_owed) outs.new) }
{
    match tables.shown(g) {
        None => Ok(()),
        Some(shown) => {
            let id = message.id_bytes();
            let text = ok_reply(alloc, id, shown.bytes())?;
            tables.welcome(outs, e, id, text)?;
            Ok(())
        }
    }
}

/// E7: a start is spawned for the new group, which has the next number.
pub fn found(tables: &mut Tables, alloc: Global, outs: &mut Outs, g: u64) -> Result<(), Memory>
    requires limit { 2 ≤ tables.old.requests }
    requires versions { 1 ≤ tables.old.versions }
    ensures requests { tables.new.requests ≡ tables.old.requests }
    ensures versions { tables.new.versions ≡ tables.old.versions }
    ensures does { (settings : Settings) (before base : List Event) (e : ℕ) (body : List ℕ) → IsNext g (behind base outs.old)
        → OnOk result (Does (λ t events. Stands settings t events) (placed_row e body before (New g)) base tables.old outs.old tables.new outs.new) }
    ensures documents { (settings : Settings) (owed : Owed) (base : List Event) → IsNext g (behind base outs.old)
        → Stands settings tables.old (behind base outs.old) → DocumentsStand settings owed tables.old (behind base outs.old)
        → OnOk result (DocumentsStand settings owed tables.new (behind base outs.new)) }
{
    tables.found(alloc, outs, g)?;
    Ok(())
}

/// E7: there are too many groups with editors: the `initialize` is answered with an error (LSP 3.17, RequestFailed), and the editor's
/// link is to be ended.
pub fn turn_away(
    tables: &mut Tables,
    alloc: Global,
    outs: &mut Outs,
    e: u64,
    message: &Message,
) -> Result<(), Memory>
    requires { e < length tables.old.editors }
    ensures requests { tables.new.requests ≡ tables.old.requests }
    ensures versions { tables.new.versions ≡ tables.old.versions }
    ensures does { (settings : Settings) (before base : List Event) (body method : List ℕ) (id : Id) (params : Option Json) → IsRead message.now body
        → message_of body ≡ request id method params → is_served (desk_of e (behind base outs.old)).phase ≡ false
        → OnOk result (Does (λ k events. AllStand settings k events)
        (placed_row e body before TooMany) base (tables.old, nothing_owed) outs.old (tables.new, nothing_owed) outs.new) }
{
    refuse(tables, alloc, outs, e, message, ErrorCode::RequestFailed)?;
    // It isn't served, so no start is owed a word of its documents.
    tables.close(alloc, outs, e)?;
    Ok(())
}
