//! Causes that change no document, as whole entries: J2, E2, E8, and those that give nothing.
ghost use Rattle.std.specs.Prelude.{◌≡◌, ◌≢◌, ◌<◌, ◌++◌, ◌∷◌, ℕ, List, [], Option, Some, false, true, length, OnOk};
ghost use Rattle.mux_editors.specs.Running.{running_row};
ghost use Rattle.event_model.specs.declared.phase.Phase.TheVariants.{Absent, Closed};
ghost use Rattle.event_model.specs.Does.{Done};
ghost use Rattle.event_model.specs.Event.{Event, heard, with_cause};
ghost use Rattle.event_model.specs.Phases.{desk_of, is_served};
ghost use Rattle.event_model.specs.Row.{nothing, ◌⨾◌};
ghost use Rattle.event_model.specs.Settings.{Settings};
ghost use Rattle.mux_turns.specs.group_facts.specs.Facts.{is_early};
ghost use Rattle.group_rows.specs.Rows.{answer_error, asks_lspmux, early_code, wrong_code};
ghost use Rattle.group_rows.specs.Waiting.{is_misplaced};
ghost use Rattle.group_words.specs.Houses.{places, stops};
ghost use Rattle.json_text.specs.Json.{Json};
ghost use Rattle.mux_history.specs.declared.cause.Cause.TheVariants.{FromEditor};
ghost use Rattle.mux_model.specs.Rows.{malformed_row};
ghost use Rattle.mux_tables.specs.Documents.{AllStand, DocumentsStand, changes_documents, nothing_owed};
ghost use Rattle.mux_tables.specs.Stands.{AnswersNone, Stands};
ghost use Rattle.rpc_message.specs.declared.sort.Sort.TheVariants.{Request};
ghost use Rattle.rpc_message.specs.Message.{Id, message_of, request};
ghost use Rattle.rpc_message.specs.Parsed.{IsRead};
ghost use Rattle.rpc_message.specs.Sorts.{Refuses, sort_of};
ghost use Rattle.rpc_message.specs.Texts.{invalid_request};
ghost use Rattle.mux_turns.specs.group_facts.specs.Facts.{Meant};
ghost use Rattle.mux_turns.specs.group_facts.specs.Settled.{Settled};
ghost use Rattle.mux_tables.specs.mux_tokens.specs.Stands.{TakesNone};

use crate::running::hear_running;
use event_model::Phase;
use message_body::Memory;
use mux_history::Outs;
use mux_members::is_exit;
use mux_tables::Tables;
use mux_turns::{refuse_early, refuse_wrong, reject};
use rpc_message::{Malformed, Message};
use std::alloc::Global;

// Where an editor stands that joined.
pub fn phase_of(tables: &Tables, e: u64) -> Phase
    requires { e < length tables.now.editors }
    ensures joined { result ≢ Absent }
    ensures stands { (settings : Settings) (events : List Event) → Stands settings tables.now events → result ≡ (desk_of e events).phase }
{
    tables.editors.phase(e)
}

/// E2: a body that is no message comes from an editor: it is answered with an error under a null id, if the editor is there
/// (JSON-RPC 2.0, section 5).
pub fn take_malformed(
    tables: &mut Tables,
    alloc: Global,
    outs: &mut Outs,
    e: u64,
    fault: Malformed,
) -> Result<(), Memory>
    requires { e < length tables.old.editors }
    ensures requests { tables.new.requests ≡ tables.old.requests }
    ensures versions { tables.new.versions ≡ tables.old.versions }
    ensures does { (settings : Settings) (before : List Event) (body : List ℕ) → Refuses fault (message_of body) → outs.old ≡ []
        → Stands settings tables.old before → DocumentsStand settings nothing_owed tables.old before
        → OnOk result (Done (λ k events. AllStand settings k events) (malformed_row e (message_of body) (desk_of e before).phase)
        (with_cause before (FromEditor e body)) [] (tables.new, nothing_owed) outs.new) }
{
    if matches!(fault, Malformed::Memory) {
        return Err(Memory);
    }
    let phase = phase_of(tables, e);
    tables.hear_editor(e, phase);
    reject(tables, alloc, outs, e, phase, fault)?;
    Ok(())
}

/// E8: a request that places its editor nowhere, and isn't the multiplexer's own, comes before the answer to `initialize`: it is
/// answered with an error (LSP 3.17, Lifecycle Messages: ServerNotInitialized).
pub fn take_early(
    tables: &mut Tables,
    alloc: Global,
    outs: &mut Outs,
    e: u64,
    message: &Message,
) -> Result<(), Memory>
    requires { e < length tables.old.editors }
    ensures requests { tables.new.requests ≡ tables.old.requests }
    ensures versions { tables.new.versions ≡ tables.old.versions }
    ensures does { (settings : Settings) (before : List Event) (body method : List ℕ) (id : Id) (params : Option Json) → IsRead message.now body
        → message_of body ≡ request id method params → is_early (desk_of e before).phase ≡ true
        → places (desk_of e before).phase (message_of body) ≡ false → stops before e (message_of body) ≡ false
        → asks_lspmux (message_of body) ≡ false → outs.old ≡ []
        → Settled settings before → Stands settings tables.old before → DocumentsStand settings nothing_owed tables.old before
        → OnOk result (Done (λ k events. AllStand settings k events) (answer_error e body (early_code method))
        (with_cause before (FromEditor e body)) [] (tables.new, nothing_owed) outs.new) }
{
    let phase = phase_of(tables, e);
    tables.hear_editor(e, phase);
    refuse_early(tables, alloc, outs, e, message)?;
    Ok(())
}

/// E8: a second `initialize`, or a request under the name of a notification, comes from an editor that is served: it is answered with
/// an error (LSP 3.17, Initialize Request, and $ Notifications and Requests; JSON-RPC 2.0, section 5.1: Invalid Request).
pub fn take_wrong(
    tables: &mut Tables,
    alloc: Global,
    outs: &mut Outs,
    e: u64,
    message: &Message,
) -> Result<(), Memory>
    requires { e < length tables.old.editors }
    ensures requests { tables.new.requests ≡ tables.old.requests }
    ensures versions { tables.new.versions ≡ tables.old.versions }
    ensures does { (settings : Settings) (before : List Event) (body method : List ℕ) (id : Id) (params : Option Json) → IsRead message.now body
        → message_of body ≡ request id method params → is_misplaced method ≡ true → is_served (desk_of e before).phase ≡ true
        → outs.old ≡ [] → Meant before → Settled settings before → Stands settings tables.old before → DocumentsStand settings nothing_owed tables.old before
        → OnOk result (Done (λ k events. AllStand settings k events) (running_row settings before e (message_of body) ⨾ answer_error e body (wrong_code method invalid_request))
        (with_cause before (FromEditor e body)) [] (tables.new, nothing_owed) outs.new) }
{
    hear_running(tables, alloc, outs, e)?;
    refuse_wrong(tables, alloc, outs, e, message)?;
    Ok(())
}

/// J2: a message of an editor whose link is to be ended gives nothing; it answers nothing that a start asked.
pub fn take_closed(tables: &mut Tables, e: u64)
    requires { e < length tables.old.editors }
    ensures requests { tables.new.requests ≡ tables.old.requests }
    ensures versions { tables.new.versions ≡ tables.old.versions }
    ensures does { (settings : Settings) (before : List Event) (body : List ℕ) → (desk_of e before).phase ≡ Closed
        → AnswersNone settings e (message_of body) before → Settled settings before → Stands settings tables.old before → DocumentsStand settings nothing_owed tables.old before
        → Done (λ k events. AllStand settings k events) nothing (with_cause before (FromEditor e body)) [] (tables.new, nothing_owed) [] }
{
    let phase = phase_of(tables, e);
    tables.hear_editor(e, phase);
}

// Where an editor stands behind a message that is no request.
fn phase_behind(phase: Phase, message: &Message) -> Phase
    requires { phase ≢ Absent }
    ensures joined { result ≢ Absent }
    ensures stands { (before : List Event) (e : ℕ) (body : List ℕ) → IsRead message.now body → (sort_of (message_of body) ≡ Some Request → ⊥)
        → (desk_of e before).phase ≡ phase → (desk_of e (before ++ heard (FromEditor e body) ∷ [])).phase ≡ result }
{
    if phase == Phase::Answered && !is_exit(message) {
        Phase::Running
    } else {
        phase
    }
}

/// E15 and E19: a message of an editor that is no request, changes no document and answers nothing that a start asked, gives nothing.
pub fn take_quiet(tables: &mut Tables, e: u64, message: &Message)
    requires { e < length tables.old.editors }
    ensures requests { tables.new.requests ≡ tables.old.requests }
    ensures versions { tables.new.versions ≡ tables.old.versions }
    ensures does { (settings : Settings) (before : List Event) (body : List ℕ) → IsRead message.now body → (sort_of (message_of body) ≡ Some Request → ⊥)
        → changes_documents before e (message_of body) ≡ false → AnswersNone settings e (message_of body) before
        → TakesNone settings e (message_of body) before
        → Stands settings tables.old before → DocumentsStand settings nothing_owed tables.old before
        → Done (λ k events. AllStand settings k events) nothing (with_cause before (FromEditor e body)) [] (tables.new, nothing_owed) [] }
{
    let phase = phase_of(tables, e);
    tables.hear_editor(e, phase_behind(phase, message));
}
