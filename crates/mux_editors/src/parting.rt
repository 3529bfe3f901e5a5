//! X5 and E9: an editor whose link is gone, that says `exit`, or that asks to shut down, as whole entries.
ghost use Rattle.std.specs.Prelude.{◌≡◌, ◌≢◌, ◌<◌, ℕ, List, [], Option, true, false, bytes_eq, codes, length, OnOk};
ghost use Rattle.event_model.specs.declared.phase.Phase.TheVariants.{Absent, Down};
ghost use Rattle.event_model.specs.Does.{Does, Done};
ghost use Rattle.event_model.specs.Event.{Event, behind, notifies, with_cause};
ghost use Rattle.event_model.specs.Phases.{desk_of, is_served};
ghost use Rattle.event_model.specs.Settings.{Settings};
ghost use Rattle.group_rows.specs.Rows.{answer_error, closing_row, gone_row, shutdown_row, wrong_code};
ghost use Rattle.group_rows.specs.StopRows.{lose_waiting};
ghost use Rattle.group_words.specs.Houses.{home_of, is_first_open, places, stops};
ghost use Rattle.json_text.specs.Json.{Json};
ghost use Rattle.mux_history.specs.declared.cause.Cause.TheVariants.{EditorGone, FromEditor};
ghost use Rattle.mux_history.specs.declared.cause.Why.{Why};
ghost use Rattle.mux_tables.specs.Documents.{AllStand, DocumentsStand, Owed, changes_documents, nothing_owed};
ghost use Rattle.mux_tables.specs.Stands.{AnswersNone, Stands};
ghost use Rattle.rpc_message.specs.Message.{Id, message_of, request};
ghost use Rattle.rpc_message.specs.Parsed.{IsRead};
ghost use Rattle.rpc_message.specs.Texts.{invalid_request};
ghost use Rattle.mux_turns.specs.group_facts.specs.Settled.{Settled};
ghost use Rattle.mux_tables.specs.mux_tokens.specs.Stands.{TakesNone};
ghost use Rattle.mux_tables.specs.mux_waits.specs.Stands.{Unheld};

use crate::quiet::phase_of;
use event_model::Phase;
use message_body::Memory;
use mux_history::Outs;
use mux_tables::Tables;
use mux_turns::{depart, leaving, refuse_held, refuse_wrong};
use rpc_message::{Message, ok_reply};
use std::alloc::Global;

/// X5: an editor's link is gone. One that is served leaves: the last start of its group, where it is ready, is told that its open
/// requests are cancelled, and what comes of its documents. Of another one nothing is said.
pub fn take_gone(tables: &mut Tables, alloc: Global, outs: &mut Outs, e: u64) -> Result<(), Memory>
    requires { e < length tables.old.editors }
    ensures requests { tables.new.requests ≡ tables.old.requests }
    ensures versions { tables.new.versions ≡ tables.old.versions }
    ensures does { (settings : Settings) (before : List Event) (why : Why) → outs.old ≡ []
        → Stands settings tables.old before → DocumentsStand settings nothing_owed tables.old before
        → OnOk result (Done (λ k events. AllStand settings k events) (gone_row settings before e (desk_of e before).phase)
        (with_cause before (EditorGone e why)) [] (tables.new, nothing_owed) outs.new) }
{
    let phase = phase_of(tables, e);
    if phase.is_served() {
        let left = leaving(tables, e)?;
        let owed = tables.hear_gone(alloc, e)?;
        depart(tables, alloc, outs, &left, owed)?;
        Ok(())
    } else {
        tables.hear_gone(alloc, e)?;
        Ok(())
    }
}

// E3 and E9: a message that places its editor nowhere, stops nothing, says of no server that it is meant, answers nothing that a start
// asked and changes no document ends the editor's link; behind it the editor is in this phase. It leaves.
pub fn end_link(
    tables: &mut Tables,
    alloc: Global,
    outs: &mut Outs,
    e: u64,
    phase: Phase,
) -> Result<(), Memory>
    requires editor { e < length tables.old.editors }
    requires joined { phase ≢ Absent }
    ensures requests { tables.new.requests ≡ tables.old.requests }
    ensures versions { tables.new.versions ≡ tables.old.versions }
    ensures does { (settings : Settings) (before : List Event) (body : List ℕ) → AnswersNone settings e (message_of body) before → TakesNone settings e (message_of body) before
        → Unheld settings e body (message_of body) before → places (desk_of e before).phase (message_of body) ≡ false
        → stops before e (message_of body) ≡ false → is_first_open settings.servers before e (message_of body) ≡ false
        → changes_documents before e (message_of body) ≡ false
        → (desk_of e (with_cause before (FromEditor e body))).phase ≡ phase → outs.old ≡ []
        → Stands settings tables.old before → DocumentsStand settings nothing_owed tables.old before
        → OnOk result (Done (λ k events. AllStand settings k events) (closing_row settings before e)
        (with_cause before (FromEditor e body)) [] (tables.new, nothing_owed) outs.new) }
{
    let left = leaving(tables, e)?;
    tables.hear_editor(e, phase);
    let owed = tables.close(alloc, outs, e)?;
    depart(tables, alloc, outs, &left, owed)?;
    Ok(())
}

/// E9: an editor says `exit`: its link is to be ended, and it leaves.
pub fn take_exit(tables: &mut Tables, alloc: Global, outs: &mut Outs, e: u64) -> Result<(), Memory>
    requires { e < length tables.old.editors }
    ensures requests { tables.new.requests ≡ tables.old.requests }
    ensures versions { tables.new.versions ≡ tables.old.versions }
    ensures does { (settings : Settings) (before : List Event) (body : List ℕ) → notifies (codes "exit") (message_of body) ≡ true → outs.old ≡ []
        → Stands settings tables.old before → DocumentsStand settings nothing_owed tables.old before
        → OnOk result (Done (λ k events. AllStand settings k events) (closing_row settings before e)
        (with_cause before (FromEditor e body)) [] (tables.new, nothing_owed) outs.new) }
{
    let phase = phase_of(tables, e);
    end_link(tables, alloc, outs, e, phase)?;
    Ok(())
}

/// E6 and E9: each request of an editor that waits in its group is refused.
pub fn lose_waiting(
    tables: &mut Tables,
    alloc: Global,
    outs: &mut Outs,
    e: u64,
) -> Result<(), Memory>
    ensures requests { tables.new.requests ≡ tables.old.requests }
    ensures versions { tables.new.versions ≡ tables.old.versions }
    ensures lasts { tables.new.lasts ≡ tables.old.lasts }
    ensures editors { tables.new.editors ≡ tables.old.editors }
    ensures does { (settings : Settings) (before base : List Event) → home_of settings e (behind base outs.old) ≡ home_of settings e before
        → OnOk result (Does (λ t events. Stands settings t events) (lose_waiting settings before e) base tables.old outs.old tables.new outs.new) }
    ensures documents { (settings : Settings) (owed : Owed) (base : List Event) → DocumentsStand settings owed tables.old (behind base outs.old)
        → OnOk result (DocumentsStand settings owed tables.new (behind base outs.new)) }
{
    match tables.home(e) {
        None => Ok(()),
        Some(g) => {
            refuse_held(tables, alloc, outs, g, e)?;
            Ok(())
        }
    }
}

/// E9: an editor that is served sends `shutdown`: its requests that wait are refused, it gets its answer, and leaves (LSP 3.17, Shutdown
/// Request).
pub fn take_shutdown(
    tables: &mut Tables,
    alloc: Global,
    outs: &mut Outs,
    e: u64,
    message: &Message,
) -> Result<(), Memory>
    requires { e < length tables.old.editors }
    ensures requests { tables.new.requests ≡ tables.old.requests }
    ensures versions { tables.new.versions ≡ tables.old.versions }
    ensures does { (settings : Settings) (before : List Event) (body method : List ℕ) (id : Id) (params : Option Json) → IsRead message.now body
        → message_of body ≡ request id method params → bytes_eq (codes "shutdown") method ≡ true → is_served (desk_of e before).phase ≡ true
        → outs.old ≡ [] → Stands settings tables.old before → DocumentsStand settings nothing_owed tables.old before
        → OnOk result (Done (λ k events. AllStand settings k events) (shutdown_row settings before e body)
        (with_cause before (FromEditor e body)) [] (tables.new, nothing_owed) outs.new) }
{
    let left = leaving(tables, e)?;
    let owed = tables.hear_shutdown(alloc, e)?;
    lose_waiting(tables, alloc, outs, e)?;
    let id = message.id_bytes();
    let text = ok_reply(alloc, id, b"null")?;
    tables.answer(outs, e, id, text)?;
    depart(tables, alloc, outs, &left, owed)?;
    Ok(())
}

/// E8: a request comes from an editor behind its `shutdown`: it is answered with an error (LSP 3.17, Shutdown Request:
/// InvalidRequest).
pub fn take_down(
    tables: &mut Tables,
    alloc: Global,
    outs: &mut Outs,
    e: u64,
    message: &Message,
) -> Result<(), Memory>
    requires { e < length tables.old.editors }
    ensures requests { tables.new.requests ≡ tables.old.requests }
    ensures versions { tables.new.versions ≡ tables.old.versions }
    ensures does { (settings : Settings) (before : List Event) (body method : List ℕ) (id : Id) (params : Option Json) → IsRead message.now body
        → message_of body ≡ request id method params → (desk_of e before).phase ≡ Down → stops before e (message_of body) ≡ false → outs.old ≡ []
        → Settled settings before → Stands settings tables.old before → DocumentsStand settings nothing_owed tables.old before
        → OnOk result (Done (λ k events. AllStand settings k events) (answer_error e body (wrong_code method invalid_request))
        (with_cause before (FromEditor e body)) [] (tables.new, nothing_owed) outs.new) }
{
    tables.hear_editor(e, Phase::Down);
    refuse_wrong(tables, alloc, outs, e, message)?;
    Ok(())
}
