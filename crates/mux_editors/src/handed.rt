//! E19: what an editor answers of what its group's start asked, and whether it takes a token.
ghost use Rattle.std.specs.Prelude.{◌≡◌, ◌<◌, ℕ, List, [], Option, Some, IfSome, find, if◌then◌else◌, length, map, option_map, true, OnOk, slice_get};
ghost use Rattle.mux_editors.specs.Running.{may_begin, running_row};
ghost use Rattle.event_model.specs.Does.{Does, Done};
ghost use Rattle.event_model.specs.Event.{Event, behind, with_cause};
ghost use Rattle.event_model.specs.Phases.{desk_of, is_served};
ghost use Rattle.event_model.specs.Row.{each, nothing, on, ◌⨾◌};
ghost use Rattle.event_model.specs.Settings.{Settings};
ghost use Rattle.event_model.specs.Spawns.{start_of};
ghost use Rattle.event_model.specs.Requests.{answered_id};
ghost use Rattle.group_rows.specs.AskRows.{hand_back, response_row};
ghost use Rattle.group_rows.specs.Asks.{Ask, asking_of, asks_of, is_seated};
ghost use Rattle.group_rows.specs.Created.{Taking, accepts, created_of, is_answered};
ghost use Rattle.group_rows.specs.CreatedRows.{taking_row, tell};
ghost use Rattle.group_words.specs.Houses.{home_of};
ghost use Rattle.mux_editors.specs.Handing.{AllHeld, AreHeld, Fits};
ghost use Rattle.mux_turns.specs.mux_facts.specs.Allowed.{is_response};
ghost use Rattle.mux_history.specs.declared.cause.Cause.TheVariants.{FromEditor};
ghost use Rattle.mux_tables.specs.declared.tables.Start.{Start};
ghost use Rattle.mux_tables.specs.Documents.{AllStand, DocumentsStand, Owed, nothing_owed};
ghost use Rattle.mux_tables.specs.Stands.{AnswersOne, Stands, number_in};
ghost use Rattle.rpc_message.specs.Message.{message_of};
ghost use Rattle.rpc_message.specs.Parsed.{IsRead};
ghost use Rattle.mux_turns.specs.group_facts.specs.Facts.{Meant};
ghost use Rattle.mux_turns.specs.group_facts.specs.Settled.{Settled};

use crate::running::{begin, hear_running, may_begin};
use event_model::Phase;
use message_body::{Body, Memory};
use mux_history::Outs;
use mux_tables::mux_tokens::Handed;
use mux_tables::{Reply, Tables};
use mux_turns::{answered_ask, held_text, stage_at};
use rpc_message::{Message, Sort};
use std::alloc::Global;

// The response goes to the group's last start under the id of what it answers, if it answers something.
fn hand_back(
    tables: &Tables,
    alloc: Global,
    outs: &mut Outs,
    g: usize,
    id: Option<Body>,
    message: &Message,
) -> Result<(), Memory>
    requires { g < length tables.now.lasts.items }
    ensures does { (settings : Settings) (base : List Event) (body : List ℕ) (s : ℕ) (o : Option Ask) → IsRead message.now body
        → is_response (message_of body) ≡ true → id ≡ option_map (λ (a : Ask). a.bytes) o → IfSome o (Fits (asking_of settings s (behind base outs.old)))
        → slice_get (map number_in tables.now.lasts.items) g ≡ Some s
        → OnOk result (Does (λ t events. Stands settings t events) (on o nothing (hand_back s body)) base tables.now outs.old tables.now outs.new) }
    ensures documents { (settings : Settings) (owed : Owed) (base : List Event) (body : List ℕ) (s : ℕ) (o : Option Ask) → IsRead message.now body
        → is_response (message_of body) ≡ true → id ≡ option_map (λ (a : Ask). a.bytes) o → IfSome o (Fits (asking_of settings s (behind base outs.old)))
        → DocumentsStand settings owed tables.now (behind base outs.old) → OnOk result (DocumentsStand settings owed tables.now (behind base outs.new)) }
{
    match id {
        None => Ok(()),
        Some(id) => {
            let text = message.with_id(alloc, id.bytes())?;
            tables.respond(outs, g, text)?;
            Ok(())
        }
    }
}

// What was held of a token for an editor that takes it goes there, in order, with the daemon's own token.
fn hand_out(
    tables: &Tables,
    alloc: Global,
    outs: &mut Outs,
    g: usize,
    e: u64,
    handed: Handed,
) -> Result<(), Memory>
    requires { g < length tables.now.lasts.items }
    ensures does { (settings : Settings) (base : List Event) (s : ℕ) → slice_get (map number_in tables.now.lasts.items) g ≡ Some s
        → AreHeld handed.bodies.items
        → OnOk result (Does (λ t events. Stands settings t events) (each (tell s handed.token e) handed.bodies.items) base tables.now outs.old tables.now outs.new) }
    ensures documents { (settings : Settings) (owed : Owed) (base : List Event) → DocumentsStand settings owed tables.now (behind base outs.old)
        → OnOk result (DocumentsStand settings owed tables.now (behind base outs.new)) }
{
    let s = tables.start_number(g);
    for body in &handed.bodies {
        let text = held_text(alloc, body, s, handed.token)?;
        tables.tell(outs, e, text)?;
    }
    Ok(())
}

// The same, where the response takes a token.
fn hand_out_any(
    tables: &Tables,
    alloc: Global,
    outs: &mut Outs,
    g: usize,
    e: u64,
    handed: Option<Handed>,
) -> Result<(), Memory>
    requires { g < length tables.now.lasts.items }
    ensures does { (settings : Settings) (base : List Event) (s : ℕ) → slice_get (map number_in tables.now.lasts.items) g ≡ Some s
        → IfSome handed (λ h. AreHeld h.bodies.items)
        → OnOk result (Does (λ t events. Stands settings t events) (on handed nothing (λ h. each (tell s h.token e) h.bodies.items)) base tables.now outs.old tables.now outs.new) }
    ensures documents { (settings : Settings) (owed : Owed) (base : List Event) → DocumentsStand settings owed tables.now (behind base outs.old)
        → OnOk result (DocumentsStand settings owed tables.now (behind base outs.new)) }
{
    match handed {
        None => Ok(()),
        Some(handed) => {
            hand_out(tables, alloc, outs, g, e, handed)?;
            Ok(())
        }
    }
}

// What an editor's response answers at the group's last start, which is ready: what that start asked, or whether the editor takes a token.
// An editor that `begins` to run by it takes none.
fn reply(
    tables: &Tables,
    alloc: Global,
    outs: &mut Outs,
    g: usize,
    e: u64,
    begins: bool,
    reply: Reply,
    message: &Message,
) -> Result<(), Memory>
    requires { g < length tables.now.lasts.items }
    ensures does { (settings : Settings) (before base : List Event) (body : List ℕ) (s : ℕ) → IsRead message.now body
        → is_response (message_of body) ≡ true → is_served (desk_of e before).phase ≡ true → begins ≡ may_begin (desk_of e before).phase
        → slice_get (map number_in tables.now.lasts.items) g ≡ Some s
        → reply.ask ≡ option_map (λ (a : Ask). a.bytes) (find (is_seated e (answered_id (message_of body))) (asks_of settings s before))
        → IfSome (find (is_seated e (answered_id (message_of body))) (asks_of settings s before)) (Fits (asking_of settings s (behind base outs.old)))
        → option_map (λ h. (h.token, h.bodies.items)) reply.handed ≡ option_map {U = ℕ × List (List ℕ)} (λ (c : Taking). (c.token, if accepts (message_of body) then c.held else []))
        (find (is_answered e (answered_id (message_of body))) (created_of settings s before).takings)
        → AllHeld (created_of settings s before).takings
        → OnOk result (Does (λ t events. Stands settings t events) (on (find (is_seated e (answered_id (message_of body))) (asks_of settings s before))
        (taking_row settings before e (message_of body) s) (hand_back s body)) base tables.now outs.old tables.now outs.new) }
    ensures documents { (settings : Settings) (owed : Owed) (before base : List Event) (body : List ℕ) (s : ℕ) → IsRead message.now body
        → is_response (message_of body) ≡ true
        → reply.ask ≡ option_map (λ (a : Ask). a.bytes) (find (is_seated e (answered_id (message_of body))) (asks_of settings s before))
        → IfSome (find (is_seated e (answered_id (message_of body))) (asks_of settings s before)) (Fits (asking_of settings s (behind base outs.old)))
        → DocumentsStand settings owed tables.now (behind base outs.old) → OnOk result (DocumentsStand settings owed tables.now (behind base outs.new)) }
{
    let Reply { ask, handed } = reply;
    match ask {
        Some(id) => {
            hand_back(tables, alloc, outs, g, Some(id), message)?;
            Ok(())
        }
        None if begins => Ok(()),
        None => {
            hand_out_any(tables, alloc, outs, g, e, handed)?;
            Ok(())
        }
    }
}

// Whether a message is a result.
fn is_result(message: &Message) -> bool
    ensures { (body : List ℕ) → IsRead message.now body → result ≡ accepts (message_of body) }
{
    matches!(message.sort(), Sort::Result)
}

// E19: a response comes from an editor of the group in this place.
fn reply_at(
    tables: &mut Tables,
    alloc: Global,
    outs: &mut Outs,
    g: usize,
    e: u64,
    message: &Message,
) -> Result<(), Memory>
    requires group { g < length tables.old.lasts.items }
    requires editor { e < length tables.old.editors }
    ensures requests { tables.new.requests ≡ tables.old.requests }
    ensures versions { tables.new.versions ≡ tables.old.versions }
    ensures does { (settings : Settings) (before : List Event) (body : List ℕ) (x : Start) → IsRead message.now body
        → is_response (message_of body) ≡ true → is_served (desk_of e before).phase ≡ true
        → slice_get tables.old.lasts.items g ≡ Some x → home_of settings e before ≡ Some x.life.group
        → AnswersOne settings x.life.start e (message_of body) before → Meant before → outs.old ≡ []
        → Settled settings before → Stands settings tables.old before → DocumentsStand settings nothing_owed tables.old before
        → OnOk result (Done (λ k events. AllStand settings k events)
        (running_row settings before e (message_of body) ⨾ response_row settings before e body (message_of body))
        (with_cause before (FromEditor e body)) [] (tables.new, nothing_owed) outs.new) }
{
    let ready = stage_at(tables, g).is_ready();
    let begins = may_begin(tables, e);
    let accepts = is_result(message);
    let answered = answered_ask(message);
    let found = tables.hear_reply(g, e, Phase::Running, answered, accepts)?;
    begin(tables, alloc, outs, e, begins)?;
    if ready {
        reply(tables, alloc, outs, g, e, begins, found, message)?;
        Ok(())
    } else {
        Ok(())
    }
}

/// E19: a response comes from an editor that is served, in a group that has a start. Where it answers what that start asked, and the start
/// is ready, it goes there under the start's own id, all else as it came. Where by it the editor takes a token of that start, the editor gets
/// what was held of that, in order. Else it gives nothing.
pub fn take_reply(
    tables: &mut Tables,
    alloc: Global,
    outs: &mut Outs,
    e: u64,
    message: &Message,
) -> Result<(), Memory>
    requires { e < length tables.old.editors }
    ensures requests { tables.new.requests ≡ tables.old.requests }
    ensures versions { tables.new.versions ≡ tables.old.versions }
    ensures does { (settings : Settings) (before : List Event) (body : List ℕ) (g s : ℕ) → IsRead message.now body
        → is_response (message_of body) ≡ true → is_served (desk_of e before).phase ≡ true → home_of settings e before ≡ Some g
        → start_of g before ≡ Some s → AnswersOne settings s e (message_of body) before → Meant before → outs.old ≡ []
        → Settled settings before → Stands settings tables.old before → DocumentsStand settings nothing_owed tables.old before
        → OnOk result (Done (λ k events. AllStand settings k events)
        (running_row settings before e (message_of body) ⨾ response_row settings before e body (message_of body))
        (with_cause before (FromEditor e body)) [] (tables.new, nothing_owed) outs.new) }
{
    match tables.place(e) {
        None => {
            hear_running(tables, alloc, outs, e)?;
            Ok(())
        }
        Some(g) => {
            reply_at(tables, alloc, outs, g, e, message)?;
            Ok(())
        }
    }
}
