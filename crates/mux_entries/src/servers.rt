//! What the program of a start says: S1 to S15, and what goes to each editor.
ghost use Rattle.std.specs.Prelude.{◌≡◌, ◌<◌, ◌≤◌, ℕ, List, [], map, Option, Some, false, true, length, OnOk, slice_get};
ghost use Rattle.event_model.specs.declared.stage.Stage.TheVariants.{Initializing, Ready};
ghost use Rattle.event_model.specs.Does.{Alike, Done};
ghost use Rattle.event_model.specs.Event.{Event, behind, heard, with_cause};
ghost use Rattle.event_model.specs.Phases.{is_malformed};
ghost use Rattle.event_model.specs.Requests.{answered_id};
ghost use Rattle.event_model.specs.Row.{nothing};
ghost use Rattle.event_model.specs.Settings.{Settings};
ghost use Rattle.event_model.specs.Stages.{is_first_result, life_of, runs};
ghost use Rattle.mux_starts.specs.group_facts.specs.Facts.{Known};
ghost use Rattle.mux_starts.specs.group_facts.specs.Settled.{Settled};
ghost use Rattle.group_rows.specs.AskRows.{asking_row, notified_row, question_row};
ghost use Rattle.group_rows.specs.Asks.{asking_of, is_taken};
ghost use Rattle.group_rows.specs.Rows.{row_of};
ghost use Rattle.group_words.specs.Houses.{is_first_error};
ghost use Rattle.json_text.specs.Json.{Json};
ghost use Rattle.lsp_method.specs.Class.{class_of};
ghost use Rattle.lsp_method.specs.declared.variants.Origin.TheVariants.{Server};
ghost use Rattle.mux_debts.specs.Stands.{DebtsStand};
ghost use Rattle.mux_history.specs.declared.cause.Cause.TheVariants.{FromServer};
ghost use Rattle.mux_model.specs.Fits.{fits_behind};
ghost use Rattle.mux_starts.specs.mux_tables.specs.declared.tables.Start.{Start};
ghost use Rattle.mux_starts.specs.mux_tables.specs.Documents.{AllStand, DocumentsStand, nothing_owed};
ghost use Rattle.mux_starts.specs.mux_tables.specs.Stands.{ListsStay, NamesAt, Stands, is_request, number_in};
ghost use Rattle.mux_turns.specs.Carried.{CarriedStand};
ghost use Rattle.rpc_message.specs.Message.{Id, message_of, notification, request};
ghost use Rattle.rpc_message.specs.Parsed.{IsRead};
ghost use Rattle.rpc_message.specs.Sorts.{Refuses};
ghost use Rattle.mux_starts.specs.mux_tables.specs.mux_tokens.specs.Stands.{CreatedStay};

use event_model::Stage;
use lsp_method::Class;
use message_body::{Body, Memory};
use mux_debts::{Debts, note_refresh};
use mux_history::Outs;
use mux_starts::mux_members::{asked_class, is_first_result, told_class};
use mux_starts::mux_tables::Tables;
use mux_starts::{
    answered_number, is_first_error, stage_at, take_answer, take_broadcast, take_create,
    take_ending, take_focused, take_folders, take_hasty, take_list, take_lowest, take_progress,
    take_recall, take_refresh, take_refused, take_register, take_repeated, take_result,
    take_stopping, take_unregister,
};
use mux_turns::Carries;
use rpc_message::{Malformed, Message, Sort};
use std::alloc::Global;

// S1 and S4: what gives nothing; `n` is the number that a response answers.
fn hear_quietly(tables: &mut Tables, g: usize, n: Option<u32>)
    requires { g < length tables.old.lasts.items }
    ensures same_limit { tables.new.requests ≡ tables.old.requests }
    ensures same_versions { tables.new.versions ≡ tables.old.versions }
    ensures does { (settings : Settings) (before : List Event) (body : List ℕ) (s : ℕ) → is_request (message_of body) ≡ false
        → CreatedStay settings s before (heard (FromServer s body)) → ListsStay s before (heard (FromServer s body))
        → is_first_result (message_of body) ≡ false
        → is_first_error (message_of body) ≡ false → NamesAt (answered_id (message_of body)) n
        → Alike (row_of settings before (FromServer s body)) nothing
        → slice_get (map number_in tables.old.lasts.items) g ≡ Some s → runs (life_of s before) ≡ true → Stands settings tables.old before
        → DocumentsStand settings nothing_owed tables.old before
        → Done (λ k events. AllStand settings k events) (row_of settings before (FromServer s body))
        (with_cause before (FromServer s body)) [] (tables.new, nothing_owed) [] }
{
    tables.hear_answer(g, n);
}

// S1: a body that is no message gives nothing.
fn ignore(tables: &mut Tables, g: usize, fault: Malformed) -> Result<(), Memory>
    requires { g < length tables.old.lasts.items }
    ensures same_limit { tables.new.requests ≡ tables.old.requests }
    ensures same_versions { tables.new.versions ≡ tables.old.versions }
    ensures malformed { (body : List ℕ) → Refuses fault (message_of body) → OnOk result (is_malformed (message_of body) ≡ true) }
    ensures does { (settings : Settings) (before : List Event) (body : List ℕ) (s : ℕ) → Refuses fault (message_of body)
        → slice_get (map number_in tables.old.lasts.items) g ≡ Some s → runs (life_of s before) ≡ true → Stands settings tables.old before
        → DocumentsStand settings nothing_owed tables.old before
        → OnOk result (Done (λ k events. AllStand settings k events) (row_of settings before (FromServer s body))
        (with_cause before (FromServer s body)) [] (tables.new, nothing_owed) []) }
{
    if matches!(fault, Malformed::Memory) {
        return Err(Memory);
    }
    hear_quietly(tables, g, None);
    Ok(())
}

// S4: another message than the first response comes from a start that gave no result of its `initialize` yet. A request is answered
// at once, all else gives nothing.
fn take_other(
    tables: &mut Tables,
    alloc: Global,
    outs: &mut Outs,
    g: usize,
    message: &Message,
) -> Result<(), Memory>
    requires group { g < length tables.old.lasts.items }
    requires stage { (x : Start) → slice_get tables.old.lasts.items g ≡ Some x → x.life.stage ≡ Initializing }
    ensures same_limit { tables.new.requests ≡ tables.old.requests }
    ensures same_versions { tables.new.versions ≡ tables.old.versions }
    ensures does { (settings : Settings) (before : List Event) (body : List ℕ) (s : ℕ) → IsRead message.now body → outs.old ≡ []
        → slice_get (map number_in tables.old.lasts.items) g ≡ Some s → runs (life_of s before) ≡ true
        → is_first_result (message_of body) ≡ false → is_first_error (message_of body) ≡ false
        → Stands settings tables.old before → DocumentsStand settings nothing_owed tables.old before
        → OnOk result (Done (λ k events. AllStand settings k events) (row_of settings before (FromServer s body))
        (with_cause before (FromServer s body)) [] (tables.new, nothing_owed) outs.new) }
{
    match message.sort() {
        Sort::Request => {
            take_hasty(tables, alloc, outs, g, message)?;
            Ok(())
        }
        _ => {
            hear_quietly(tables, g, answered_number(message));
            Ok(())
        }
    }
}

// S2, with the replay X4, S3 and S4: a message comes from a start that gave no result of its `initialize` yet.
fn take_first(
    tables: &mut Tables,
    carries: &mut Carries,
    alloc: Global,
    outs: &mut Outs,
    g: usize,
    message: &Message,
) -> Result<(), Memory>
    requires group { g < length tables.old.lasts.items }
    requires stage { (x : Start) → slice_get tables.old.lasts.items g ≡ Some x → x.life.stage ≡ Initializing }
    ensures same_limit { tables.new.requests ≡ tables.old.requests }
    ensures same_versions { tables.new.versions ≡ tables.old.versions }
    ensures does { (settings : Settings) (before : List Event) (body : List ℕ) (s : ℕ) → IsRead message.now body → outs.old ≡ []
        → slice_get (map number_in tables.old.lasts.items) g ≡ Some s → Known settings before → Settled settings before
        → CarriedStand settings carries.old before → runs (life_of s before) ≡ true
        → Stands settings tables.old before → DocumentsStand settings nothing_owed tables.old before
        → OnOk result (Done (λ k events. AllStand settings k events) (row_of settings before (FromServer s body))
        (with_cause before (FromServer s body)) [] (tables.new, nothing_owed) outs.new) }
    ensures carried { (settings : Settings) (before : List Event) (body : List ℕ) (s : ℕ) → IsRead message.now body → outs.old ≡ []
        → slice_get (map number_in tables.old.lasts.items) g ≡ Some s → Known settings before → Settled settings before
        → CarriedStand settings carries.old before → Stands settings tables.old before → DocumentsStand settings nothing_owed tables.old before
        → OnOk result (CarriedStand settings carries.new (behind (with_cause before (FromServer s body)) outs.new)) }
{
    if is_first_result(message) {
        take_result(tables, carries, alloc, outs, g, message)?;
        Ok(())
    } else if is_first_error(message) {
        take_refused(tables, alloc, outs, g, message)?;
        Ok(())
    } else {
        take_other(tables, alloc, outs, g, message)?;
        Ok(())
    }
}

// S6 to S12: a request comes from a start that is ready, under the id of no open ask.
fn take_class(
    tables: &mut Tables,
    alloc: Global,
    outs: &mut Outs,
    g: usize,
    message: &Message,
) -> Result<(), Memory>
    requires { g < length tables.old.lasts.items }
    ensures same_limit { tables.new.requests ≡ tables.old.requests }
    ensures same_versions { tables.new.versions ≡ tables.old.versions }
    ensures does { (settings : Settings) (before : List Event) (body method : List ℕ) (id : Id) (params : Option Json) (s : ℕ) (x : Start)
        → IsRead message.now body → message_of body ≡ request id method params → is_taken (Some id) (asking_of settings s before) ≡ false
        → outs.old ≡ []
        → slice_get tables.old.lasts.items g ≡ Some x → x.life.stage ≡ Ready → slice_get (map number_in tables.old.lasts.items) g ≡ Some s
        → Known settings before → Settled settings before
        → Stands settings tables.old before → DocumentsStand settings nothing_owed tables.old before
        → OnOk result (Done (λ k events. AllStand settings k events) (asking_row settings before x.life.group s body method (class_of method Server false))
        (with_cause before (FromServer s body)) [] (tables.new, nothing_owed) outs.new) }
{
    match asked_class(message) {
        Class::Refresh => {
            take_refresh(tables, alloc, outs, g, message)?;
            Ok(())
        }
        Class::Folders => {
            take_folders(tables, alloc, outs, g, message)?;
            Ok(())
        }
        Class::Focused => {
            take_focused(tables, alloc, outs, g, message)?;
            Ok(())
        }
        Class::Register => {
            take_register(tables, alloc, outs, g, message)?;
            Ok(())
        }
        Class::Unregister => {
            take_unregister(tables, alloc, outs, g, message)?;
            Ok(())
        }
        Class::Create => {
            take_create(tables, alloc, outs, g, message)?;
            Ok(())
        }
        _ => {
            take_lowest(tables, alloc, outs, g, message)?;
            Ok(())
        }
    }
}

// A request comes from a start that is ready: that, or one under the id of an open ask, which gives nothing.
fn take_question(
    tables: &mut Tables,
    alloc: Global,
    outs: &mut Outs,
    g: usize,
    message: &Message,
) -> Result<(), Memory>
    requires { g < length tables.old.lasts.items }
    ensures same_limit { tables.new.requests ≡ tables.old.requests }
    ensures same_versions { tables.new.versions ≡ tables.old.versions }
    ensures does { (settings : Settings) (before : List Event) (body method : List ℕ) (id : Id) (params : Option Json) (s : ℕ) (x : Start)
        → IsRead message.now body → message_of body ≡ request id method params
        → outs.old ≡ []
        → slice_get tables.old.lasts.items g ≡ Some x → x.life.stage ≡ Ready → slice_get (map number_in tables.old.lasts.items) g ≡ Some s
        → Known settings before → Settled settings before
        → Stands settings tables.old before → DocumentsStand settings nothing_owed tables.old before
        → OnOk result (Done (λ k events. AllStand settings k events) (question_row settings s before body id method)
        (with_cause before (FromServer s body)) [] (tables.new, nothing_owed) outs.new) }
{
    if tables.is_asked(g, message.id_bytes()) {
        take_repeated(tables, g);
        Ok(())
    } else {
        take_class(tables, alloc, outs, g, message)?;
        Ok(())
    }
}

// S13 to S15, and what goes to each editor: a notification comes from a start that is ready.
fn take_telling(
    tables: &mut Tables,
    alloc: Global,
    outs: &mut Outs,
    g: usize,
    message: &Message,
) -> Result<(), Memory>
    requires { g < length tables.old.lasts.items }
    ensures same_limit { tables.new.requests ≡ tables.old.requests }
    ensures same_versions { tables.new.versions ≡ tables.old.versions }
    ensures does { (settings : Settings) (before : List Event) (body method : List ℕ) (params : Option Json) (s : ℕ) (x : Start)
        → IsRead message.now body → message_of body ≡ notification method params
        → outs.old ≡ [] → Known settings before → Settled settings before
        → slice_get tables.old.lasts.items g ≡ Some x → x.life.stage ≡ Ready → slice_get (map number_in tables.old.lasts.items) g ≡ Some s
        → Stands settings tables.old before → DocumentsStand settings nothing_owed tables.old before
        → OnOk result (Done (λ k events. AllStand settings k events) (notified_row settings s before body params (class_of method Server true))
        (with_cause before (FromServer s body)) [] (tables.new, nothing_owed) outs.new) }
{
    match told_class(message) {
        Class::Cancel => {
            take_recall(tables, alloc, outs, g, message)?;
            Ok(())
        }
        Class::Progress => {
            take_progress(tables, alloc, outs, g, message)?;
            Ok(())
        }
        Class::Diagnostics => {
            take_list(tables, alloc, outs, g, message)?;
            Ok(())
        }
        _ => {
            take_broadcast(tables, alloc, outs, g, message)?;
            Ok(())
        }
    }
}

// A message comes from a start that is ready: it asks something of editors, tells them something, or answers an editor's request.
fn take_ready(
    tables: &mut Tables,
    alloc: Global,
    outs: &mut Outs,
    g: usize,
    message: &Message,
) -> Result<(), Memory>
    requires group { g < length tables.old.lasts.items }
    requires stage { (x : Start) → slice_get tables.old.lasts.items g ≡ Some x → x.life.stage ≡ Ready }
    ensures same_limit { tables.new.requests ≡ tables.old.requests }
    ensures same_versions { tables.new.versions ≡ tables.old.versions }
    ensures does { (settings : Settings) (before : List Event) (body : List ℕ) (s : ℕ) → IsRead message.now body → outs.old ≡ []
        → slice_get (map number_in tables.old.lasts.items) g ≡ Some s → Known settings before → Settled settings before
        → Stands settings tables.old before → DocumentsStand settings nothing_owed tables.old before
        → OnOk result (Done (λ k events. AllStand settings k events) (row_of settings before (FromServer s body))
        (with_cause before (FromServer s body)) [] (tables.new, nothing_owed) outs.new) }
{
    match message.sort() {
        Sort::Request => {
            take_question(tables, alloc, outs, g, message)?;
            Ok(())
        }
        Sort::Notification => {
            take_telling(tables, alloc, outs, g, message)?;
            Ok(())
        }
        Sort::Result | Sort::Error => {
            take_answer(tables, alloc, outs, g, message)?;
            Ok(())
        }
    }
}

// A message comes from the group's last start. Behind its `shutdown` the response to it ends the start, and all else there, as all
// behind its end, gives nothing (S4); a start whose program runs is in no other stage than these.
fn take_message(
    tables: &mut Tables,
    carries: &mut Carries,
    alloc: Global,
    outs: &mut Outs,
    g: usize,
    message: &Message,
) -> Result<(), Memory>
    requires { g < length tables.old.lasts.items }
    ensures same_limit { tables.new.requests ≡ tables.old.requests }
    ensures same_versions { tables.new.versions ≡ tables.old.versions }
    ensures does { (settings : Settings) (before : List Event) (body : List ℕ) (s : ℕ) → IsRead message.now body → outs.old ≡ []
        → slice_get (map number_in tables.old.lasts.items) g ≡ Some s → Known settings before → Settled settings before
        → CarriedStand settings carries.old before → runs (life_of s before) ≡ true
        → Stands settings tables.old before → DocumentsStand settings nothing_owed tables.old before
        → OnOk result (Done (λ k events. AllStand settings k events) (row_of settings before (FromServer s body))
        (with_cause before (FromServer s body)) [] (tables.new, nothing_owed) outs.new) }
    ensures carried { (settings : Settings) (before : List Event) (body : List ℕ) (s : ℕ) → IsRead message.now body → outs.old ≡ []
        → slice_get (map number_in tables.old.lasts.items) g ≡ Some s → Known settings before → Settled settings before
        → CarriedStand settings carries.old before → Stands settings tables.old before → DocumentsStand settings nothing_owed tables.old before
        → OnOk result (CarriedStand settings carries.new (behind (with_cause before (FromServer s body)) outs.new)) }
{
    let stage = stage_at(tables, g);
    match stage {
        Stage::Initializing => {
            take_first(tables, carries, alloc, outs, g, message)?;
            Ok(())
        }
        Stage::Ready => {
            take_ready(tables, alloc, outs, g, message)?;
            Ok(())
        }
        Stage::Stopping => {
            take_stopping(tables, alloc, outs, g, message)?;
            Ok(())
        }
        Stage::Ending => {
            take_ending(tables, g, message);
            Ok(())
        }
        _ => Ok(()),
    }
}

// A body comes from the group's last start, s.
fn take_body(
    tables: &mut Tables,
    carries: &mut Carries,
    debts: &mut Debts,
    alloc: Global,
    outs: &mut Outs,
    g: usize,
    s: u64,
    body: &Body,
) -> Result<(), Memory>
    requires group { g < length tables.old.lasts.items }
    requires small { length body.now ≤ 268435456 }
    ensures same_limit { tables.new.requests ≡ tables.old.requests }
    ensures same_versions { tables.new.versions ≡ tables.old.versions }
    ensures does { (settings : Settings) (before : List Event) (s : ℕ) → outs.old ≡ []
        → slice_get (map number_in tables.old.lasts.items) g ≡ Some s → Known settings before → Settled settings before
        → CarriedStand settings carries.old before → runs (life_of s before) ≡ true
        → Stands settings tables.old before → DocumentsStand settings nothing_owed tables.old before
        → OnOk result (Done (λ k events. AllStand settings k events) (row_of settings before (FromServer s body.now))
        (with_cause before (FromServer s body.now)) [] (tables.new, nothing_owed) outs.new) }
    ensures carried { (settings : Settings) (before : List Event) (s : ℕ) → outs.old ≡ []
        → slice_get (map number_in tables.old.lasts.items) g ≡ Some s → Known settings before → Settled settings before
        → CarriedStand settings carries.old before → Stands settings tables.old before → DocumentsStand settings nothing_owed tables.old before
        → OnOk result (CarriedStand settings carries.new (behind (with_cause before (FromServer s body.now)) outs.new)) }
    ensures owed { (settings : Settings) (before : List Event) → Known settings before → DebtsStand settings debts.old before
        → slice_get (map number_in tables.old.lasts.items) g ≡ Some s → Stands settings tables.old before → DocumentsStand settings nothing_owed tables.old before
        → OnOk result (DebtsStand settings debts.new (with_cause before (FromServer s body.now))) }
{
    match Message::read(alloc, body.bytes()) {
        Ok(message) => {
            note_refresh(tables, debts, alloc, s, &message)?;
            take_message(tables, carries, alloc, outs, g, &message)?;
            Ok(())
        }
        Err(fault) => {
            ignore(tables, g, fault)?;
            Ok(())
        }
    }
}

/// The program of a start says something: where it gives the result of its `initialize`, the editors that wait are answered; where it
/// refuses it, its group ends; where it answers an editor's request, that editor is answered; where it asks something, the editors that are
/// to answer are asked; where it tells something, they are told; where it answers `shutdown`, the start is to end; a body that is no message
/// gives nothing. Only a start that is the last of its group has a program that runs.
pub fn from_server(
    tables: &mut Tables,
    carries: &mut Carries,
    debts: &mut Debts,
    alloc: Global,
    outs: &mut Outs,
    s: u64,
    body: &Body,
) -> Result<(), Memory>
    requires small { length body.now ≤ 268435456 }
    ensures same_limit { tables.new.requests ≡ tables.old.requests }
    ensures same_versions { tables.new.versions ≡ tables.old.versions }
    ensures does { (settings : Settings) (before : List Event) → outs.old ≡ [] → Known settings before → Settled settings before
        → fits_behind before (FromServer s body.now) ≡ true → CarriedStand settings carries.old before
        → Stands settings tables.old before → DocumentsStand settings nothing_owed tables.old before
        → OnOk result (Done (λ k events. AllStand settings k events) (row_of settings before (FromServer s body.now))
        (with_cause before (FromServer s body.now)) [] (tables.new, nothing_owed) outs.new) }
    ensures carried { (settings : Settings) (before : List Event) → outs.old ≡ [] → Known settings before → Settled settings before
        → fits_behind before (FromServer s body.now) ≡ true → CarriedStand settings carries.old before
        → Stands settings tables.old before → DocumentsStand settings nothing_owed tables.old before
        → OnOk result (CarriedStand settings carries.new (behind (with_cause before (FromServer s body.now)) outs.new)) }
    ensures owed { (settings : Settings) (before : List Event) → Known settings before → DebtsStand settings debts.old before
        → Stands settings tables.old before → DocumentsStand settings nothing_owed tables.old before
        → OnOk result (DebtsStand settings debts.new (with_cause before (FromServer s body.now))) }
{
    match tables.last(s) {
        None => Ok(()),
        Some(g) => {
            take_body(tables, carries, debts, alloc, outs, g, s, body)?;
            Ok(())
        }
    }
}
