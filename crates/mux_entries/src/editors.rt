//! What editors do: that one joined, what one said, and that a link is gone.
ghost use Rattle.std.specs.Prelude.{◌≡◌, ◌≤◌, ◌<◌, ◌&&◌, ℕ, List, [], Option, Some, true, false, codes, length, OnOk};
ghost use Rattle.event_model.specs.declared.phase.Phase.TheVariants.{Down, New};
ghost use Rattle.event_model.specs.Does.{Done};
ghost use Rattle.event_model.specs.Event.{Event, behind, requests, with_cause};
ghost use Rattle.event_model.specs.Phases.{desk_of, is_begun, is_malformed, is_served, is_there};
ghost use Rattle.event_model.specs.Row.{◌⨾◌};
ghost use Rattle.event_model.specs.Settings.{Settings};
ghost use Rattle.mux_starts.specs.group_facts.specs.Built.{is_standard};
ghost use Rattle.mux_starts.specs.group_facts.specs.Facts.{Known, Meant, is_early};
ghost use Rattle.mux_starts.specs.group_facts.specs.Settled.{Settled};
ghost use Rattle.group_rows.specs.Rows.{asks_lspmux, down_row, early_row, editor_row, exit_row, lspmux_row, row_of, served_request, served_row};
ghost use Rattle.group_words.specs.Houses.{is_doubled, places, stops};
ghost use Rattle.json_text.specs.Json.{Json};
ghost use Rattle.lsp_method.specs.Class.{class_of};
ghost use Rattle.lsp_method.specs.declared.variants.Origin.TheVariants.{Editor};
ghost use Rattle.mux_starts.specs.group_facts.specs.Ceilings.{HaveCeilings};
ghost use Rattle.mux_debts.specs.Stands.{DebtsStand};
ghost use Rattle.mux_editors.specs.Running.{running_row};
ghost use Rattle.mux_history.specs.declared.cause.Cause.TheVariants.{EditorGone, FromEditor, Joined};
ghost use Rattle.mux_history.specs.declared.cause.Why.{Why};
ghost use Rattle.mux_model.specs.Fits.{fits_behind};
ghost use Rattle.mux_starts.specs.mux_tables.specs.Documents.{AllStand, DocumentsStand, nothing_owed};
ghost use Rattle.mux_starts.specs.mux_tables.specs.Stands.{AnswersNone, Stands};
ghost use Rattle.mux_turns.specs.Carried.{CarriedStand};
ghost use Rattle.rpc_message.specs.declared.sort.Sort.TheVariants.{Request};
ghost use Rattle.rpc_message.specs.Message.{Id, message_of, notification, request};
ghost use Rattle.rpc_message.specs.Parsed.{IsRead};
ghost use Rattle.rpc_message.specs.Sorts.{Refuses, sort_of};

use event_model::{Phase, Server};
use lsp_method::Class;
use message_body::{Body, Memory};
use mux_debts::{Debts, pay, take_debts};
use mux_editors::{
    asks_lspmux, doubles, keep_configuration, take_cancel, take_closed, take_doubled,
    take_doubled_own, take_down, take_early, take_exit, take_gone, take_initialize, take_malformed,
    take_notice, take_open, take_passed, take_quiet, take_reply, take_request, take_shutdown,
    take_status, take_stop, take_work_cancel, take_wrong,
};
use mux_history::Outs;
use mux_starts::mux_members::{
    cancels_work, class_in, goes_on, is_cancel, is_exit, is_initialize, is_open, is_stop,
};
use mux_starts::mux_tables::Tables;
use mux_turns::Carries;
use rpc_message::{Malformed, Message, Sort};
use std::alloc::Global;

/// J1: an editor joined, which gives nothing; where all was stopped its link is to be ended. The tables have room for the editor of the
/// next number alone, and below 2^63.
pub fn joined(tables: &mut Tables, alloc: Global, outs: &mut Outs, e: u64) -> Result<(), Memory>
    ensures same_limit { tables.new.requests ≡ tables.old.requests }
    ensures same_versions { tables.new.versions ≡ tables.old.versions }
    ensures does { (settings : Settings) (before : List Event) → outs.old ≡ [] → Stands settings tables.old before
        → DocumentsStand settings nothing_owed tables.old before
        → OnOk result (Done (λ k events. AllStand settings k events) (row_of settings before (Joined e))
        (with_cause before (Joined e)) [] (tables.new, nothing_owed) outs.new) }
{
    if e != tables.editors.count() || e >= 9_223_372_036_854_775_808 {
        return Err(Memory);
    }
    tables.hear_joined(e)?;
    if tables.is_stopped() {
        if e >= tables.editors.count() {
            return Err(Memory);
        }
        tables.close(alloc, outs, e)?;
    }
    Ok(())
}

/// X5: an editor's link is gone.
pub fn gone(tables: &mut Tables, alloc: Global, outs: &mut Outs, e: u64) -> Result<(), Memory>
    ensures same_limit { tables.new.requests ≡ tables.old.requests }
    ensures same_versions { tables.new.versions ≡ tables.old.versions }
    ensures does { (settings : Settings) (before : List Event) (why : Why) → outs.old ≡ [] → Known settings before
        → fits_behind before (EditorGone e why) ≡ true
        → Stands settings tables.old before → DocumentsStand settings nothing_owed tables.old before
        → OnOk result (Done (λ k events. AllStand settings k events) (row_of settings before (EditorGone e why))
        (with_cause before (EditorGone e why)) [] (tables.new, nothing_owed) outs.new) }
{
    if e >= tables.editors.count() {
        return Ok(());
    }
    take_gone(tables, alloc, outs, e)?;
    Ok(())
}

// E9 and E15: a message that is no request comes from an editor that isn't served: `exit` ends its link, another one gives nothing.
fn from_aside(
    tables: &mut Tables,
    alloc: Global,
    outs: &mut Outs,
    e: u64,
    message: &Message,
) -> Result<(), Memory>
    requires { e < length tables.old.editors }
    ensures same_limit { tables.new.requests ≡ tables.old.requests }
    ensures same_versions { tables.new.versions ≡ tables.old.versions }
    ensures does { (settings : Settings) (before : List Event) (body : List ℕ) → IsRead message.now body
        → (sort_of (message_of body) ≡ Some Request → ⊥) → is_served (desk_of e before).phase ≡ false
        → AnswersNone settings e (message_of body) before → outs.old ≡ []
        → Settled settings before → Stands settings tables.old before → DocumentsStand settings nothing_owed tables.old before
        → OnOk result (Done (λ k events. AllStand settings k events) (exit_row settings before e (message_of body))
        (with_cause before (FromEditor e body)) [] (tables.new, nothing_owed) outs.new) }
{
    if is_exit(message) {
        take_exit(tables, alloc, outs, e)?;
        Ok(())
    } else {
        take_quiet(tables, e, message);
        Ok(())
    }
}

// E8: a message that places its editor nowhere, before the answer to `initialize`.
fn from_early(
    tables: &mut Tables,
    alloc: Global,
    outs: &mut Outs,
    e: u64,
    message: &Message,
) -> Result<(), Memory>
    requires { e < length tables.old.editors }
    ensures same_limit { tables.new.requests ≡ tables.old.requests }
    ensures same_versions { tables.new.versions ≡ tables.old.versions }
    ensures does { (settings : Settings) (before : List Event) (body : List ℕ) → IsRead message.now body → is_early (desk_of e before).phase ≡ true
        → places (desk_of e before).phase (message_of body) ≡ false → stops before e (message_of body) ≡ false
        → asks_lspmux (message_of body) ≡ false → AnswersNone settings e (message_of body) before → outs.old ≡ []
        → Settled settings before → Stands settings tables.old before → DocumentsStand settings nothing_owed tables.old before
        → OnOk result (Done (λ k events. AllStand settings k events) (early_row settings before e body (message_of body))
        (with_cause before (FromEditor e body)) [] (tables.new, nothing_owed) outs.new) }
{
    match message.sort() {
        Sort::Request => {
            take_early(tables, alloc, outs, e, message)?;
            Ok(())
        }
        _ => {
            from_aside(tables, alloc, outs, e, message)?;
            Ok(())
        }
    }
}

// E8: a message behind `shutdown`.
fn from_down(
    tables: &mut Tables,
    alloc: Global,
    outs: &mut Outs,
    e: u64,
    message: &Message,
) -> Result<(), Memory>
    requires { e < length tables.old.editors }
    ensures same_limit { tables.new.requests ≡ tables.old.requests }
    ensures same_versions { tables.new.versions ≡ tables.old.versions }
    ensures does { (settings : Settings) (before : List Event) (body : List ℕ) → IsRead message.now body → (desk_of e before).phase ≡ Down
        → stops before e (message_of body) ≡ false → AnswersNone settings e (message_of body) before → outs.old ≡ []
        → Settled settings before → Stands settings tables.old before → DocumentsStand settings nothing_owed tables.old before
        → OnOk result (Done (λ k events. AllStand settings k events) (down_row settings before e body (message_of body))
        (with_cause before (FromEditor e body)) [] (tables.new, nothing_owed) outs.new) }
{
    match message.sort() {
        Sort::Request => {
            take_down(tables, alloc, outs, e, message)?;
            Ok(())
        }
        _ => {
            from_aside(tables, alloc, outs, e, message)?;
            Ok(())
        }
    }
}

// E7 to E9: the first messages of an editor.
fn from_new(
    tables: &mut Tables,
    alloc: Global,
    servers: &[Server],
    default: u32,
    outs: &mut Outs,
    e: u64,
    message: &Message,
) -> Result<(), Memory>
    requires editor { e < length tables.old.editors }
    requires limit { 2 ≤ tables.old.requests }
    requires versions { 1 ≤ tables.old.versions }
    requires ceilings { HaveCeilings servers.now }
    ensures same_limit { tables.new.requests ≡ tables.old.requests }
    ensures same_versions { tables.new.versions ≡ tables.old.versions }
    ensures does { (settings : Settings) (before : List Event) (body : List ℕ) → IsRead message.now body → (desk_of e before).phase ≡ New
        → settings.servers ≡ servers.now → settings.default ≡ default → outs.old ≡ [] → Known settings before → Settled settings before
        → (is_there (desk_of e before).phase && asks_lspmux (message_of body)) ≡ false
        → Stands settings tables.old before → DocumentsStand settings nothing_owed tables.old before
        → OnOk result (Done (λ k events. AllStand settings k events) (editor_row settings before e body)
        (with_cause before (FromEditor e body)) [] (tables.new, nothing_owed) outs.new) }
{
    if is_initialize(message) {
        take_initialize(tables, alloc, servers, default, outs, e, message)?;
        Ok(())
    } else {
        from_early(tables, alloc, outs, e, message)?;
        Ok(())
    }
}

// E8 to E10 and L2: a request of an editor that is served.
fn from_asking(
    tables: &mut Tables,
    alloc: Global,
    outs: &mut Outs,
    e: u64,
    message: &Message,
) -> Result<(), Memory>
    requires { e < length tables.old.editors }
    ensures same_limit { tables.new.requests ≡ tables.old.requests }
    ensures same_versions { tables.new.versions ≡ tables.old.versions }
    ensures does { (settings : Settings) (before : List Event) (body method : List ℕ) (id : Id) (params : Option Json) → IsRead message.now body
        → message_of body ≡ request id method params → is_standard (class_of method Editor false) ≡ true
        → is_served (desk_of e before).phase ≡ true → is_doubled before e (message_of body) ≡ false → outs.old ≡ []
        → Meant before → Settled settings before → Stands settings tables.old before → DocumentsStand settings nothing_owed tables.old before
        → OnOk result (Done (λ k events. AllStand settings k events) (running_row settings before e (message_of body) ⨾ served_request settings before e body method)
        (with_cause before (FromEditor e body)) [] (tables.new, nothing_owed) outs.new) }
{
    match class_in(message) {
        Class::Wrong | Class::Initialize => {
            take_wrong(tables, alloc, outs, e, message)?;
            Ok(())
        }
        Class::Shutdown => {
            take_shutdown(tables, alloc, outs, e, message)?;
            Ok(())
        }
        _ => {
            take_request(tables, alloc, outs, e, message)?;
            Ok(())
        }
    }
}

// E9, E11 to E17, and L2: a notification of an editor that is served.
fn from_noting(
    tables: &mut Tables,
    alloc: Global,
    outs: &mut Outs,
    e: u64,
    message: &Message,
) -> Result<(), Memory>
    requires { e < length tables.old.editors }
    ensures same_limit { tables.new.requests ≡ tables.old.requests }
    ensures same_versions { tables.new.versions ≡ tables.old.versions }
    ensures does { (settings : Settings) (before : List Event) (body method : List ℕ) (params : Option Json) → IsRead message.now body
        → message_of body ≡ notification method params → is_served (desk_of e before).phase ≡ true → outs.old ≡ [] → Known settings before
        → Settled settings before
        → Stands settings tables.old before → DocumentsStand settings nothing_owed tables.old before
        → OnOk result (Done (λ k events. AllStand settings k events)
        (running_row settings before e (message_of body) ⨾ served_row settings before e body (notification method params))
        (with_cause before (FromEditor e body)) [] (tables.new, nothing_owed) outs.new) }
{
    if is_exit(message) {
        take_exit(tables, alloc, outs, e)?;
        Ok(())
    } else if goes_on(message) {
        take_passed(tables, alloc, outs, e, message)?;
        Ok(())
    } else if is_cancel(message) {
        take_cancel(tables, alloc, outs, e, message)?;
        Ok(())
    } else if cancels_work(message) {
        take_work_cancel(tables, alloc, outs, e, message)?;
        Ok(())
    } else {
        take_notice(tables, alloc, outs, e, message)?;
        Ok(())
    }
}

// E8 to E17, E19 and L2: a message of an editor that is served.
fn from_served(
    tables: &mut Tables,
    alloc: Global,
    outs: &mut Outs,
    e: u64,
    message: &Message,
) -> Result<(), Memory>
    requires { e < length tables.old.editors }
    ensures same_limit { tables.new.requests ≡ tables.old.requests }
    ensures same_versions { tables.new.versions ≡ tables.old.versions }
    ensures does { (settings : Settings) (before : List Event) (body : List ℕ) → IsRead message.now body → is_served (desk_of e before).phase ≡ true
        → outs.old ≡ [] → Known settings before → Settled settings before
        → (is_begun (desk_of e before).phase && is_doubled before e (message_of body)) ≡ false
        → (is_there (desk_of e before).phase && asks_lspmux (message_of body)) ≡ false
        → Stands settings tables.old before → DocumentsStand settings nothing_owed tables.old before
        → OnOk result (Done (λ k events. AllStand settings k events) (editor_row settings before e body)
        (with_cause before (FromEditor e body)) [] (tables.new, nothing_owed) outs.new) }
{
    match message.sort() {
        Sort::Request => {
            from_asking(tables, alloc, outs, e, message)?;
            Ok(())
        }
        Sort::Notification => {
            from_noting(tables, alloc, outs, e, message)?;
            Ok(())
        }
        Sort::Result | Sort::Error => {
            take_reply(tables, alloc, outs, e, message)?;
            Ok(())
        }
    }
}

// A message under no id that is open, and not the multiplexer's own, by where its editor stands: where its link is to be ended (J2) it gives
// nothing.
fn from_phase(
    tables: &mut Tables,
    alloc: Global,
    servers: &[Server],
    default: u32,
    outs: &mut Outs,
    e: u64,
    message: &Message,
) -> Result<(), Memory>
    requires editor { e < length tables.old.editors }
    requires limit { 2 ≤ tables.old.requests }
    requires versions { 1 ≤ tables.old.versions }
    requires ceilings { HaveCeilings servers.now }
    ensures same_limit { tables.new.requests ≡ tables.old.requests }
    ensures same_versions { tables.new.versions ≡ tables.old.versions }
    ensures does { (settings : Settings) (before : List Event) (body : List ℕ) → IsRead message.now body
        → settings.servers ≡ servers.now → settings.default ≡ default → outs.old ≡ [] → Known settings before → Settled settings before
        → fits_behind before (FromEditor e body) ≡ true
        → (is_begun (desk_of e before).phase && is_doubled before e (message_of body)) ≡ false
        → (is_there (desk_of e before).phase && asks_lspmux (message_of body)) ≡ false
        → Stands settings tables.old before → DocumentsStand settings nothing_owed tables.old before
        → OnOk result (Done (λ k events. AllStand settings k events) (editor_row settings before e body)
        (with_cause before (FromEditor e body)) [] (tables.new, nothing_owed) outs.new) }
{
    match tables.phase(e) {
        Phase::New => {
            from_new(tables, alloc, servers, default, outs, e, message)?;
            Ok(())
        }
        Phase::Waiting => {
            from_early(tables, alloc, outs, e, message)?;
            Ok(())
        }
        Phase::Answered | Phase::Running => {
            from_served(tables, alloc, outs, e, message)?;
            Ok(())
        }
        Phase::Down => {
            from_down(tables, alloc, outs, e, message)?;
            Ok(())
        }
        Phase::Closed | Phase::Absent | Phase::Gone => {
            take_closed(tables, e);
            Ok(())
        }
    }
}

// E3: whether a message is a request under an id that is open at its editor.
fn is_doubled(tables: &Tables, e: u64, message: &Message) -> bool
    ensures { (settings : Settings) (before : List Event) (body : List ℕ) → Known settings before → Settled settings before
        → Stands settings tables.now before → IsRead message.now body
        → result ≡ (is_begun (desk_of e before).phase && is_doubled before e (message_of body)) }
{
    match message.sort() {
        Sort::Request => doubles(tables, e, tables.phase(e), message.id_bytes()),
        _ => false,
    }
}

// E4 to E6: whether a message is a request of the multiplexer's own, and its editor is there.
fn asks_own(tables: &Tables, e: u64, message: &Message) -> bool
    ensures { (settings : Settings) (before : List Event) (body : List ℕ) → Stands settings tables.now before → IsRead message.now body
        → result ≡ (is_there (desk_of e before).phase && asks_lspmux (message_of body)) }
{
    tables.phase(e).is_there() && asks_lspmux(message)
}

// E3: a request under an id that is open.
fn from_doubled(
    tables: &mut Tables,
    alloc: Global,
    outs: &mut Outs,
    e: u64,
    message: &Message,
) -> Result<(), Memory>
    requires { e < length tables.old.editors }
    ensures same_limit { tables.new.requests ≡ tables.old.requests }
    ensures same_versions { tables.new.versions ≡ tables.old.versions }
    ensures does { (settings : Settings) (before : List Event) (body : List ℕ) → IsRead message.now body
        → outs.old ≡ []
        → (is_begun (desk_of e before).phase && is_doubled before e (message_of body)) ≡ true
        → Settled settings before → Stands settings tables.old before → DocumentsStand settings nothing_owed tables.old before
        → OnOk result (Done (λ k events. AllStand settings k events) (editor_row settings before e body)
        (with_cause before (FromEditor e body)) [] (tables.new, nothing_owed) outs.new) }
{
    if asks_lspmux(message) {
        take_doubled_own(tables, alloc, outs, e)?;
        Ok(())
    } else {
        take_doubled(tables, alloc, outs, e, message)?;
        Ok(())
    }
}

// E4 to E6: a request of the multiplexer's own, under no id that is open.
fn from_own(
    tables: &mut Tables,
    alloc: Global,
    servers: &[Server],
    outs: &mut Outs,
    e: u64,
    message: &Message,
) -> Result<(), Memory>
    requires { e < length tables.old.editors }
    ensures same_limit { tables.new.requests ≡ tables.old.requests }
    ensures same_versions { tables.new.versions ≡ tables.old.versions }
    ensures does { (settings : Settings) (before : List Event) (body : List ℕ) → IsRead message.now body → asks_lspmux (message_of body) ≡ true
        → settings.servers ≡ servers.now → outs.old ≡ [] → Known settings before → Settled settings before → is_there (desk_of e before).phase ≡ true
        → (is_begun (desk_of e before).phase && is_doubled before e (message_of body)) ≡ false
        → Stands settings tables.old before → DocumentsStand settings nothing_owed tables.old before
        → OnOk result (Done (λ k events. AllStand settings k events) (lspmux_row settings before e body (message_of body))
        (with_cause before (FromEditor e body)) [] (tables.new, nothing_owed) outs.new) }
{
    if is_open(message) {
        take_open(tables, alloc, servers, outs, e, message)?;
        Ok(())
    } else if is_stop(message) {
        take_stop(tables, alloc, outs, e, message)?;
        Ok(())
    } else {
        take_status(tables, alloc, servers, outs, e, message)?;
        Ok(())
    }
}

// A message under no id that is open: E4 to E6 where it is the multiplexer's own.
fn from_single(
    tables: &mut Tables,
    alloc: Global,
    servers: &[Server],
    default: u32,
    outs: &mut Outs,
    e: u64,
    message: &Message,
) -> Result<(), Memory>
    requires editor { e < length tables.old.editors }
    requires limit { 2 ≤ tables.old.requests }
    requires versions { 1 ≤ tables.old.versions }
    requires ceilings { HaveCeilings servers.now }
    ensures same_limit { tables.new.requests ≡ tables.old.requests }
    ensures same_versions { tables.new.versions ≡ tables.old.versions }
    ensures does { (settings : Settings) (before : List Event) (body : List ℕ) → IsRead message.now body
        → settings.servers ≡ servers.now → settings.default ≡ default → outs.old ≡ [] → Known settings before → Settled settings before
        → fits_behind before (FromEditor e body) ≡ true
        → (is_begun (desk_of e before).phase && is_doubled before e (message_of body)) ≡ false
        → Stands settings tables.old before → DocumentsStand settings nothing_owed tables.old before
        → OnOk result (Done (λ k events. AllStand settings k events) (editor_row settings before e body)
        (with_cause before (FromEditor e body)) [] (tables.new, nothing_owed) outs.new) }
{
    if asks_own(tables, e, message) {
        from_own(tables, alloc, servers, outs, e, message)?;
        Ok(())
    } else {
        from_phase(tables, alloc, servers, default, outs, e, message)?;
        Ok(())
    }
}

// A message: E3 where it is a request under an id that is open, which stands before all others.
fn from_message(
    tables: &mut Tables,
    alloc: Global,
    servers: &[Server],
    default: u32,
    outs: &mut Outs,
    e: u64,
    message: &Message,
) -> Result<(), Memory>
    requires editor { e < length tables.old.editors }
    requires limit { 2 ≤ tables.old.requests }
    requires versions { 1 ≤ tables.old.versions }
    requires ceilings { HaveCeilings servers.now }
    ensures same_limit { tables.new.requests ≡ tables.old.requests }
    ensures same_versions { tables.new.versions ≡ tables.old.versions }
    ensures does { (settings : Settings) (before : List Event) (body : List ℕ) → IsRead message.now body
        → settings.servers ≡ servers.now → settings.default ≡ default → outs.old ≡ [] → Known settings before → Settled settings before
        → fits_behind before (FromEditor e body) ≡ true
        → Stands settings tables.old before → DocumentsStand settings nothing_owed tables.old before
        → OnOk result (Done (λ k events. AllStand settings k events) (editor_row settings before e body)
        (with_cause before (FromEditor e body)) [] (tables.new, nothing_owed) outs.new) }
{
    if is_doubled(tables, e, message) {
        from_doubled(tables, alloc, outs, e, message)?;
        Ok(())
    } else {
        from_single(tables, alloc, servers, default, outs, e, message)?;
        Ok(())
    }
}

// E2: a body that is no message.
fn from_malformed(
    tables: &mut Tables,
    alloc: Global,
    outs: &mut Outs,
    e: u64,
    fault: Malformed,
) -> Result<(), Memory>
    requires { e < length tables.old.editors }
    ensures same_limit { tables.new.requests ≡ tables.old.requests }
    ensures same_versions { tables.new.versions ≡ tables.old.versions }
    ensures malformed { (body : List ℕ) → Refuses fault (message_of body) → OnOk result (is_malformed (message_of body) ≡ true) }
    ensures does { (settings : Settings) (before : List Event) (body : List ℕ) → Refuses fault (message_of body) → outs.old ≡ []
        → Stands settings tables.old before → DocumentsStand settings nothing_owed tables.old before
        → OnOk result (Done (λ k events. AllStand settings k events) (editor_row settings before e body)
        (with_cause before (FromEditor e body)) [] (tables.new, nothing_owed) outs.new) }
{
    match fault {
        Malformed::NotJson | Malformed::NotMessage => {
            take_malformed(tables, alloc, outs, e, fault)?;
            Ok(())
        }
        Malformed::Memory => Err(Memory),
    }
}

/// A body comes from an editor: E2 where it is no message; E3 where it is a request under an id that is open; E4 to E6 where it is
/// one of the multiplexer's own; else E7 to E10, or E12 to E17, by where the editor stands, or nothing. Behind one that goes on the editor is
/// asked what it is owed.
pub fn from_editor(
    tables: &mut Tables,
    carries: &mut Carries,
    debts: &mut Debts,
    alloc: Global,
    servers: &[Server],
    default: u32,
    outs: &mut Outs,
    e: u64,
    body: &Body,
) -> Result<(), Memory>
    requires small { length body.now ≤ 268435456 }
    requires limit { 2 ≤ tables.old.requests }
    requires versions { 1 ≤ tables.old.versions }
    requires ceilings { HaveCeilings servers.now }
    ensures same_limit { tables.new.requests ≡ tables.old.requests }
    ensures same_versions { tables.new.versions ≡ tables.old.versions }
    ensures does { (settings : Settings) (before : List Event) → settings.servers ≡ servers.now → settings.default ≡ default → outs.old ≡ []
        → Known settings before → Settled settings before → fits_behind before (FromEditor e body.now) ≡ true → DebtsStand settings debts.old before
        → Stands settings tables.old before → DocumentsStand settings nothing_owed tables.old before
        → OnOk result (Done (λ k events. AllStand settings k events) (row_of settings before (FromEditor e body.now))
        (with_cause before (FromEditor e body.now)) [] (tables.new, nothing_owed) outs.new) }
    ensures carried { (settings : Settings) (before : List Event) → Known settings before → Settled settings before
        → fits_behind before (FromEditor e body.now) ≡ true → CarriedStand settings carries.old before → Stands settings tables.old before
        → OnOk result (CarriedStand settings carries.new (behind (with_cause before (FromEditor e body.now)) outs.new)) }
    ensures owed { (settings : Settings) (before : List Event) → Known settings before → Settled settings before
        → fits_behind before (FromEditor e body.now) ≡ true → DebtsStand settings debts.old before → Stands settings tables.old before
        → OnOk result (DebtsStand settings debts.new (with_cause before (FromEditor e body.now))) }
{
    if e >= tables.editors.count() {
        return Ok(());
    }
    match Message::read(alloc, body.bytes()) {
        Ok(message) => {
            keep_configuration(tables, carries, alloc, e, &message)?;
            let due = take_debts(tables, debts, alloc, e, &message)?;
            from_message(tables, alloc, servers, default, outs, e, &message)?;
            pay(tables, alloc, outs, e, &due)?;
            Ok(())
        }
        Err(fault) => {
            from_malformed(tables, alloc, outs, e, fault)?;
            Ok(())
        }
    }
}
