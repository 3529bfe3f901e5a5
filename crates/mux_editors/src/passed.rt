//! E16 and E17: a notification of an editor that goes on as it came; E16: the configuration of its group is kept.
ghost use Rattle.std.specs.Prelude.{◌≡◌, ◌<◌, ◌&&◌, ℕ, List, [], Option, Some, true, bytes_eq, codes, length, map, IfNone, IfSome, OnOk, slice_get, false};
ghost use Rattle.group_words.specs.Houses.{home_of};
ghost use Rattle.event_model.specs.Stages.{is_ready, life_of};
ghost use Rattle.mux_turns.specs.group_facts.specs.Why.{IsQuestion};
ghost use Rattle.std.specs.List.{AllByRecursion};
ghost use Rattle.mux_editors.specs.Running.{running_row};
ghost use Rattle.event_model.specs.declared.stage.Stage.TheVariants.{Ready};
ghost use Rattle.event_model.specs.Does.{Alike, Does, Done};
ghost use Rattle.event_model.specs.Event.{Event, behind, notifies, with_cause};
ghost use Rattle.event_model.specs.Phases.{desk_of, is_served};
ghost use Rattle.event_model.specs.Row.{nothing, send, ◌⨾◌};
ghost use Rattle.event_model.specs.Settings.{Settings};
ghost use Rattle.group_rows.specs.Rows.{notice_row, sync_row};
ghost use Rattle.json_text.specs.Json.{Json};
ghost use Rattle.lsp_method.specs.Class.{class_of};
ghost use Rattle.lsp_method.specs.declared.variants.Origin.TheVariants.{Editor};
ghost use Rattle.mux_history.specs.declared.cause.Cause.TheVariants.{FromEditor};
ghost use Rattle.mux_history.specs.declared.out.Out.{Out};
ghost use Rattle.mux_history.specs.declared.out.Out.TheVariants.{ToServer};
ghost use Rattle.mux_model.specs.Methods.{goes_on};
ghost use Rattle.mux_tables.specs.declared.tables.Start.{Start};
ghost use Rattle.mux_tables.specs.Documents.{AllStand, DocumentsStand, nothing_owed};
ghost use Rattle.mux_tables.specs.Stands.{Stands, number_in, start_for};
ghost use Rattle.rpc_message.specs.Message.{message_of, notification};
ghost use Rattle.rpc_message.specs.Parsed.{IsRead};
ghost use Rattle.mux_turns.specs.Carried.{CarriedStand};
ghost use Rattle.mux_turns.specs.group_facts.specs.Facts.{Meant};
ghost use Rattle.mux_turns.specs.group_facts.specs.Settled.{Settled};

use crate::running::hear_running;
use message_body::{Body, Memory};
use mux_history::Outs;
use mux_tables::Tables;
use mux_turns::{Carries, stage_at};
use rpc_message::{Message, Sort};
use std::alloc::Global;

// The place of an editor's group, whose last start is ready; none where the editor is in no group, or the group has no start, or that
// start isn't ready: then a notification gives nothing.
pub fn ready_at(tables: &Tables, e: u64) -> Option<usize>
    ensures inside { IfSome result (λ g. g < length tables.now.lasts.items) }
    ensures ready { IfSome result (λ g. (x : Start) → slice_get tables.now.lasts.items g ≡ Some x → x.life.stage ≡ Ready) }
    ensures home { IfSome result (λ g. (settings : Settings) (events : List Event) (x : Start) → slice_get tables.now.lasts.items g ≡ Some x
        → Stands settings tables.now events → home_of settings e events ≡ Some x.life.group) }
    ensures unready { IfNone result ((settings : Settings) (events : List Event) (s : ℕ) → Stands settings tables.now events
        → start_for settings e events ≡ Some s → is_ready (life_of s events).stage ≡ false) }
    ensures silent { IfNone result ((settings : Settings) (before : List Event) (body : List ℕ) → Stands settings tables.now before
        → Alike (notice_row settings before e body) nothing) }
    ensures goes { IfSome result (λ g. (settings : Settings) (before : List Event) (body : List ℕ) (s : ℕ) (x : Start)
        → slice_get tables.now.lasts.items g ≡ Some x → slice_get (map number_in tables.now.lasts.items) g ≡ Some s
        → Stands settings tables.now before
        → Alike (notice_row settings before e body) (sync_row settings before x.life.group s e ⨾ send (ToServer s body))) }
{
    let g = tables.place(e)?;
    if stage_at(tables, g).is_ready() {
        Some(g)
    } else {
        None
    }
}

// The notification goes to the group's last start, which is ready, behind a sync.
fn go_on(
    tables: &mut Tables,
    alloc: Global,
    outs: &mut Outs,
    g: usize,
    e: u64,
    message: &Message,
) -> Result<(), Memory>
    requires group { g < length tables.old.lasts.items }
    requires ready { (x : Start) → slice_get tables.old.lasts.items g ≡ Some x → x.life.stage ≡ Ready }
    ensures requests { tables.new.requests ≡ tables.old.requests }
    ensures versions { tables.new.versions ≡ tables.old.versions }
    ensures does { (settings : Settings) (before : List Event) (body method : List ℕ) (params : Option Json) (s : ℕ) → IsRead message.now body
        → message_of body ≡ notification method params → goes_on (class_of method Editor true) ≡ true → AllByRecursion (IsQuestion e) outs.old
        → slice_get (map number_in tables.old.lasts.items) g ≡ Some s → (x : Start) → slice_get tables.old.lasts.items g ≡ Some x
        → OnOk result (Does (λ k events. AllStand settings k events) (sync_row settings before x.life.group s e ⨾ send (ToServer s body)) (with_cause before (FromEditor e body))
        (tables.old, nothing_owed) outs.old (tables.new, nothing_owed) outs.new) }
{
    let text = Body::new(Vec::from_slice(alloc, message.bytes())?);
    tables.pass_notice(alloc, outs, g, e, text)?;
    Ok(())
}

/// E16 and E17: a notification that goes on comes from an editor that is served. Where the last start of its group is ready, it goes
/// there as it came, behind a sync; else it gives nothing.
pub fn take_passed(
    tables: &mut Tables,
    alloc: Global,
    outs: &mut Outs,
    e: u64,
    message: &Message,
) -> Result<(), Memory>
    requires { e < length tables.old.editors }
    ensures requests { tables.new.requests ≡ tables.old.requests }
    ensures versions { tables.new.versions ≡ tables.old.versions }
    ensures does { (settings : Settings) (before : List Event) (body method : List ℕ) (params : Option Json) → IsRead message.now body
        → message_of body ≡ notification method params → goes_on (class_of method Editor true) ≡ true → is_served (desk_of e before).phase ≡ true
        → outs.old ≡ [] → Meant before → Settled settings before → Stands settings tables.old before → DocumentsStand settings nothing_owed tables.old before
        → OnOk result (Done (λ k events. AllStand settings k events) (running_row settings before e (message_of body) ⨾ notice_row settings before e body)
        (with_cause before (FromEditor e body)) [] (tables.new, nothing_owed) outs.new) }
{
    let place = ready_at(tables, e);
    hear_running(tables, alloc, outs, e)?;
    match place {
        None => Ok(()),
        Some(g) => {
            go_on(tables, alloc, outs, g, e, message)?;
            Ok(())
        }
    }
}

// Whether a method is that of a change of the configuration.
fn names_configuration(method: &[u8]) -> bool
    ensures { result ≡ bytes_eq method.now (codes "workspace/didChangeConfiguration") }
{
    method == "workspace/didChangeConfiguration".as_bytes()
}

// E16: whether a message changes the configuration (LSP 3.17, DidChangeConfiguration Notification).
fn configures(message: &Message) -> bool
    ensures { (body : List ℕ) → IsRead message.now body → result ≡ notifies (codes "workspace/didChangeConfiguration") (message_of body) }
{
    match message.sort() {
        Sort::Notification => match message.method() {
            Some(method) => names_configuration(method),
            None => false,
        },
        Sort::Request | Sort::Result | Sort::Error => false,
    }
}

// E16: whether it does, and its editor is served.
fn is_configured(tables: &Tables, e: u64, message: &Message) -> bool
    ensures { (settings : Settings) (before : List Event) (body : List ℕ) → IsRead message.now body → Stands settings tables.now before
        → result ≡ (is_served (desk_of e before).phase && notifies (codes "workspace/didChangeConfiguration") (message_of body)) }
{
    tables.phase(e).is_served() && configures(message)
}

/// E16: where an editor that is served changes the configuration, that is kept as its group's, whatever is sent then. It takes time in the
/// body, and in how many groups have one.
pub fn keep_configuration(
    tables: &Tables,
    carries: &mut Carries,
    alloc: Global,
    e: u64,
    message: &Message,
) -> Result<(), Memory>
    requires { e < length tables.now.editors }
    ensures kept { (settings : Settings) (before : List Event) (body : List ℕ) (xs : List Out) → IsRead message.now body
        → Settled settings before → Stands settings tables.now before → CarriedStand settings carries.old before
        → OnOk result (CarriedStand settings carries.new (behind (with_cause before (FromEditor e body)) xs)) }
{
    if !is_configured(tables, e, message) {
        return Ok(());
    }
    match tables.editors.group(e) {
        None => Ok(()),
        Some(group) => {
            let text = Body::new(Vec::from_slice(alloc, message.bytes())?);
            carries.configure(tables, group, text)?;
            Ok(())
        }
    }
}
