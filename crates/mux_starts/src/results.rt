//! S2: the first result of a start.
ghost use Rattle.std.specs.Prelude.{◌≡◌, ◌<◌, ◌∷◌, ℕ, List, [], None, Option, Some, true, length, map, filter, option_copied, IfOk, OnOk, slice_get};
ghost use Rattle.std.specs.List.{All};
ghost use Rattle.event_model.specs.declared.stage.Stage.TheVariants.{Initializing};
ghost use Rattle.event_model.specs.Does.{Does, Done};
ghost use Rattle.event_model.specs.Event.{Event, behind, with_cause};
ghost use Rattle.event_model.specs.Phases.{desk_of};
ghost use Rattle.event_model.specs.Row.{each, look};
ghost use Rattle.event_model.specs.Settings.{Settings};
ghost use Rattle.event_model.specs.Stages.{is_first_result};
ghost use Rattle.group_rows.specs.Earlier.{shown_in, was_shown};
ghost use Rattle.group_rows.specs.Rows.{first_result, waiting_in, welcome};
ghost use Rattle.group_rows.specs.Waiting.{part, worker_of};
ghost use Rattle.group_words.specs.Houses.{groups_of};
ghost use Rattle.group_words.specs.Rows.{shown_of};
ghost use Rattle.json_text.specs.Json.{Json};
ghost use Rattle.mux_history.specs.declared.cause.Cause.TheVariants.{FromServer};
ghost use Rattle.mux_starts.specs.Parted.{IsConfigured, PartedBy, configured_row, parted};
ghost use Rattle.mux_starts.specs.group_facts.specs.Facts.{Known};
ghost use Rattle.mux_starts.specs.group_facts.specs.Lively.{lives_at};
ghost use Rattle.mux_starts.specs.group_facts.specs.Settled.{Settled};
ghost use Rattle.mux_tables.specs.declared.tables.Start.{Start};
ghost use Rattle.mux_tables.specs.Documents.{AllStand, DocumentsStand, Owed, nothing_owed};
ghost use Rattle.mux_tables.specs.Names.{id_in};
ghost use Rattle.mux_tables.specs.Stands.{Stands, number_in};
ghost use Rattle.mux_turns.specs.Carried.{CarriedStand};
ghost use Rattle.mux_turns.specs.Welcomes.{AllAsking, IsGreeted, IsShown, Tells};
ghost use Rattle.rpc_message.specs.Message.{Id, id_bytes, message_of, result as outcome, result_bytes};
ghost use Rattle.rpc_message.specs.Parsed.{IsRead};

use crate::held::send_held;
use event_model::Phase;
use message_body::{Body, Memory};
use mux_history::Outs;
use mux_members::encoding;
use mux_tables::Tables;
use mux_turns::{Carries, answered_number, refuse_held, shown_of};
use rpc_message::{Message, initialized, ok_reply};
use std::alloc::Global;

// An editor was shown a result of its group.
fn was_shown(phase: Phase) -> bool
    ensures { result ≡ was_shown phase }
{
    matches!(phase, Phase::Answered | Phase::Running | Phase::Down)
}

// An editor that waits is answered, under the id of its `initialize`.
fn greet(
    tables: &mut Tables,
    alloc: Global,
    outs: &mut Outs,
    e: u64,
    shown: &[u8],
) -> Result<(), Memory>
    requires { e < length tables.old.editors }
    ensures requests { tables.new.requests ≡ tables.old.requests }
    ensures versions { tables.new.versions ≡ tables.old.versions }
    ensures lasts { tables.new.lasts ≡ tables.old.lasts }
    ensures count { OnOk result (length tables.new.editors ≡ length tables.old.editors) }
    ensures ids { OnOk result ((n : ℕ) → id_in (slice_get tables.new.editors n) ≡ id_in (slice_get tables.old.editors n)) }
    ensures told { OnOk result (Tells outs.old outs.new) }
    ensures does { (settings : Settings) (base : List Event) (body : List ℕ) → shown.now ≡ shown_of (result_bytes body) → IsShown body
        → IsGreeted (behind base outs.old) e → id_in (slice_get tables.old.editors e) ≡ Some (id_bytes (desk_of e (behind base outs.old)).initialize)
        → OnOk result (Does (λ k events. AllStand settings k events)
        (welcome body e) base (tables.old, nothing_owed) outs.old (tables.new, nothing_owed) outs.new) }
{
    match tables.initialize_id(e) {
        None => Ok(()),
        Some(id) => {
            let own = id.copy(alloc)?;
            let text = ok_reply(alloc, own.bytes(), shown)?;
            tables.welcome(outs, e, own.bytes(), text)?;
            Ok(())
        }
    }
}

// The editors of a group that wait are answered, rising.
fn greet_all(
    tables: &mut Tables,
    alloc: Global,
    outs: &mut Outs,
    g: u64,
    shown: &[u8],
) -> Result<(), Memory>
    ensures requests { tables.new.requests ≡ tables.old.requests }
    ensures versions { tables.new.versions ≡ tables.old.versions }
    ensures lasts { tables.new.lasts ≡ tables.old.lasts }
    ensures does { (settings : Settings) (base : List Event) (body : List ℕ) → shown.now ≡ shown_of (result_bytes body) → IsShown body
        → AllAsking (behind base outs.old)
        → OnOk result (Does (λ k events. AllStand settings k events) (look (λ events. each (welcome body)
        (waiting_in settings g events))) base (tables.old, nothing_owed) outs.old (tables.new, nothing_owed) outs.new) }
{
    let numbers = tables.waiting(g)?;
    for e in &numbers {
        greet(tables, alloc, outs, *e, shown)?;
    }
    Ok(())
}

// Those of these editors that were shown a result of their group, in this order.
fn shown_among(tables: &Tables, alloc: Global, members: &[u64]) -> Result<Vec<u64>, Memory>
    requires { All (λ e. e < length tables.now.editors) members.now }
    ensures inside { IfOk result (λ numbers. All (λ e. e < length tables.now.editors) numbers.items) }
    ensures those { (settings : Settings) (events : List Event) → Stands settings tables.now events
        → IfOk result (λ numbers. numbers.items ≡ filter (λ e. was_shown (desk_of e events).phase) members.now) }
{
    let mut all = Vec::new(alloc);
    for e in members {
        if was_shown(tables.phase(*e)) {
            all.push(*e)?;
        }
    }
    Ok(all)
}

// S2: the editors of a group that were shown a result, rising.
fn shown_in(tables: &Tables, alloc: Global, g: u64) -> Result<Vec<u64>, Memory>
    ensures inside { IfOk result (λ numbers. All (λ e. e < length tables.now.editors) numbers.items) }
    ensures those { (settings : Settings) (events : List Event) → Stands settings tables.now events
        → IfOk result (λ numbers. numbers.items ≡ shown_in settings g events) }
{
    let members = tables.members(g)?;
    let all = shown_among(tables, alloc, &members)?;
    Ok(all)
}

// S2: the editors whose links are to be ended: where they are shown other capabilities now than of an earlier start of their group, those
// that were shown a result.
fn parted_in(
    tables: &Tables,
    carries: &Carries,
    alloc: Global,
    g: u64,
    shown: &[u8],
) -> Result<Vec<u64>, Memory>
    ensures inside { IfOk result (λ numbers. All (λ e. e < length tables.now.editors) numbers.items) }
    ensures those { (settings : Settings) (before : List Event) (body : List ℕ) → Stands settings tables.now before
        → CarriedStand settings carries.now before → lives_at g (groups_of settings before) ≡ true → shown.now ≡ shown_of (result_bytes body)
        → IfOk result (λ numbers. numbers.items ≡ parted settings before body g) }
{
    let differs = carries.differs(alloc, g, shown)?;
    if differs {
        let numbers = shown_in(tables, alloc, g)?;
        Ok(numbers)
    } else {
        Ok(Vec::new(alloc))
    }
}

// S2: an editor of the group of this number is parted with: what waits of it is refused, and its link is to be ended.
fn part_one(
    tables: &mut Tables,
    alloc: Global,
    outs: &mut Outs,
    g: u64,
    e: u64,
) -> Result<(), Memory>
    requires { e < length tables.old.editors }
    ensures requests { tables.new.requests ≡ tables.old.requests }
    ensures versions { tables.new.versions ≡ tables.old.versions }
    ensures lasts { tables.new.lasts ≡ tables.old.lasts }
    ensures count { OnOk result (length tables.new.editors ≡ length tables.old.editors) }
    ensures parted { OnOk result (PartedBy (λ settings. part settings g e) (e ∷ []) tables.old tables.new outs.old outs.new) }
{
    refuse_held(tables, alloc, outs, g, e)?;
    tables.close(alloc, outs, e)?;
    Ok(())
}

// S2: so is each of these editors.
fn part_each(
    tables: &mut Tables,
    alloc: Global,
    outs: &mut Outs,
    g: u64,
    editors: &[u64],
) -> Result<(), Memory>
    requires { All (λ e. e < length tables.old.editors) editors.now }
    ensures requests { tables.new.requests ≡ tables.old.requests }
    ensures versions { tables.new.versions ≡ tables.old.versions }
    ensures lasts { tables.new.lasts ≡ tables.old.lasts }
    ensures parted { OnOk result (PartedBy (λ settings. each (part settings g) editors.now) editors.now tables.old tables.new outs.old outs.new) }
{
    for e in editors {
        part_one(tables, alloc, outs, g, *e)?;
    }
    Ok(())
}

// S2: the start is told of the configuration, where an editor of its group gave one.
fn configure(
    tables: &Tables,
    alloc: Global,
    outs: &mut Outs,
    g: usize,
    configuration: Option<&Body>,
) -> Result<(), Memory>
    requires { g < length tables.now.lasts.items }
    ensures { (settings : Settings) (owed : Owed) (base : List Event) (s : ℕ) → slice_get (map number_in tables.now.lasts.items) g ≡ Some s
        → IsConfigured (option_copied configuration.entry) → worker_of (behind base outs.old) ≡ None
        → OnOk result (Does (λ k events. AllStand settings k events)
        (configured_row s (option_copied configuration.entry)) base (tables.now, owed) outs.old (tables.now, owed) outs.new) }
{
    match configuration {
        None => Ok(()),
        Some(body) => {
            let text = body.copy(alloc)?;
            tables.notify(outs, g, text)?;
            Ok(())
        }
    }
}

/// S2: the group's last start gives the result of its `initialize`: where by it editors are shown other capabilities than of an earlier start
/// of the group, those that were shown a result are parted with; it is told that the session begins, of the group's configuration, and of each
/// document that is open; the editors of the group that wait are answered, rising; and what waits of the others goes to it.
pub fn take_result(
    tables: &mut Tables,
    carries: &mut Carries,
    alloc: Global,
    outs: &mut Outs,
    g: usize,
    message: &Message,
) -> Result<(), Memory>
    requires group { g < length tables.old.lasts.items }
    requires stage { (x : Start) → slice_get tables.old.lasts.items g ≡ Some x → x.life.stage ≡ Initializing }
    ensures requests { tables.new.requests ≡ tables.old.requests }
    ensures versions { tables.new.versions ≡ tables.old.versions }
    ensures does { (settings : Settings) (before : List Event) (body : List ℕ) (id : Option Id) (value : Json) (s : ℕ) → IsRead message.now body
        → message_of body ≡ outcome id value → is_first_result (message_of body) ≡ true → slice_get (map number_in tables.old.lasts.items) g ≡ Some s
        → outs.old ≡ []
        → IsShown body → AllAsking before → Known settings before → Settled settings before → CarriedStand settings carries.old before
        → Stands settings tables.old before → DocumentsStand settings nothing_owed tables.old before
        → OnOk result (Done (λ k events. AllStand settings k events) (first_result settings before s body)
        (with_cause before (FromServer s body)) [] (tables.new, nothing_owed) outs.new) }
    ensures carried { (settings : Settings) (before : List Event) (body : List ℕ) (id : Option Id) (value : Json) (s : ℕ) → IsRead message.now body
        → message_of body ≡ outcome id value → is_first_result (message_of body) ≡ true → slice_get (map number_in tables.old.lasts.items) g ≡ Some s
        → outs.old ≡ []
        → IsShown body → AllAsking before → Known settings before → Settled settings before → CarriedStand settings carries.old before
        → Stands settings tables.old before → DocumentsStand settings nothing_owed tables.old before
        → OnOk result (CarriedStand settings carries.new (behind (with_cause before (FromServer s body)) outs.new)) }
{
    let group = tables.group_number(g);
    let n = answered_number(message);
    let told = shown_of(alloc, message.result_bytes())?;
    let parted = parted_in(tables, carries, alloc, group, told.bytes())?;
    let kept = told.copy(alloc)?;
    let owed = tables.hear_result(alloc, g, n, encoding(message), kept, &parted)?;
    part_each(tables, alloc, outs, group, &parted)?;
    let text = initialized(alloc)?;
    tables.notify(outs, g, text)?;
    configure(tables, alloc, outs, g, carries.configuration(group))?;
    tables.pay(outs, owed)?;
    greet_all(tables, alloc, outs, group, told.bytes())?;
    send_held(tables, alloc, outs, g, group)?;
    carries.give(tables, group, told)?;
    Ok(())
}
