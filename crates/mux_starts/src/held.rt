//! S2: what waited goes to a start that gave its result, in the order in which it came.
ghost use Rattle.std.specs.Prelude.{◌≡◌, ◌<◌, ℕ, List, [], false, Option, Some, map, true, length, slice_get, IfOk, OnOk, MatchOption};
ghost use Rattle.event_model.specs.declared.stage.Stage.TheVariants.{Ready};
ghost use Rattle.event_model.specs.Does.{Does};
ghost use Rattle.event_model.specs.Event.{Event, behind};
ghost use Rattle.event_model.specs.Settings.{Settings};
ghost use Rattle.group_rows.specs.Rows.{has_room, send_held};
ghost use Rattle.group_rows.specs.Waiting.{waiting_of};
ghost use Rattle.json_text.specs.Json.{Json};
ghost use Rattle.mux_starts.specs.Held.{IsFirst, IsIdle, IsRefused, IsSending, Passes, Shrinks};
ghost use Rattle.mux_tables.specs.declared.tables.Start.{Start};
ghost use Rattle.mux_tables.specs.Documents.{AllStand, nothing_owed};
ghost use Rattle.mux_tables.specs.Stands.{Stands, house_in, number_in, stage_in};
ghost use Rattle.mux_tables.specs.mux_waits.specs.Rows.{held_of};
ghost use Rattle.rpc_message.specs.Message.{Id, message_of, request};

use message_body::{Body, Memory};
use mux_history::Outs;
use mux_tables::Tables;
use mux_tables::mux_waits::held_requests::Request;
use mux_turns::{forwarded_text, token_text};
use rpc_message::{ErrorCode, Message, error_answer};
use std::alloc::Global;

// The most bytes of a body of a cause.
const MOST: usize = 268_435_456;

/// A request that waited, as it goes on: its own id and tokens, and its text.
#[derive(Drop)]
struct Sending {
    editor: u64,
    id: Body,
    work: Option<Body>,
    partial: Option<Body>,
    text: Body,
}

// One as it goes on under this number. Its body was read as it came, so that only memory can fail.
fn sending_of(alloc: Global, held: &Request, n: u32) -> Result<Sending, Memory>
    ensures { (method : List ℕ) (id : Id) (params : Option Json) → message_of held.now.body ≡ request id method params → IfOk result (IsSending n held.now) }
{
    let bytes = held.body.bytes();
    if bytes.len() > MOST {
        return Err(Memory);
    }
    match Message::read(alloc, bytes) {
        Ok(message) => {
            let text = forwarded_text(alloc, &message, n)?;
            let id = held.id.copy(alloc)?;
            let work = token_text(alloc, &message, "workDoneToken")?;
            let partial = token_text(alloc, &message, "partialResultToken")?;
            Ok(Sending {
                editor: held.editor,
                id,
                work,
                partial,
                text,
            })
        }
        Err(_) => Err(Memory),
    }
}

// What waits longest in the group of this number, as it goes on under the next number of its last start, where something waits.
fn first_sending(
    tables: &Tables,
    alloc: Global,
    g: usize,
    group: u64,
) -> Result<Option<Sending>, Memory>
    requires group { g < length tables.now.lasts.items }
    requires left { (x : Start) → slice_get tables.now.lasts.items g ≡ Some x → x.ids.next < x.ids.limit }
    ensures kept { IfOk result (λ o. MatchOption o (Unit {0}) (λ w. 0 < length (held_of group tables.now.origins.waiting))) }
    ensures first { (settings : Settings) (before : List Event) (x : Start) → slice_get tables.now.lasts.items g ≡ Some x → Stands settings tables.now before
        → IfOk result (λ o. MatchOption o (waiting_of settings group before ≡ []) (IsFirst settings group x.ids.next before)) }
{
    let n = tables.next_number(g);
    match tables.first_waiting(group) {
        None => Ok(None),
        Some(held) => {
            let sending = sending_of(alloc, held, n)?;
            Ok(Some(sending))
        }
    }
}

// It goes to the group's last start, under the next number, behind a sync; says whether something waited.
fn send_next(
    tables: &mut Tables,
    alloc: Global,
    outs: &mut Outs,
    g: usize,
    group: u64,
) -> Result<bool, Memory>
    requires group { g < length tables.old.lasts.items }
    requires own { (x : Start) → slice_get tables.old.lasts.items g ≡ Some x → x.life.group ≡ group }
    requires left { (x : Start) → slice_get tables.old.lasts.items g ≡ Some x → x.ids.next < x.ids.limit }
    requires ready { (x : Start) → slice_get tables.old.lasts.items g ≡ Some x → x.life.stage ≡ Ready }
    ensures requests { tables.new.requests ≡ tables.old.requests }
    ensures versions { tables.new.versions ≡ tables.old.versions }
    ensures starts { OnOk result (map number_in tables.new.lasts.items ≡ map number_in tables.old.lasts.items) }
    ensures stages { OnOk result (map stage_in tables.new.lasts.items ≡ map stage_in tables.old.lasts.items) }
    ensures groups { OnOk result (map house_in tables.new.lasts.items ≡ map house_in tables.old.lasts.items) }
    ensures left { IfOk result (λ more. Shrinks group more tables.old.origins.waiting tables.new.origins.waiting) }
    ensures does { (settings : Settings) (base : List Event) (s : ℕ) → slice_get (map number_in tables.old.lasts.items) g ≡ Some s → IsIdle settings s base
        → (Stands settings tables.old (behind base outs.old) → has_room settings s (behind base outs.old) ≡ true)
        → IfOk result (λ more. Passes settings base group s more tables.old outs.old tables.new outs.new) }
{
    let first = first_sending(tables, alloc, g, group)?;
    match first {
        None => Ok(false),
        Some(sending) => {
            let Sending {
                editor,
                id,
                work,
                partial,
                text,
            } = sending;
            tables.send_first(alloc, outs, g, editor, id, work, partial, text)?;
            Ok(true)
        }
    }
}

/// The answer to a request that waited, where no number is left.
#[derive(Drop)]
struct Refusal {
    editor: u64,
    body: Body,
}

// The same of what waits longest in the group of this number, where something waits.
fn first_refusal(tables: &Tables, alloc: Global, group: u64) -> Result<Option<Refusal>, Memory>
    ensures kept { IfOk result (λ o. MatchOption o (Unit {0}) (λ w. 0 < length (held_of group tables.now.origins.waiting))) }
    ensures first { (settings : Settings) (before : List Event) → Stands settings tables.now before
        → IfOk result (λ o. MatchOption o (waiting_of settings group before ≡ []) (IsRefused settings group before)) }
{
    match tables.first_waiting(group) {
        None => Ok(None),
        Some(held) => {
            let body = error_answer(alloc, held.id.bytes(), ErrorCode::RequestFailed)?;
            Ok(Some(Refusal {
                editor: held.editor,
                body,
            }))
        }
    }
}

// It is refused; says whether something waited.
fn refuse_next(
    tables: &mut Tables,
    alloc: Global,
    outs: &mut Outs,
    group: u64,
) -> Result<bool, Memory>
    ensures requests { tables.new.requests ≡ tables.old.requests }
    ensures versions { tables.new.versions ≡ tables.old.versions }
    ensures lasts { tables.new.lasts ≡ tables.old.lasts }
    ensures left { IfOk result (λ more. Shrinks group more tables.old.origins.waiting tables.new.origins.waiting) }
    ensures does { (settings : Settings) (base : List Event) (s : ℕ)
        → (Stands settings tables.old (behind base outs.old) → has_room settings s (behind base outs.old) ≡ false)
        → IfOk result (λ more. Passes settings base group s more tables.old outs.old tables.new outs.new) }
{
    let first = first_refusal(tables, alloc, group)?;
    match first {
        None => Ok(false),
        Some(refusal) => {
            let Refusal { editor, body } = refusal;
            tables.answer_first(outs, group, editor, body)?;
            Ok(true)
        }
    }
}

// What waits longest goes on, or is refused where no number is left; says whether something waited.
fn pass_next(
    tables: &mut Tables,
    alloc: Global,
    outs: &mut Outs,
    g: usize,
    group: u64,
) -> Result<bool, Memory>
    requires group { g < length tables.old.lasts.items }
    requires own { (x : Start) → slice_get tables.old.lasts.items g ≡ Some x → x.life.group ≡ group }
    requires ready { (x : Start) → slice_get tables.old.lasts.items g ≡ Some x → x.life.stage ≡ Ready }
    ensures requests { tables.new.requests ≡ tables.old.requests }
    ensures versions { tables.new.versions ≡ tables.old.versions }
    ensures starts { OnOk result (map number_in tables.new.lasts.items ≡ map number_in tables.old.lasts.items) }
    ensures stages { OnOk result (map stage_in tables.new.lasts.items ≡ map stage_in tables.old.lasts.items) }
    ensures groups { OnOk result (map house_in tables.new.lasts.items ≡ map house_in tables.old.lasts.items) }
    ensures left { IfOk result (λ more. Shrinks group more tables.old.origins.waiting tables.new.origins.waiting) }
    ensures does { (settings : Settings) (base : List Event) (s : ℕ) → slice_get (map number_in tables.old.lasts.items) g ≡ Some s → IsIdle settings s base
        → IfOk result (λ more. Passes settings base group s more tables.old outs.old tables.new outs.new) }
{
    if tables.can_ask(g) {
        send_next(tables, alloc, outs, g, group)
    } else {
        refuse_next(tables, alloc, outs, group)
    }
}

/// S2: what waits in the group of this number goes to its last start, which gave its result, in the order in which it came, each under the
/// next number, behind a sync; where no number is left it is refused.
pub fn send_held(
    tables: &mut Tables,
    alloc: Global,
    outs: &mut Outs,
    g: usize,
    group: u64,
) -> Result<(), Memory>
    requires group { g < length tables.old.lasts.items }
    requires own { (x : Start) → slice_get tables.old.lasts.items g ≡ Some x → x.life.group ≡ group }
    requires ready { (x : Start) → slice_get tables.old.lasts.items g ≡ Some x → x.life.stage ≡ Ready }
    ensures requests { tables.new.requests ≡ tables.old.requests }
    ensures versions { tables.new.versions ≡ tables.old.versions }
    ensures does { (settings : Settings) (base : List Event) (s : ℕ) → slice_get (map number_in tables.old.lasts.items) g ≡ Some s → IsIdle settings s base
        → OnOk result (Does (λ k events. AllStand settings k events) (send_held settings s group) base
        (tables.old, nothing_owed) outs.old (tables.new, nothing_owed) outs.new) }
{
    let mut more = true;
    while more {
        more = pass_next(tables, alloc, outs, g, group)?;
    }
    Ok(())
}
