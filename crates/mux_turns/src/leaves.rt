//! L1: an editor that leaves.
ghost use Rattle.std.specs.Prelude.{◌≡◌, ◌<◌, ℕ, List, map, Some, length, IfOk, IfSome, OnOk, slice_get};
ghost use Rattle.event_model.specs.Does.{Does};
ghost use Rattle.event_model.specs.Event.{Event, behind};
ghost use Rattle.event_model.specs.Row.{each};
ghost use Rattle.event_model.specs.Settings.{Settings};
ghost use Rattle.group_facts.specs.group_rows.specs.Leaves.{cancel, cancel_text, cancels_row, leave_row};
ghost use Rattle.mux_tables.specs.Documents.{AllStand, DocumentsStand, Owed, nothing_owed};
ghost use Rattle.mux_tables.specs.Refusals.{asks_in};
ghost use Rattle.mux_tables.specs.Stands.{Stands, house_in, number_in, stage_in};
ghost use Rattle.mux_turns.specs.Leavings.{Leaves, Pays};

use itoa::Buffer;
use message_body::{Body, Memory};
use mux_history::Outs;
use mux_tables::Tables;
use rpc_message::notification;
use std::alloc::Global;

/// What an editor leaves at the last start of its group, which is ready.
#[derive(Drop)]
pub struct Departure {
    /// The place of the group.
    pub group: usize,
    /// Its number.
    pub editor: u64,
    /// The numbers, rising, of its open requests that it didn't cancel.
    pub requests: Vec<u32>,
}

/// The notification that cancels the request of a number (LSP 3.17, Cancellation Support).
pub fn cancel_request(alloc: Global, n: u128) -> Result<Body, Memory>
    ensures { IfOk result (λ body. body ≡ cancel_text n) }
{
    let mut digits = Buffer::new();
    let mut params = Vec::new(alloc);
    params.extend_from_slice("{\"id\":".as_bytes())?;
    params.extend_from_slice(digits.format(n).as_bytes())?;
    params.extend_from_slice("}".as_bytes())?;
    notification(alloc, "$/cancelRequest", Some(params.as_slice()))
}

// These requests are cancelled at the group's last start, in this order.
fn cancel_all(
    tables: &mut Tables,
    alloc: Global,
    outs: &mut Outs,
    g: usize,
    numbers: &[u32],
) -> Result<(), Memory>
    requires { g < length tables.old.lasts.items }
    ensures requests { tables.new.requests ≡ tables.old.requests }
    ensures versions { tables.new.versions ≡ tables.old.versions }
    ensures starts { OnOk result (map number_in tables.new.lasts.items ≡ map number_in tables.old.lasts.items) }
    ensures stages { OnOk result (map stage_in tables.new.lasts.items ≡ map stage_in tables.old.lasts.items) }
    ensures asks { OnOk result (map asks_in tables.new.lasts.items ≡ map asks_in tables.old.lasts.items) }
    ensures groups { OnOk result (map house_in tables.new.lasts.items ≡ map house_in tables.old.lasts.items) }
    ensures does { (settings : Settings) (base : List Event) (s : ℕ) → slice_get (map number_in tables.old.lasts.items) g ≡ Some s
        → OnOk result (Does (λ t events. Stands settings t events) (each (cancel s) numbers.now) base tables.old outs.old tables.new outs.new) }
    ensures documents { (settings : Settings) (owed : Owed) (base : List Event) → DocumentsStand settings owed tables.old (behind base outs.old)
        → OnOk result (DocumentsStand settings owed tables.new (behind base outs.new)) }
{
    for n in numbers {
        let text = cancel_request(alloc, u128::from(*n))?;
        tables.cancel(outs, g, *n, text)?;
    }
    Ok(())
}

/// L1: what an editor leaves, as it stands before anything is said; none where its group has no start that is ready.
pub fn leaving(tables: &Tables, e: u64) -> Result<Option<Departure>, Memory>
    ensures inside { IfOk result (λ o. IfSome o (λ l. l.group < length tables.now.lasts.items)) }
    ensures leaves { (settings : Settings) (before : List Event) → Stands settings tables.now before
        → IfOk result (λ o. Leaves settings before e tables.now.lasts.items o) }
{
    let Some(group) = tables.place(e) else {
        return Ok(None);
    };
    if !tables.stage(group).is_ready() {
        return Ok(None);
    }
    let requests = tables.uncancelled_of(group, e)?;
    Ok(Some(Departure {
        group,
        editor: e,
        requests,
    }))
}

// L1: the open requests of an editor that leaves are cancelled, numbers rising, and what the start asked of it is refused.
fn leave(
    tables: &mut Tables,
    alloc: Global,
    outs: &mut Outs,
    leaving: &Option<Departure>,
) -> Result<(), Memory>
    requires { IfSome leaving.now (λ l. l.group < length tables.old.lasts.items) }
    ensures requests { tables.new.requests ≡ tables.old.requests }
    ensures versions { tables.new.versions ≡ tables.old.versions }
    ensures starts { OnOk result (map number_in tables.new.lasts.items ≡ map number_in tables.old.lasts.items) }
    ensures stages { OnOk result (map stage_in tables.new.lasts.items ≡ map stage_in tables.old.lasts.items) }
    ensures groups { OnOk result (map house_in tables.new.lasts.items ≡ map house_in tables.old.lasts.items) }
    ensures does { (settings : Settings) (before base : List Event) (e : ℕ)
        → Leaves settings before e tables.old.lasts.items leaving.now
        → OnOk result (Does (λ t events. Stands settings t events) (cancels_row settings before e) base tables.old outs.old tables.new outs.new) }
    ensures documents { (settings : Settings) (owed : Owed) (before base : List Event) (e : ℕ)
        → Leaves settings before e tables.old.lasts.items leaving.now → Stands settings tables.old (behind base outs.old)
        → DocumentsStand settings owed tables.old (behind base outs.old)
        → OnOk result (DocumentsStand settings owed tables.new (behind base outs.new)) }
{
    match leaving {
        None => Ok(()),
        Some(left) => {
            cancel_all(tables, alloc, outs, left.group, &left.requests)?;
            tables.refuse_asks(alloc, outs, left.group, left.editor)?;
            Ok(())
        }
    }
}

/// L1: an editor leaves: what was looked up is cancelled, what the last start of its group asked of it is refused, and that start is sent the bodies that it is owed for the
/// editor's documents.
pub fn depart(
    tables: &mut Tables,
    alloc: Global,
    outs: &mut Outs,
    leaving: &Option<Departure>,
    owed: Outs,
) -> Result<(), Memory>
    requires { IfSome leaving.now (λ l. l.group < length tables.old.lasts.items) }
    ensures requests { tables.new.requests ≡ tables.old.requests }
    ensures versions { tables.new.versions ≡ tables.old.versions }
    ensures does { (settings : Settings) (before base : List Event) (e : ℕ) (owing : Owed)
        → Leaves settings before e tables.old.lasts.items leaving.now → Pays settings before e tables.old owed owing
        → OnOk result (Does (λ k events. AllStand settings k events) (leave_row settings before e) base
        (tables.old, owing) outs.old (tables.new, nothing_owed) outs.new) }
{
    leave(tables, alloc, outs, leaving)?;
    tables.pay(outs, owed)?;
    Ok(())
}
