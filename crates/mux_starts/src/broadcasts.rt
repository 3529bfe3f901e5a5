//! What a start tells all editors: a notification without a row of its own.
ghost use Rattle.std.specs.Prelude.{◌≡◌, ◌<◌, ℕ, List, [], false, Option, Some, length, map, OnOk, slice_get};
ghost use Rattle.event_model.specs.declared.stage.Stage.TheVariants.{Ready};
ghost use Rattle.event_model.specs.Does.{Does, Done};
ghost use Rattle.event_model.specs.Event.{Event, behind, with_cause};
ghost use Rattle.event_model.specs.Row.{each};
ghost use Rattle.event_model.specs.Settings.{Settings};
ghost use Rattle.group_rows.specs.Created.{is_progress};
ghost use Rattle.group_rows.specs.AskRows.{broadcast, broadcast_row};
ghost use Rattle.group_rows.specs.Lists.{is_publishing};
ghost use Rattle.json_text.specs.Json.{Json};
ghost use Rattle.mux_history.specs.declared.cause.Cause.TheVariants.{FromServer};
ghost use Rattle.mux_tables.specs.declared.tables.Start.{Start};
ghost use Rattle.mux_tables.specs.Documents.{AllStand, DocumentsStand, Owed, nothing_owed};
ghost use Rattle.mux_tables.specs.Stands.{Stands, number_in};
ghost use Rattle.rpc_message.specs.Message.{message_of, notification};
ghost use Rattle.rpc_message.specs.Parsed.{IsRead};

use message_body::{Body, Memory};
use mux_history::Outs;
use mux_tables::Tables;
use rpc_message::Message;
use std::alloc::Global;

/// A notification goes to these editors, in this order.
pub fn spread(
    tables: &Tables,
    alloc: Global,
    outs: &mut Outs,
    numbers: &[u64],
    body: &[u8],
) -> Result<(), Memory>
    ensures does { (settings : Settings) (base : List Event) (method : List ℕ) (params : Option Json) → is_publishing method ≡ false → message_of body.now ≡ notification method params
        → OnOk result (Does (λ t events. Stands settings t events) (each (broadcast body.now) numbers.now) base tables.now outs.old tables.now outs.new) }
    ensures documents { (settings : Settings) (owed : Owed) (base : List Event) → DocumentsStand settings owed tables.now (behind base outs.old)
        → OnOk result (DocumentsStand settings owed tables.now (behind base outs.new)) }
{
    for e in numbers {
        let text = Body::new(Vec::from_slice(alloc, body)?);
        tables.tell(outs, *e, text)?;
    }
    Ok(())
}

/// A notification without a row of its own comes from the group's last start, which is ready: it goes as it came to each editor of the
/// group that runs, rising. It takes time in the bytes that it sends, and in how many editors there are.
pub fn take_broadcast(
    tables: &mut Tables,
    alloc: Global,
    outs: &mut Outs,
    g: usize,
    message: &Message,
) -> Result<(), Memory>
    requires { g < length tables.old.lasts.items }
    ensures requests { tables.new.requests ≡ tables.old.requests }
    ensures versions { tables.new.versions ≡ tables.old.versions }
    ensures does { (settings : Settings) (before : List Event) (body method : List ℕ) (params : Option Json) (s : ℕ) (x : Start)
        → IsRead message.now body → message_of body ≡ notification method params → is_progress method ≡ false → is_publishing method ≡ false → outs.old ≡ []
        → slice_get tables.old.lasts.items g ≡ Some x → x.life.stage ≡ Ready → slice_get (map number_in tables.old.lasts.items) g ≡ Some s
        → Stands settings tables.old before → DocumentsStand settings nothing_owed tables.old before
        → OnOk result (Done (λ k events. AllStand settings k events) (broadcast_row settings before s body)
        (with_cause before (FromServer s body)) [] (tables.new, nothing_owed) outs.new) }
{
    let group = tables.group_number(g);
    let numbers = tables.running(group)?;
    tables.hear_answer(g, None);
    spread(tables, alloc, outs, &numbers, message.bytes())?;
    Ok(())
}
