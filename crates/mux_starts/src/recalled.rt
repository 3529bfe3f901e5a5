//! S14: a start cancels what it asked of one editor.
ghost use Rattle.std.specs.Prelude.{◌≡◌, ◌<◌, ◌^◌, ℕ, List, [], false, Option, Some, OnOk, find, length, map, option_map, slice_get};
ghost use Rattle.std.specs.List.{AllByRecursion};
ghost use Rattle.event_model.specs.declared.phase.Phase.TheVariants.{Running};
ghost use Rattle.event_model.specs.declared.stage.Stage.TheVariants.{Ready};
ghost use Rattle.event_model.specs.Does.{Does, Done};
ghost use Rattle.event_model.specs.Event.{Event, with_cause};
ghost use Rattle.event_model.specs.Phases.{desk_of};
ghost use Rattle.event_model.specs.Row.{send};
ghost use Rattle.event_model.specs.Settings.{Settings};
ghost use Rattle.group_rows.specs.Created.{is_progress};
ghost use Rattle.group_rows.specs.AskRows.{cancelled_row};
ghost use Rattle.group_rows.specs.Asks.{Ask, asks_of, is_under};
ghost use Rattle.group_rows.specs.Waiting.{named_id};
ghost use Rattle.group_rows.specs.Leaves.{cancel_text};
ghost use Rattle.group_rows.specs.Lists.{is_publishing};
ghost use Rattle.json_text.specs.Json.{Json};
ghost use Rattle.mux_history.specs.declared.cause.Cause.TheVariants.{FromServer};
ghost use Rattle.mux_history.specs.declared.out.Out.TheVariants.{ToEditor};
ghost use Rattle.mux_tables.specs.declared.tables.Start.{Start};
ghost use Rattle.mux_tables.specs.Documents.{AllStand, DocumentsStand, nothing_owed};
ghost use Rattle.mux_tables.specs.Refusals.{seat_from};
ghost use Rattle.mux_tables.specs.Stands.{Stands, number_in};
ghost use Rattle.rpc_message.specs.Message.{message_of, notification};
ghost use Rattle.rpc_message.specs.Parsed.{IsRead};

use message_body::Memory;
use mux_history::Outs;
use mux_members::cancelled_id;
use mux_tables::Tables;
use mux_tables::ask_route::Seat;
use mux_turns::cancel_request;
use rpc_message::Message;
use std::alloc::Global;

// The editor that was asked what a `$/cancelRequest` of the group's last start names, and the number under which it was.
fn named(tables: &Tables, g: usize, message: &Message) -> Option<Seat>
    requires { g < length tables.now.lasts.items }
    ensures { (settings : Settings) (before : List Event) (body method : List ℕ) (params : Option Json) (x : Start) → IsRead message.now body
        → message_of body ≡ notification method params → slice_get tables.now.lasts.items g ≡ Some x → x.life.stage ≡ Ready
        → Stands settings tables.now before
        → result ≡ option_map seat_from (find (is_under (named_id params)) (asks_of settings x.life.start before)) }
{
    let id = cancelled_id(message)?;
    tables.asked_under(g, id)
}

// An editor is told that its answer under a number is awaited no more (LSP 3.17, Cancellation Support).
fn recall(tables: &Tables, alloc: Global, outs: &mut Outs, e: u64, n: u128) -> Result<(), Memory>
    ensures does { (settings : Settings) (base : List Event) → n < 2 ^ 64
        → OnOk result (Does (λ k events. AllStand settings k events) (send (ToEditor e (cancel_text n))) base
        (tables.now, nothing_owed) outs.old (tables.now, nothing_owed) outs.new) }
{
    let text = cancel_request(alloc, n)?;
    tables.tell(outs, e, text)?;
    Ok(())
}

/// S14: a `$/cancelRequest` comes from the group's last start, which is ready. Where it names what one editor was asked, and didn't answer, that
/// editor is told so under the number of the ask; else it gives nothing. The editors that were asked run.
pub fn take_recall(
    tables: &mut Tables,
    alloc: Global,
    outs: &mut Outs,
    g: usize,
    message: &Message,
) -> Result<(), Memory>
    requires { g < length tables.old.lasts.items }
    ensures requests { tables.new.requests ≡ tables.old.requests }
    ensures versions { tables.new.versions ≡ tables.old.versions }
    ensures does { (settings : Settings) (before : List Event) (body method : List ℕ) (params : Option Json) (s : ℕ) (x : Start)
        → IsRead message.now body → message_of body ≡ notification method params → is_progress method ≡ false → is_publishing method ≡ false
        → AllByRecursion (λ (a : Ask). (desk_of a.editor before).phase ≡ Running) (asks_of settings s before) → outs.old ≡ []
        → slice_get tables.old.lasts.items g ≡ Some x → x.life.stage ≡ Ready → slice_get (map number_in tables.old.lasts.items) g ≡ Some s
        → Stands settings tables.old before → DocumentsStand settings nothing_owed tables.old before
        → OnOk result (Done (λ k events. AllStand settings k events) (cancelled_row settings s before params)
        (with_cause before (FromServer s body)) [] (tables.new, nothing_owed) outs.new) }
{
    let seat = named(tables, g, message);
    tables.hear_answer(g, None);
    match seat {
        None => Ok(()),
        Some(seat) => {
            recall(tables, alloc, outs, seat.editor, seat.number)?;
            Ok(())
        }
    }
}
