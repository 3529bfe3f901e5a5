//! S15: a start publishes diagnostics (LSP 3.17, Publish Diagnostics).
ghost use Rattle.std.specs.Prelude.{◌≡◌, ◌<◌, ℕ, List, [], Option, Some, IfOk, OnOk, length, map, slice_get, true};
ghost use Rattle.std.specs.List.{All, AllByRecursion};
ghost use Rattle.event_model.specs.declared.stage.Stage.TheVariants.{Ready};
ghost use Rattle.event_model.specs.Does.{Does, Done};
ghost use Rattle.event_model.specs.Event.{Event, with_cause};
ghost use Rattle.event_model.specs.Row.{each};
ghost use Rattle.event_model.specs.Settings.{Settings};
ghost use Rattle.group_rows.specs.ListRows.{list_row};
ghost use Rattle.group_rows.specs.Lists.{is_publishing};
ghost use Rattle.json_text.specs.Json.{Json};
ghost use Rattle.mux_history.specs.declared.cause.Cause.TheVariants.{FromServer};
ghost use Rattle.mux_starts.specs.Lists.{IsInside, IsListed, all_shown, tell};
ghost use Rattle.mux_starts.specs.group_facts.specs.Facts.{Meant};
ghost use Rattle.mux_tables.specs.declared.tables.Start.{Start};
ghost use Rattle.mux_tables.specs.Documents.{AllStand, DocumentsStand, nothing_owed};
ghost use Rattle.mux_tables.specs.Stands.{Stands, number_in};
ghost use Rattle.rpc_message.specs.Message.{message_of, notification};
ghost use Rattle.rpc_message.specs.Parsed.{IsRead};

use crate::progress::Telling;
use message_body::Memory;
use mux_history::Outs;
use mux_tables::Tables;
use mux_tables::diagnostics_route::{LastList, published, shown};
use rpc_message::Message;
use std::alloc::Global;

// What those of these editors that a list of the group's last start fits are shown of it, in this order.
fn shown_to(
    tables: &Tables,
    alloc: Global,
    g: usize,
    numbers: &[u64],
    message: &Message,
    list: &LastList,
) -> Result<Vec<Telling>, Memory>
    requires { g < length tables.now.lasts.items }
    ensures inside { (n : ℕ) → All (λ e. e < n) numbers.now → IfOk result (λ tellings. AllByRecursion (IsInside n) tellings.items) }
    ensures shown { (settings : Settings) (before : List Event) (x : Start) → IsRead message.now list.now.body
        → slice_get tables.now.lasts.items g ≡ Some x → x.life.stage ≡ Ready
        → Stands settings tables.now before → DocumentsStand settings nothing_owed tables.now before
        → IfOk result (λ tellings. tellings.items ≡ all_shown settings before x.life.start list.now numbers.now) }
{
    let mut tellings = Vec::new(alloc);
    for e in numbers {
        if tables.fits(g, *e, list) {
            let own = tables.own_version(g, *e, list.uri.bytes());
            let text = shown(alloc, message, own)?;
            tellings.push(Telling { editor: *e, text })?;
        }
    }
    Ok(tellings)
}

// Each is told its list of the document of this URI, which is empty or isn't, in this order.
fn tell_each(
    tables: &mut Tables,
    outs: &mut Outs,
    uri: &[u8],
    empty: bool,
    tellings: Vec<Telling>,
) -> Result<(), Memory>
    requires { AllByRecursion (IsInside (length tables.old.editors)) tellings.items }
    ensures requests { tables.new.requests ≡ tables.old.requests }
    ensures versions { tables.new.versions ≡ tables.old.versions }
    ensures does { (settings : Settings) (base : List Event) → AllByRecursion (IsListed uri.now empty) tellings.items
        → OnOk result (Does (λ k events. AllStand settings k events) (each tell tellings.items) base
        (tables.old, nothing_owed) outs.old (tables.new, nothing_owed) outs.new) }
{
    for telling in tellings {
        let Telling { editor, text } = telling;
        tables.show(outs, editor, uri, empty, text)?;
    }
    Ok(())
}

/// S15: a `textDocument/publishDiagnostics` comes from the group's last start, which is ready. Where it has a string uri and an array of
/// diagnostics it is the last list of that document from now on, and each editor of the group that runs and that it fits is shown it, rising,
/// with its own version of the document in the place of the start's, and without one where the document isn't open there. Else it gives
/// nothing. It takes time in the bytes that it sends, in how many editors there are, and for each of these in the logarithm of how many
/// documents it has diagnostics of.
pub fn take_list(
    tables: &mut Tables,
    alloc: Global,
    outs: &mut Outs,
    g: usize,
    message: &Message,
) -> Result<(), Memory>
    requires { g < length tables.old.lasts.items }
    ensures requests { tables.new.requests ≡ tables.old.requests }
    ensures versions { tables.new.versions ≡ tables.old.versions }
    ensures does { (settings : Settings) (before : List Event) (body method : List ℕ) (params : Option Json) (s : ℕ) (x : Start)
        → IsRead message.now body → message_of body ≡ notification method params → is_publishing method ≡ true → outs.old ≡ []
        → slice_get tables.old.lasts.items g ≡ Some x → x.life.stage ≡ Ready → slice_get (map number_in tables.old.lasts.items) g ≡ Some s
        → Meant before → Stands settings tables.old before → DocumentsStand settings nothing_owed tables.old before
        → OnOk result (Done (λ k events. AllStand settings k events) (list_row settings s before body)
        (with_cause before (FromServer s body)) [] (tables.new, nothing_owed) outs.new) }
{
    let place = tables.notices_sent(g);
    let found = published(alloc, message, place)?;
    match found {
        None => {
            tables.hear_answer(g, None);
            Ok(())
        }
        Some(list) => {
            let group = tables.group_number(g);
            let numbers = tables.running(group)?;
            let tellings = shown_to(tables, alloc, g, &numbers, message, &list)?;
            let uri = list.uri.copy(alloc)?;
            let empty = list.empty;
            tables.publish(g, list)?;
            tell_each(tables, outs, uri.bytes(), empty, tellings)?;
            Ok(())
        }
    }
}
