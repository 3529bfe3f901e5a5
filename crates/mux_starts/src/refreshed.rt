//! S9: a start asks all editors of its group to refresh something.
ghost use Rattle.std.specs.Prelude.{◌≡◌, ◌<◌, ℕ, List, [], Option, Some, IfOk, OnOk, false, filter, length, map, true, slice_get};
ghost use Rattle.std.specs.List.{All, AllByRecursion};
ghost use Rattle.event_model.specs.declared.stage.Stage.TheVariants.{Ready};
ghost use Rattle.event_model.specs.Does.{Does, Done};
ghost use Rattle.event_model.specs.Event.{Event, behind, with_cause};
ghost use Rattle.event_model.specs.Phases.{desk_of, is_running};
ghost use Rattle.event_model.specs.Row.{each};
ghost use Rattle.event_model.specs.Settings.{Settings};
ghost use Rattle.group_rows.specs.AskRows.{ask, refresh_row};
ghost use Rattle.group_rows.specs.Asks.{asking_of, is_patient, is_single, is_taken};
ghost use Rattle.group_rows.specs.Created.{is_creating};
ghost use Rattle.group_rows.specs.Debts.{agrees_on_all};
ghost use Rattle.group_rows.specs.Live.{is_registering};
ghost use Rattle.json_text.specs.Json.{Json};
ghost use Rattle.mux_history.specs.declared.cause.Cause.TheVariants.{FromServer};
ghost use Rattle.mux_tables.specs.declared.tables.Start.{Start};
ghost use Rattle.mux_tables.specs.Documents.{AllStand, DocumentsStand, nothing_owed};
ghost use Rattle.mux_tables.specs.Stands.{IsAtRest, Stands, number_in};
ghost use Rattle.rpc_message.specs.Message.{Id, message_of, request};
ghost use Rattle.rpc_message.specs.Parsed.{IsRead};

use message_body::Memory;
use mux_history::Outs;
use mux_tables::Tables;
use rpc_message::{Message, ok_reply};
use std::alloc::Global;

// Each of these editors, which run, is asked, in this order; their answers end here.
fn ask_all(
    tables: &mut Tables,
    alloc: Global,
    outs: &mut Outs,
    numbers: &[u64],
    message: &Message,
) -> Result<(), Memory>
    requires { All (λ e. e < length tables.old.editors) numbers.now }
    ensures requests { tables.new.requests ≡ tables.old.requests }
    ensures versions { tables.new.versions ≡ tables.old.versions }
    ensures does { (settings : Settings) (base : List Event) (body method : List ℕ) (id : Id) (params : Option Json) → IsRead message.now body
        → message_of body ≡ request id method params → is_creating method ≡ false → is_patient method ≡ false
        → AllByRecursion (λ e. is_running (desk_of e (behind base outs.old)).phase ≡ true) numbers.now
        → ((s : ℕ) → IsAtRest settings s (behind base outs.old))
        → OnOk result (Does (λ k events. AllStand settings k events) (each (ask body) numbers.now) base (tables.old, nothing_owed) outs.old (tables.new, nothing_owed) outs.new) }
{
    for e in numbers {
        tables.question(alloc, outs, *e, message)?;
    }
    Ok(())
}

// Those of these editors that agree with the group's last start, which is ready, on each document that they have open.
fn agreeing(tables: &Tables, alloc: Global, g: usize, numbers: &[u64]) -> Result<Vec<u64>, Memory>
    requires { g < length tables.now.lasts.items }
    ensures those { (settings : Settings) (events : List Event) (x : Start) → slice_get tables.now.lasts.items g ≡ Some x → x.life.stage ≡ Ready
        → Stands settings tables.now events → DocumentsStand settings nothing_owed tables.now events
        → IfOk result (λ those. those.items ≡ filter (agrees_on_all settings x.life.start events) numbers.now) }
    ensures inside { (n : ℕ) → All (λ e. e < n) numbers.now → IfOk result (λ those. All (λ e. e < n) those.items) }
{
    let mut those = Vec::new(alloc);
    for e in numbers {
        let agrees = tables.agrees_on_all(g, *e)?;
        if agrees {
            those.push(*e)?;
        }
    }
    Ok(those)
}

/// S9: a request of class Refresh comes from the group's last start, which is ready, under the id of no open ask: it is answered at once, and
/// each editor of the group that runs and agrees with the start on all that it has open is asked, rising. It takes time in the bytes that it
/// sends, and for each editor that runs as long as a sync that sends nothing.
pub fn take_refresh(
    tables: &mut Tables,
    alloc: Global,
    outs: &mut Outs,
    g: usize,
    message: &Message,
) -> Result<(), Memory>
    requires { g < length tables.old.lasts.items }
    ensures requests { tables.new.requests ≡ tables.old.requests }
    ensures versions { tables.new.versions ≡ tables.old.versions }
    ensures does { (settings : Settings) (before : List Event) (body method : List ℕ) (id : Id) (params : Option Json) (s : ℕ) (x : Start)
        → IsRead message.now body → message_of body ≡ request id method params → is_single method ≡ false → is_patient method ≡ false
        → is_registering method ≡ false → is_creating method ≡ false → is_taken (Some id) (asking_of settings s before) ≡ false → outs.old ≡ []
        → slice_get tables.old.lasts.items g ≡ Some x → x.life.stage ≡ Ready → slice_get (map number_in tables.old.lasts.items) g ≡ Some s
        → Stands settings tables.old before → DocumentsStand settings nothing_owed tables.old before
        → OnOk result (Done (λ k events. AllStand settings k events) (refresh_row settings before x.life.group s body)
        (with_cause before (FromServer s body)) [] (tables.new, nothing_owed) outs.new) }
{
    let group = tables.group_number(g);
    let numbers = tables.running(group)?;
    let those = agreeing(tables, alloc, g, &numbers)?;
    tables.hear_answer(g, None);
    let text = ok_reply(alloc, message.id_bytes(), b"null")?;
    tables.respond(outs, g, text)?;
    ask_all(tables, alloc, outs, &those, message)?;
    Ok(())
}
