//! S4: what a start that gave no result yet says besides, and which message is S3.
ghost use Rattle.std.specs.Prelude.{◌≡◌, ◌<◌, ℕ, List, [], Option, Some, map, length, IfOk, OnOk, slice_get};
ghost use Rattle.event_model.specs.declared.stage.Stage.TheVariants.{Initializing};
ghost use Rattle.event_model.specs.Does.{Done};
ghost use Rattle.event_model.specs.Event.{Event, with_cause};
ghost use Rattle.event_model.specs.Settings.{Settings};
ghost use Rattle.group_rows.specs.Forwarded.{names};
ghost use Rattle.group_rows.specs.Rows.{hasty_answer, hasty_row};
ghost use Rattle.group_words.specs.Houses.{is_first_error};
ghost use Rattle.json_text.specs.Json.{Json};
ghost use Rattle.mux_history.specs.declared.cause.Cause.TheVariants.{FromServer};
ghost use Rattle.mux_tables.specs.declared.tables.Start.{Start};
ghost use Rattle.mux_tables.specs.Documents.{AllStand, DocumentsStand, nothing_owed};
ghost use Rattle.mux_tables.specs.Stands.{NamesAt, Stands, number_in};
ghost use Rattle.rpc_message.specs.Message.{Id, message_of, request};
ghost use Rattle.rpc_message.specs.Parsed.{IsRead};

use message_body::{Body, Memory};
use mux_history::Outs;
use mux_members::is_message_request;
use mux_tables::Tables;
use mux_turns::answered_number;
use rpc_message::{ErrorCode, Message, Sort, error_answer, ok_reply};
use std::alloc::Global;

// Whether an id writes the number 1.
fn is_first(n: Option<u32>) -> bool
    ensures { (id : Option Id) → NamesAt id n → result ≡ names id 1 }
{
    match n {
        Some(k) => k == 1,
        None => false,
    }
}

/// S3: whether a message is the error under the number 1, which the `initialize` of the multiplexer's own has.
pub fn is_first_error(message: &Message) -> bool
    ensures { (body : List ℕ) → IsRead message.now body → result ≡ is_first_error (message_of body) }
{
    match message.sort() {
        Sort::Error => is_first(answered_number(message)),
        _ => false,
    }
}

// What such a start gets for a request.
fn hasty_answer(alloc: Global, message: &Message) -> Result<Body, Memory>
    ensures { (body method : List ℕ) (id : Id) (params : Option Json) → IsRead message.now body → message_of body ≡ request id method params
        → IfOk result (λ text. text ≡ hasty_answer method body) }
{
    if is_message_request(message) {
        ok_reply(alloc, message.id_bytes(), b"null")
    } else {
        error_answer(alloc, message.id_bytes(), ErrorCode::InvalidRequest)
    }
}

/// S4: a request comes from the group's last start before its first result: it is answered at once (LSP 3.17, Initialize Request).
pub fn take_hasty(
    tables: &mut Tables,
    alloc: Global,
    outs: &mut Outs,
    g: usize,
    message: &Message,
) -> Result<(), Memory>
    requires group { g < length tables.old.lasts.items }
    requires stage { (x : Start) → slice_get tables.old.lasts.items g ≡ Some x → x.life.stage ≡ Initializing }
    ensures requests { tables.new.requests ≡ tables.old.requests }
    ensures versions { tables.new.versions ≡ tables.old.versions }
    ensures does { (settings : Settings) (before : List Event) (body method : List ℕ) (id : Id) (params : Option Json) (s : ℕ)
        → IsRead message.now body → message_of body ≡ request id method params → outs.old ≡ []
        → slice_get (map number_in tables.old.lasts.items) g ≡ Some s
        → Stands settings tables.old before → DocumentsStand settings nothing_owed tables.old before
        → OnOk result (Done (λ k events. AllStand settings k events) (hasty_row s body (request id method params))
        (with_cause before (FromServer s body)) [] (tables.new, nothing_owed) outs.new) }
{
    let text = hasty_answer(alloc, message)?;
    tables.hear_answer(g, None);
    tables.notify(outs, g, text)?;
    Ok(())
}
