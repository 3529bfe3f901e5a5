//! S13: what a start tells of an editor's open request, and of a token that it created (LSP 3.17, Work Done Progress and Partial Result
//! Progress).
ghost use Rattle.std.specs.Prelude.{◌≡◌, ◌<◌, ℕ, List, [], Option, Some, IfOk, OnOk, false, is_some, length, map, slice_get, true};
ghost use Rattle.event_model.specs.declared.stage.Stage.TheVariants.{Ready};
ghost use Rattle.event_model.specs.Does.{Does, Done};
ghost use Rattle.event_model.specs.Event.{Event, with_cause};
ghost use Rattle.event_model.specs.Row.{each, send};
ghost use Rattle.event_model.specs.Settings.{Settings};
ghost use Rattle.group_rows.specs.AskRows.{broadcast};
ghost use Rattle.group_rows.specs.Created.{created_of, created_text, is_progress, named_token, token_called};
ghost use Rattle.group_rows.specs.CreatedRows.{progress_row};
ghost use Rattle.group_rows.specs.Lists.{is_publishing};
ghost use Rattle.group_rows.specs.Tokens.{marked_text};
ghost use Rattle.json_text.specs.Json.{Json};
ghost use Rattle.mux_history.specs.declared.cause.Cause.TheVariants.{FromServer};
ghost use Rattle.mux_history.specs.declared.out.Out.TheVariants.{ToEditor};
ghost use Rattle.mux_starts.specs.Progress.{Passes};
ghost use Rattle.mux_tables.specs.declared.tables.Start.{Start};
ghost use Rattle.mux_tables.specs.Documents.{AllStand, DocumentsStand, nothing_owed};
ghost use Rattle.mux_tables.specs.Stands.{Stands, number_in};
ghost use Rattle.rpc_message.specs.Message.{message_of, notification};
ghost use Rattle.rpc_message.specs.Parsed.{IsRead};

use crate::broadcasts::spread;
use crate::creates::{Due, due_of};
use message_body::{Body, Memory};
use mux_history::Outs;
use mux_members::cancelled_token;
use mux_tables::Tables;
use mux_turns::{kind_of, marked, marked_text, told_text};
use rpc_message::Message;
use std::alloc::Global;

/// What an editor is told.
#[derive(Debug, Drop)]
pub struct Telling {
    pub editor: u64,
    pub text: Body,
}

// What a notification of the group's last start tells of an open request, with the editor's own token.
fn telling_of(
    tables: &Tables,
    alloc: Global,
    g: usize,
    message: &Message,
) -> Result<Option<Telling>, Memory>
    requires { g < length tables.now.lasts.items }
    ensures { (settings : Settings) (before : List Event) (body method : List ℕ) (params : Option Json) (s : ℕ) → IsRead message.now body
        → message_of body ≡ notification method params → slice_get (map number_in tables.now.lasts.items) g ≡ Some s → Stands settings tables.now before
        → IfOk result (Passes settings s before body method params) }
{
    let k = marked(alloc, message)?;
    match tables.told_of(g, k) {
        None => Ok(None),
        Some(told) => {
            let text = marked_text(alloc, message, told.token.bytes())?;
            Ok(Some(Telling {
                editor: told.editor,
                text,
            }))
        }
    }
}

// The editor is told so.
fn tell(tables: &Tables, outs: &mut Outs, telling: Telling) -> Result<(), Memory>
    ensures does { (settings : Settings) (base : List Event) (method : List ℕ) (params : Option Json) → is_publishing method ≡ false → message_of telling.text ≡ notification method params
        → OnOk result (Does (λ k events. AllStand settings k events) (send (ToEditor telling.editor telling.text)) base
        (tables.now, nothing_owed) outs.old (tables.now, nothing_owed) outs.new) }
{
    tables.tell(outs, telling.editor, telling.text)?;
    Ok(())
}

// A notification of a live token of the group's last start is heard.
fn hear_due(tables: &mut Tables, alloc: Global, g: usize, message: &Message) -> Result<(), Memory>
    requires { g < length tables.old.lasts.items }
    ensures requests { tables.new.requests ≡ tables.old.requests }
    ensures versions { tables.new.versions ≡ tables.old.versions }
    ensures starts { map number_in tables.new.lasts.items ≡ map number_in tables.old.lasts.items }
    ensures stands { (settings : Settings) (before : List Event) (body method : List ℕ) (params : Option Json) (s : ℕ) (x : Start)
        → IsRead message.now body → message_of body ≡ notification method params → is_progress method ≡ true
        → is_some (token_called (named_token params) (created_of settings x.life.start before)) ≡ true
        → slice_get tables.old.lasts.items g ≡ Some x → x.life.stage ≡ Ready → slice_get (map number_in tables.old.lasts.items) g ≡ Some s
        → Stands settings tables.old before → DocumentsStand settings nothing_owed tables.old before
        → OnOk result (AllStand settings (tables.new, nothing_owed) (with_cause before (FromServer s body))) }
{
    let Some(token) = cancelled_token(message) else {
        return Ok(())
    };
    let kind = kind_of(alloc, message)?;
    let body = Body::new(Vec::from_slice(alloc, message.bytes())?);
    tables.hear_progress(g, token, &body, kind)?;
    Ok(())
}

// A notification of the group's last start is heard. `due` says whether it tells of a live token that the start created.
fn hear(
    tables: &mut Tables,
    alloc: Global,
    g: usize,
    message: &Message,
    due: bool,
) -> Result<(), Memory>
    requires { g < length tables.old.lasts.items }
    ensures requests { tables.new.requests ≡ tables.old.requests }
    ensures versions { tables.new.versions ≡ tables.old.versions }
    ensures starts { map number_in tables.new.lasts.items ≡ map number_in tables.old.lasts.items }
    ensures stands { (settings : Settings) (before : List Event) (body method : List ℕ) (params : Option Json) (s : ℕ) (x : Start)
        → IsRead message.now body → message_of body ≡ notification method params → is_progress method ≡ true
        → due ≡ is_some (token_called (named_token params) (created_of settings x.life.start before))
        → slice_get tables.old.lasts.items g ≡ Some x → x.life.stage ≡ Ready → slice_get (map number_in tables.old.lasts.items) g ≡ Some s
        → Stands settings tables.old before → DocumentsStand settings nothing_owed tables.old before
        → OnOk result (AllStand settings (tables.new, nothing_owed) (with_cause before (FromServer s body))) }
{
    if due {
        hear_due(tables, alloc, g, message)
    } else {
        tables.hear_answer(g, None);
        Ok(())
    }
}

// Each of these editors is told of the token, with the daemon's own in its place.
fn tell_due(
    tables: &Tables,
    alloc: Global,
    outs: &mut Outs,
    g: usize,
    message: &Message,
    due: &Due,
) -> Result<(), Memory>
    requires { g < length tables.now.lasts.items }
    ensures does { (settings : Settings) (base : List Event) (body method : List ℕ) (params : Option Json) (s : ℕ)
        → IsRead message.now body → message_of body ≡ notification method params → is_publishing method ≡ false
        → slice_get (map number_in tables.now.lasts.items) g ≡ Some s
        → OnOk result (Does (λ k events. AllStand settings k events)
        (each (broadcast (marked_text (created_text s due.now.token) body)) due.now.editors.items) base
        (tables.now, nothing_owed) outs.old (tables.now, nothing_owed) outs.new) }
{
    let text = told_text(alloc, message, tables.start_number(g), due.token)?;
    spread(tables, alloc, outs, &due.editors, text.bytes())?;
    Ok(())
}

/// S13: a `$/progress` comes from the group's last start, which is ready. Where its token is the daemon's of an open request, and the
/// editor of that request runs or is down, the editor is told it with its own token. Where it is a token that the start created and that
/// lives, each editor of the group that runs and accepted it is told it, rising, with the daemon's own token, and it is held for those that
/// haven't answered. Else it gives nothing. It takes time in the message, in the bytes that it sends, and in how many editors there are.
pub fn take_progress(
    tables: &mut Tables,
    alloc: Global,
    outs: &mut Outs,
    g: usize,
    message: &Message,
) -> Result<(), Memory>
    requires { g < length tables.old.lasts.items }
    ensures requests { tables.new.requests ≡ tables.old.requests }
    ensures versions { tables.new.versions ≡ tables.old.versions }
    ensures does { (settings : Settings) (before : List Event) (body method : List ℕ) (params : Option Json) (s : ℕ) (x : Start)
        → IsRead message.now body → message_of body ≡ notification method params → is_progress method ≡ true → outs.old ≡ []
        → slice_get tables.old.lasts.items g ≡ Some x → x.life.stage ≡ Ready → slice_get (map number_in tables.old.lasts.items) g ≡ Some s
        → Stands settings tables.old before → DocumentsStand settings nothing_owed tables.old before
        → OnOk result (Done (λ k events. AllStand settings k events) (progress_row settings s before body params)
        (with_cause before (FromServer s body)) [] (tables.new, nothing_owed) outs.new) }
{
    let told = telling_of(tables, alloc, g, message)?;
    let due = due_of(tables, alloc, g, message)?;
    hear(tables, alloc, g, message, due.is_some())?;
    match told {
        Some(told) => {
            tell(tables, outs, told)?;
            Ok(())
        }
        None => match due {
            Some(due) => {
                tell_due(tables, alloc, outs, g, message, &due)?;
                Ok(())
            }
            None => Ok(()),
        },
    }
}
