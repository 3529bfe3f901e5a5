//! S10: a start asks for the folders of its group (LSP 3.17, WorkspaceFolders Request).
ghost use Rattle.std.specs.Prelude.{◌≡◌, ◌<◌, ℕ, List, [], Option, Some, IfOk, OnOk, false, length, map, option_map, slice_get};
ghost use Rattle.event_model.specs.declared.stage.Stage.TheVariants.{Ready};
ghost use Rattle.event_model.specs.Does.{Done};
ghost use Rattle.event_model.specs.Event.{Event, with_cause};
ghost use Rattle.event_model.specs.Settings.{Settings};
ghost use Rattle.mux_turns.specs.group_facts.specs.Facts.{Known};
ghost use Rattle.mux_turns.specs.group_facts.specs.Settled.{AreUtf8, Settled};
ghost use Rattle.group_rows.specs.AskRows.{folders_row};
ghost use Rattle.group_rows.specs.Asks.{asking_of, is_patient, is_taken};
ghost use Rattle.group_rows.specs.Created.{is_creating};
ghost use Rattle.group_rows.specs.Live.{is_registering};
ghost use Rattle.group_words.specs.declared.kept.Kept.{Kept};
ghost use Rattle.group_words.specs.Houses.{groups_of};
ghost use Rattle.group_words.specs.Rows.{folders_text};
ghost use Rattle.json_text.specs.Json.{Json};
ghost use Rattle.mux_history.specs.declared.cause.Cause.TheVariants.{FromServer};
ghost use Rattle.mux_tables.specs.declared.tables.Start.{Start};
ghost use Rattle.mux_tables.specs.Documents.{AllStand, DocumentsStand, nothing_owed};
ghost use Rattle.mux_tables.specs.Stands.{Stands, number_in};
ghost use Rattle.rpc_message.specs.Message.{Id, id_bytes, message_of, request};
ghost use Rattle.rpc_message.specs.Parsed.{IsRead};
ghost use Rattle.rpc_message.specs.Texts.{ok_text};

use group_words::Kept;
use message_body::{Body, Memory};
use mux_history::Outs;
use mux_tables::Tables;
use mux_turns::folders_text;
use rpc_message::{Message, ok_reply};
use std::alloc::Global;

// The folders of a group, which are UTF-8.
fn listing(alloc: Global, kept: &Kept) -> Result<Vec<u8>, Memory>
    ensures { AreUtf8 kept.now.key.folders → IfOk result (λ text. text.items ≡ folders_text kept.now.key.folders) }
{
    folders_text(alloc, &kept.key.folders)
}

// The answer with the folders of the group; none where there is no such group.
fn listed(
    tables: &Tables,
    alloc: Global,
    g: usize,
    message: &Message,
) -> Result<Option<Body>, Memory>
    requires { g < length tables.now.lasts.items }
    ensures { (settings : Settings) (before : List Event) (body : List ℕ) (x : Start) → IsRead message.now body
        → slice_get tables.now.lasts.items g ≡ Some x → Settled settings before → Stands settings tables.now before
        → IfOk result (λ answer. answer ≡ option_map (λ (k : Kept). ok_text (id_bytes body) (folders_text k.key.folders)) (slice_get (groups_of settings before) x.life.group)) }
{
    match tables.kept(tables.group_number(g)) {
        None => Ok(None),
        Some(kept) => {
            let folders = listing(alloc, kept)?;
            Ok(Some(ok_reply(alloc, message.id_bytes(), folders.as_slice())?))
        }
    }
}

/// S10: a request of class Folders comes from the group's last start, which is ready, under the id of no open ask: it gets the folders of
/// the group, or null where the group has none. It takes time in the bytes that it sends.
pub fn take_folders(
    tables: &mut Tables,
    alloc: Global,
    outs: &mut Outs,
    g: usize,
    message: &Message,
) -> Result<(), Memory>
    requires { g < length tables.old.lasts.items }
    ensures requests { tables.new.requests ≡ tables.old.requests }
    ensures versions { tables.new.versions ≡ tables.old.versions }
    ensures does { (settings : Settings) (before : List Event) (body method : List ℕ) (id : Id) (params : Option Json) (s : ℕ) (x : Start)
        → IsRead message.now body → message_of body ≡ request id method params
        → is_patient method ≡ false → is_registering method ≡ false → is_creating method ≡ false
        → is_taken (Some id) (asking_of settings s before) ≡ false → outs.old ≡ []
        → slice_get tables.old.lasts.items g ≡ Some x → x.life.stage ≡ Ready → slice_get (map number_in tables.old.lasts.items) g ≡ Some s
        → Known settings before → Settled settings before
        → Stands settings tables.old before → DocumentsStand settings nothing_owed tables.old before
        → OnOk result (Done (λ k events. AllStand settings k events) (folders_row settings before x.life.group s body)
        (with_cause before (FromServer s body)) [] (tables.new, nothing_owed) outs.new) }
{
    let answer = listed(tables, alloc, g, message)?;
    tables.hear_answer(g, None);
    match answer {
        None => Ok(()),
        Some(text) => {
            tables.respond(outs, g, text)?;
            Ok(())
        }
    }
}
