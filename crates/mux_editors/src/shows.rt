//! E12 and L2: last lists of diagnostics that an editor is shown (LSP 3.17, Publish Diagnostics).
ghost use Rattle.std.specs.Prelude.{◌≡◌, ◌<◌, ℕ, List, Option, Some, length, IfOk, OnOk, slice_get};
ghost use Rattle.document_model.specs.Sayings.{saying_by};
ghost use Rattle.event_model.specs.declared.stage.Stage.TheVariants.{Ready};
ghost use Rattle.event_model.specs.Does.{Does};
ghost use Rattle.event_model.specs.Event.{Event};
ghost use Rattle.event_model.specs.Row.{each};
ghost use Rattle.event_model.specs.Settings.{Settings};
ghost use Rattle.group_rows.specs.ListRows.{show_opened};
ghost use Rattle.group_rows.specs.Lists.{lists_of};
ghost use Rattle.json_text.specs.Json.{Json};
ghost use Rattle.mux_editors.specs.Shows.{all_plain, full_text, last_text, show_at};
ghost use Rattle.mux_tables.specs.declared.tables.Start.{Start};
ghost use Rattle.mux_tables.specs.Documents.{AllStand, Owed, nothing_owed};
ghost use Rattle.mux_turns.specs.group_facts.specs.Facts.{Meant};
ghost use Rattle.rpc_message.specs.Message.{message_of, notification};
ghost use Rattle.rpc_message.specs.Parsed.{IsRead};

use message_body::{Body, Memory};
use mux_history::Outs;
use mux_members::opened_uri;
use mux_tables::Tables;
use mux_tables::diagnostics_route::LastList;
use mux_turns::listed_text;
use rpc_message::Message;
use std::alloc::Global;

// E12: what an editor is shown of a last list of the group's last start, which is ready, where the list isn't empty and fits the editor: its
// text with the editor's own version of the document, where that is open there.
fn full_text(
    tables: &Tables,
    alloc: Global,
    g: usize,
    e: u64,
    list: &LastList,
) -> Result<Option<Body>, Memory>
    requires { g < length tables.now.lasts.items }
    ensures { (settings : Settings) (events : List Event) (x : Start) → slice_get tables.now.lasts.items g ≡ Some x → x.life.stage ≡ Ready
        → AllStand settings (tables.now, nothing_owed) events
        → IfOk result (λ text. text ≡ full_text settings x.life.start e events list.now) }
{
    if list.empty {
        return Ok(None);
    }
    if tables.fits(g, e, list) {
        let own = tables.own_version(g, e, list.uri.bytes());
        let text = listed_text(alloc, &list.body, own)?;
        Ok(Some(text))
    } else {
        Ok(None)
    }
}

// E12: the same of the last list of a document, where there is one.
fn last_text(
    tables: &Tables,
    alloc: Global,
    g: usize,
    e: u64,
    uri: &[u8],
) -> Result<Option<Body>, Memory>
    requires { g < length tables.now.lasts.items }
    ensures { (settings : Settings) (events : List Event) (x : Start) → slice_get tables.now.lasts.items g ≡ Some x → x.life.stage ≡ Ready
        → AllStand settings (tables.now, nothing_owed) events
        → IfOk result (λ text. text ≡ last_text settings x.life.start e events uri.now) }
{
    match tables.last_list(g, uri) {
        None => Ok(None),
        Some(list) => full_text(tables, alloc, g, e, list),
    }
}

/// E12: a notification of an editor was heard, and what the group's last start, which is ready, is to be told of it was sent. Where it
/// opened a document, the editor is shown the last list of that, where it isn't empty and fits the editor. The time is linear in the message
/// and the list, and logarithmic in how many documents have lists. Where the answer is an error the tables stand for nothing any more.
pub fn show_opened(
    tables: &mut Tables,
    alloc: Global,
    outs: &mut Outs,
    g: usize,
    e: u64,
    message: &Message,
) -> Result<(), Memory>
    requires group { g < length tables.old.lasts.items }
    requires editor { e < length tables.old.editors }
    ensures requests { tables.new.requests ≡ tables.old.requests }
    ensures versions { tables.new.versions ≡ tables.old.versions }
    ensures does { (settings : Settings) (base : List Event) (body method : List ℕ) (params : Option Json) (x : Start) → IsRead message.now body
        → message_of body ≡ notification method params → slice_get tables.old.lasts.items g ≡ Some x → x.life.stage ≡ Ready → Meant base
        → OnOk result (Does (λ k events. AllStand settings k events) (show_opened settings x.life.start e (saying_by method params)) base
        (tables.old, nothing_owed) outs.old (tables.new, nothing_owed) outs.new) }
{
    let opened = opened_uri(alloc, message)?;
    let Some(uri) = opened else {
        return Ok(());
    };
    let shown = last_text(tables, alloc, g, e, uri.bytes())?;
    match shown {
        None => Ok(()),
        Some(text) => {
            tables.show(outs, e, uri.bytes(), false, text)?;
            Ok(())
        }
    }
}

// L2: an editor is shown the last list of the document of a number at the group's last start, which is ready, where there is one, as an
// editor at which the document isn't open.
fn show_at(
    tables: &mut Tables,
    alloc: Global,
    outs: &mut Outs,
    g: usize,
    e: u64,
    n: u64,
) -> Result<(), Memory>
    requires group { g < length tables.old.lasts.items }
    requires editor { e < length tables.old.editors }
    ensures requests { tables.new.requests ≡ tables.old.requests }
    ensures versions { tables.new.versions ≡ tables.old.versions }
    ensures lasts { tables.new.lasts ≡ tables.old.lasts }
    ensures count { OnOk result (length tables.new.editors ≡ length tables.old.editors) }
    ensures does { (settings : Settings) (owed : Owed) (base : List Event) (x : Start) → slice_get tables.old.lasts.items g ≡ Some x
        → x.life.stage ≡ Ready → Meant base
        → OnOk result (Does (λ k events. AllStand settings k events) (show_at e (lists_of x.life.start base) n) base
        (tables.old, owed) outs.old (tables.new, owed) outs.new) }
{
    match tables.list_at(g, n) {
        None => Ok(()),
        Some(list) => {
            let empty = list.empty;
            let uri = list.uri.copy(alloc)?;
            let text = listed_text(alloc, &list.body, None)?;
            tables.show(outs, e, uri.bytes(), empty, text)?;
            Ok(())
        }
    }
}

// The same for each of some numbers, in this order.
fn show_each(
    tables: &mut Tables,
    alloc: Global,
    outs: &mut Outs,
    g: usize,
    e: u64,
    numbers: &[u64],
) -> Result<(), Memory>
    requires group { g < length tables.old.lasts.items }
    requires editor { e < length tables.old.editors }
    ensures requests { tables.new.requests ≡ tables.old.requests }
    ensures versions { tables.new.versions ≡ tables.old.versions }
    ensures lasts { tables.new.lasts ≡ tables.old.lasts }
    ensures count { OnOk result (length tables.new.editors ≡ length tables.old.editors) }
    ensures does { (settings : Settings) (owed : Owed) (base : List Event) (x : Start) → slice_get tables.old.lasts.items g ≡ Some x
        → x.life.stage ≡ Ready → Meant base
        → OnOk result (Does (λ k events. AllStand settings k events) (each (show_at e (lists_of x.life.start base)) numbers.now) base
        (tables.old, owed) outs.old (tables.new, owed) outs.new) }
{
    for n in numbers {
        show_at(tables, alloc, outs, g, e, *n)?;
    }
    Ok(())
}

/// L2: an editor is shown each last list of the group's last start, which is ready, that isn't empty, in the order of their documents' first
/// lists, as an editor at which no document is open. The time is linear in the bytes that are sent, and in how many lists there are, and for
/// each list logarithmic in how many there are. Where the answer is an error the tables stand for nothing any more.
pub fn show_all(
    tables: &mut Tables,
    alloc: Global,
    outs: &mut Outs,
    g: usize,
    e: u64,
) -> Result<(), Memory>
    requires group { g < length tables.old.lasts.items }
    requires editor { e < length tables.old.editors }
    ensures requests { tables.new.requests ≡ tables.old.requests }
    ensures versions { tables.new.versions ≡ tables.old.versions }
    ensures lasts { tables.new.lasts ≡ tables.old.lasts }
    ensures count { OnOk result (length tables.new.editors ≡ length tables.old.editors) }
    ensures does { (settings : Settings) (owed : Owed) (base : List Event) (x : Start) → slice_get tables.old.lasts.items g ≡ Some x
        → x.life.stage ≡ Ready → Meant base
        → OnOk result (Does (λ k events. AllStand settings k events) (all_plain e (lists_of x.life.start base)) base
        (tables.old, owed) outs.old (tables.new, owed) outs.new) }
{
    let numbers = tables.full_lists(g)?;
    show_each(tables, alloc, outs, g, e, &numbers)?;
    Ok(())
}
