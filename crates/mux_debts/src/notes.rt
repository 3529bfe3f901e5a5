//! S9: what a start wants asked anew is owed to the editors of its group that don't agree with it.
ghost use Rattle.std.specs.Prelude.{◌≡◌, ◌<◌, ℕ, List, Option, Some, encode_utf8_all, length, true, IfOk, OnOk, slice_get};
ghost use Rattle.event_model.specs.declared.stage.Stage.TheVariants.{Ready};
ghost use Rattle.event_model.specs.Event.{Event, with_cause};
ghost use Rattle.event_model.specs.Settings.{Settings};
ghost use Rattle.group_rows.specs.Debts.{asks_anew, debt_of, wants_refresh};
ghost use Rattle.group_rows.specs.Live.{is_heard};
ghost use Rattle.json_text.specs.Json.{Json};
ghost use Rattle.mux_debts.specs.Noted.{all_noted, noted, wants};
ghost use Rattle.mux_debts.specs.Stands.{DebtsStand};
ghost use Rattle.mux_history.specs.declared.cause.Cause.TheVariants.{FromServer};
ghost use Rattle.mux_tables.specs.declared.tables.Start.{Start};
ghost use Rattle.mux_tables.specs.Documents.{DocumentsStand, nothing_owed};
ghost use Rattle.mux_tables.specs.Stands.{Stands};
ghost use Rattle.mux_turns.specs.group_facts.specs.Facts.{Known};
ghost use Rattle.rpc_message.specs.Message.{Id, message_of, request};
ghost use Rattle.rpc_message.specs.Parsed.{IsRead};

use lsp_method::Class;
use message_body::{Body, Memory};
use mux_tables::Tables;
use mux_turns::mux_members::asked_class;
use mux_turns::stage_at;
use refresh_debts::{Debt, Debts};
use rpc_message::{Message, Sort};
use std::alloc::Global;

// The characters of a request's method.
fn method_in(alloc: Global, message: &Message) -> Result<Vec<u8>, Memory>
    ensures { (body method : List ℕ) (id : Id) (params : Option Json) → IsRead message.now body → message_of body ≡ request id method params
        → IfOk result (λ name. name.items ≡ encode_utf8_all method) }
{
    match message.method() {
        Some(method) => Ok(Vec::from_slice(alloc, method)?),
        None => Ok(Vec::new(alloc)),
    }
}

// What a start owes an editor: the request as it came.
fn debt_in(alloc: Global, s: u64, e: u64, message: &Message) -> Result<Debt, Memory>
    ensures { (body method : List ℕ) (id : Id) (params : Option Json) → IsRead message.now body → message_of body ≡ request id method params
        → wants_refresh method ≡ true → IfOk result (λ debt. debt ≡ debt_of s e method body) }
{
    let method = method_in(alloc, message)?;
    let body = Vec::from_slice(alloc, message.bytes())?;
    Ok(Debt {
        start: s,
        editor: e,
        method: Body::new(method),
        body: Body::new(body),
    })
}

// What the group's last start, which is ready, wants asked anew is owed to an editor, or is owed no more, where the start agrees with it on
// all that it has open.
fn note(
    tables: &Tables,
    debts: &mut Debts,
    alloc: Global,
    g: usize,
    e: u64,
    message: &Message,
) -> Result<(), Memory>
    requires { g < length tables.now.lasts.items }
    ensures { (settings : Settings) (before : List Event) (body method : List ℕ) (id : Id) (params : Option Json) (x : Start)
        → IsRead message.now body → message_of body ≡ request id method params → wants_refresh method ≡ true
        → slice_get tables.now.lasts.items g ≡ Some x → x.life.stage ≡ Ready
        → Stands settings tables.now before → DocumentsStand settings nothing_owed tables.now before
        → OnOk result (debts.new ≡ noted settings x.life.start before body method debts.old e) }
{
    let s = tables.start_number(g);
    let debt = debt_in(alloc, s, e, message)?;
    let agrees = tables.agrees_on_all(g, e)?;
    if agrees {
        debts.settle(debt.start, debt.editor, debt.method.bytes());
        Ok(())
    } else {
        debts.owe(debt)?;
        Ok(())
    }
}

// It is noted of each of these editors.
fn note_all(
    tables: &Tables,
    debts: &mut Debts,
    alloc: Global,
    g: usize,
    numbers: &[u64],
    message: &Message,
) -> Result<(), Memory>
    requires { g < length tables.now.lasts.items }
    ensures { (settings : Settings) (before : List Event) (body method : List ℕ) (id : Id) (params : Option Json) (x : Start)
        → IsRead message.now body → message_of body ≡ request id method params → wants_refresh method ≡ true
        → slice_get tables.now.lasts.items g ≡ Some x → x.life.stage ≡ Ready
        → Stands settings tables.now before → DocumentsStand settings nothing_owed tables.now before
        → OnOk result (debts.new ≡ all_noted settings x.life.start before body method numbers.now debts.old) }
{
    for e in numbers {
        note(tables, debts, alloc, g, *e, message)?;
    }
    Ok(())
}

// Whether the group's last start is ready, and the id of its request is that of no open ask.
fn is_heard(tables: &Tables, g: usize, message: &Message) -> bool
    requires { g < length tables.now.lasts.items }
    ensures { (settings : Settings) (before : List Event) (body method : List ℕ) (id : Id) (params : Option Json) (x : Start) → IsRead message.now body
        → message_of body ≡ request id method params → slice_get tables.now.lasts.items g ≡ Some x
        → Stands settings tables.now before → result ≡ is_heard settings x.life.start before id }
{
    if stage_at(tables, g).is_ready() {
        !tables.is_asked(g, message.id_bytes())
    } else {
        false
    }
}

// Whether a request of the group's last start wants something asked anew.
fn asks_anew(tables: &Tables, g: usize, message: &Message) -> bool
    requires { g < length tables.now.lasts.items }
    ensures { (settings : Settings) (before : List Event) (body method : List ℕ) (id : Id) (params : Option Json) (x : Start) → IsRead message.now body
        → message_of body ≡ request id method params → slice_get tables.now.lasts.items g ≡ Some x
        → Stands settings tables.now before → result ≡ asks_anew settings x.life.start before id method }
{
    match asked_class(message) {
        Class::Refresh => is_heard(tables, g, message),
        _ => false,
    }
}

// Whether a message of the group's last start does.
fn wants(tables: &Tables, g: usize, message: &Message) -> bool
    requires { g < length tables.now.lasts.items }
    ensures { (settings : Settings) (before : List Event) (body : List ℕ) (x : Start) → IsRead message.now body
        → slice_get tables.now.lasts.items g ≡ Some x → Stands settings tables.now before
        → result ≡ wants settings x.life.start before (message_of body) }
{
    match message.sort() {
        Sort::Request => asks_anew(tables, g, message),
        _ => false,
    }
}

// The group's last start wants something asked anew.
fn note_wanted(
    tables: &Tables,
    debts: &mut Debts,
    alloc: Global,
    g: usize,
    message: &Message,
) -> Result<(), Memory>
    requires { g < length tables.now.lasts.items }
    ensures { (settings : Settings) (before : List Event) (body : List ℕ) (x : Start) → IsRead message.now body → Known settings before
        → slice_get tables.now.lasts.items g ≡ Some x → wants settings x.life.start before (message_of body) ≡ true
        → Stands settings tables.now before → DocumentsStand settings nothing_owed tables.now before → DebtsStand settings debts.old before
        → OnOk result (DebtsStand settings debts.new (with_cause before (FromServer x.life.start body))) }
{
    let group = tables.group_number(g);
    let numbers = tables.running(group)?;
    note_all(tables, debts, alloc, g, &numbers, message)?;
    Ok(())
}

// What the group's last start says is looked at.
fn note_said(
    tables: &Tables,
    debts: &mut Debts,
    alloc: Global,
    g: usize,
    message: &Message,
) -> Result<(), Memory>
    requires { g < length tables.now.lasts.items }
    ensures { (settings : Settings) (before : List Event) (body : List ℕ) (x : Start) → IsRead message.now body → Known settings before
        → slice_get tables.now.lasts.items g ≡ Some x
        → Stands settings tables.now before → DocumentsStand settings nothing_owed tables.now before → DebtsStand settings debts.old before
        → OnOk result (DebtsStand settings debts.new (with_cause before (FromServer x.life.start body))) }
{
    if wants(tables, g, message) {
        note_wanted(tables, debts, alloc, g, message)?;
        Ok(())
    } else {
        Ok(())
    }
}

/// S9: a message of a start is looked at before its row: where it wants something asked anew, that is owed to each editor of its group that
/// runs and has a document open on which the start doesn't agree with it, and owed no more to the others. It takes for each editor that runs
/// as long as a sync that sends nothing, and the time to copy the body. Where the answer is an error the table stands for nothing any more.
pub fn note_refresh(
    tables: &Tables,
    debts: &mut Debts,
    alloc: Global,
    s: u64,
    message: &Message,
) -> Result<(), Memory>
    ensures { (settings : Settings) (before : List Event) (body : List ℕ) → IsRead message.now body → Known settings before
        → Stands settings tables.now before → DocumentsStand settings nothing_owed tables.now before → DebtsStand settings debts.old before
        → OnOk result (DebtsStand settings debts.new (with_cause before (FromServer s body))) }
{
    match tables.last(s) {
        None => Ok(()),
        Some(g) => {
            note_said(tables, debts, alloc, g, message)?;
            Ok(())
        }
    }
}
