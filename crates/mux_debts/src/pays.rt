//! E10, E16 and E17: behind a message of its own that goes on an editor is asked what it is owed.
ghost use Rattle.std.specs.Prelude.{◌≡◌, ◌<◌, ℕ, List, Option, Some, None, bytes_eq, codes, false, length, IfOk, OnOk, slice_get};
ghost use Rattle.std.specs.List.{AllByRecursion};
ghost use Rattle.event_model.specs.Does.{Does};
ghost use Rattle.event_model.specs.declared.phase.Phase.TheVariants.{Running};
ghost use Rattle.event_model.specs.declared.stage.Stage.TheVariants.{Ready};
ghost use Rattle.event_model.specs.Event.{Event, behind, requests, with_cause};
ghost use Rattle.event_model.specs.Phases.{desk_of};
ghost use Rattle.event_model.specs.Row.{each};
ghost use Rattle.event_model.specs.Settings.{Settings};
ghost use Rattle.group_rows.specs.AskRows.{ask};
ghost use Rattle.group_rows.specs.Debts.{IsDebt, goes_forth, goes_to};
ghost use Rattle.json_text.specs.Json.{Json};
ghost use Rattle.mux_debts.specs.Going.{CanPay, IsDue, is_aside, pays};
ghost use Rattle.mux_debts.specs.Stands.{DebtsStand};
ghost use Rattle.mux_history.specs.declared.cause.Cause.TheVariants.{FromEditor};
ghost use Rattle.mux_tables.specs.declared.tables.Start.{Start};
ghost use Rattle.mux_tables.specs.Documents.{AllStand, nothing_owed};
ghost use Rattle.mux_tables.specs.Stands.{Stands, start_for};
ghost use Rattle.mux_turns.specs.group_facts.specs.Facts.{Known};
ghost use Rattle.mux_turns.specs.group_facts.specs.Settled.{Settled};
ghost use Rattle.refresh_debts.specs.declared.debts.Debt.{Debt};
ghost use Rattle.rpc_message.specs.Message.{Id, message_of, request};
ghost use Rattle.rpc_message.specs.Parsed.{IsRead};

use message_body::Memory;
use mux_history::Outs;
use mux_tables::Tables;
use mux_turns::mux_members::{goes_on, is_initialize, is_open, is_status, is_stop, is_wrong};
use mux_turns::{doubles, reserves, stage_at};
use refresh_debts::{Debt, Debts};
use rpc_message::{Message, Sort};
use std::alloc::Global;

// The most bytes of a body of a cause.
const MOST: usize = 268_435_456;

fn names_shutdown(method: &[u8]) -> bool
    ensures { result ≡ bytes_eq method.now (codes "shutdown") }
{
    method == b"shutdown".as_slice()
}

// E9: whether a request is `shutdown`.
fn is_shutdown(message: &Message) -> bool
    ensures { (body method : List ℕ) (id : Id) (params : Option Json) → IsRead message.now body → message_of body ≡ request id method params
        → result ≡ bytes_eq (codes "shutdown") method }
{
    match message.method() {
        Some(method) => names_shutdown(method),
        None => false,
    }
}

// E9: whether an editor's message is that.
fn shuts(message: &Message) -> bool
    ensures { (body : List ℕ) → IsRead message.now body → result ≡ requests (codes "shutdown") (message_of body) }
{
    match message.sort() {
        Sort::Request => is_shutdown(message),
        _ => false,
    }
}

// E4 to E9: whether a request is none for a start, by its method.
fn is_aside(message: &Message) -> bool
    ensures { (body method : List ℕ) (id : Id) (params : Option Json) → IsRead message.now body → message_of body ≡ request id method params
        → result ≡ is_aside id method params }
{
    is_open(message)
        || (is_status(message)
            || (is_stop(message)
                || (is_initialize(message) || (is_wrong(message) || is_shutdown(message)))))
}

// E10: whether a request of an editor that runs goes on to the group's last start, which is ready: under an id that isn't open, none of the
// multiplexer's own, and without a token that begins as the daemon's do, while a number is left.
fn sends_on(
    tables: &Tables,
    alloc: Global,
    g: usize,
    e: u64,
    message: &Message,
) -> Result<bool, Memory>
    requires { g < length tables.now.lasts.items }
    ensures { (settings : Settings) (before : List Event) (body method : List ℕ) (id : Id) (params : Option Json) (x : Start) → IsRead message.now body
        → message_of body ≡ request id method params → Known settings before → Settled settings before
        → slice_get tables.now.lasts.items g ≡ Some x → x.life.stage ≡ Ready → (desk_of e before).phase ≡ Running → Stands settings tables.now before
        → IfOk result (λ answer. answer ≡ goes_forth settings x.life.start before e body (message_of body)) }
{
    if is_aside(message) {
        return Ok(false);
    }
    if doubles(tables, e, tables.phase(e), message.id_bytes()) {
        return Ok(false);
    }
    let reserved = reserves(alloc, message)?;
    if reserved {
        return Ok(false);
    }
    Ok(tables.can_ask(g))
}

// E10, E16 and E17: whether a message of an editor that runs goes on to the group's last start, which is ready.
fn goes_forth(
    tables: &Tables,
    alloc: Global,
    g: usize,
    e: u64,
    message: &Message,
) -> Result<bool, Memory>
    requires { g < length tables.now.lasts.items }
    ensures { (settings : Settings) (before : List Event) (body : List ℕ) (x : Start) → IsRead message.now body → Known settings before
        → Settled settings before → slice_get tables.now.lasts.items g ≡ Some x → x.life.stage ≡ Ready → (desk_of e before).phase ≡ Running
        → Stands settings tables.now before → IfOk result (λ answer. answer ≡ goes_forth settings x.life.start before e body (message_of body)) }
{
    match message.sort() {
        Sort::Request => sends_on(tables, alloc, g, e, message),
        Sort::Notification => Ok(goes_on(message)),
        _ => Ok(false),
    }
}

// The same of any editor of the group, and wherever its last start stands.
fn goes_to(
    tables: &Tables,
    alloc: Global,
    g: usize,
    e: u64,
    message: &Message,
) -> Result<bool, Memory>
    requires { g < length tables.now.lasts.items }
    ensures { (settings : Settings) (before : List Event) (body : List ℕ) (x : Start) → IsRead message.now body → Known settings before
        → Settled settings before → slice_get tables.now.lasts.items g ≡ Some x → start_for settings e before ≡ Some x.life.start
        → Stands settings tables.now before → IfOk result (λ answer. answer ≡ goes_to settings x.life.start before e body (message_of body)) }
{
    if tables.phase(e).is_running() {
        if stage_at(tables, g).is_ready() {
            goes_forth(tables, alloc, g, e, message)
        } else {
            Ok(false)
        }
    } else {
        Ok(false)
    }
}

// What the last start of the editor's group owes it is taken out, where the message goes on to that start.
fn take_going(
    tables: &Tables,
    debts: &mut Debts,
    alloc: Global,
    g: usize,
    e: u64,
    message: &Message,
) -> Result<Vec<Debt>, Memory>
    requires { g < length tables.now.lasts.items }
    ensures due { (settings : Settings) (before : List Event) (body : List ℕ) (x : Start) → IsRead message.now body → Known settings before
        → Settled settings before → slice_get tables.now.lasts.items g ≡ Some x → start_for settings e before ≡ Some x.life.start
        → Stands settings tables.now before → DebtsStand settings debts.old before
        → IfOk result (λ due. IsDue settings before e body due.items) }
    ensures stands { (settings : Settings) (before : List Event) (body : List ℕ) (x : Start) → IsRead message.now body → Known settings before
        → Settled settings before → slice_get tables.now.lasts.items g ≡ Some x → start_for settings e before ≡ Some x.life.start
        → requests (codes "shutdown") (message_of body) ≡ false → Stands settings tables.now before → DebtsStand settings debts.old before
        → OnOk result (DebtsStand settings debts.new (with_cause before (FromEditor e body))) }
{
    let goes = goes_to(tables, alloc, g, e, message)?;
    if goes {
        let s = tables.start_number(g);
        let due = debts.take(s, e)?;
        Ok(due)
    } else {
        Ok(Vec::new(alloc))
    }
}

// The same, where that start owes it anything.
fn take_owed(
    tables: &Tables,
    debts: &mut Debts,
    alloc: Global,
    g: usize,
    e: u64,
    message: &Message,
) -> Result<Vec<Debt>, Memory>
    requires { g < length tables.now.lasts.items }
    ensures due { (settings : Settings) (before : List Event) (body : List ℕ) (x : Start) → IsRead message.now body → Known settings before
        → Settled settings before → slice_get tables.now.lasts.items g ≡ Some x → start_for settings e before ≡ Some x.life.start
        → Stands settings tables.now before → DebtsStand settings debts.old before
        → IfOk result (λ due. IsDue settings before e body due.items) }
    ensures stands { (settings : Settings) (before : List Event) (body : List ℕ) (x : Start) → IsRead message.now body → Known settings before
        → Settled settings before → slice_get tables.now.lasts.items g ≡ Some x → start_for settings e before ≡ Some x.life.start
        → requests (codes "shutdown") (message_of body) ≡ false → Stands settings tables.now before → DebtsStand settings debts.old before
        → OnOk result (DebtsStand settings debts.new (with_cause before (FromEditor e body))) }
{
    let s = tables.start_number(g);
    if debts.has(s, e) {
        take_going(tables, debts, alloc, g, e, message)
    } else {
        Ok(Vec::new(alloc))
    }
}

/// E9, E10, E16 and E17: a message of an editor is looked at before its row: where it goes on to the last start of the editor's group, what
/// that owes the editor is taken out and given, in its order; where it is the request `shutdown` nothing is owed to the editor any more. It
/// takes time in how much is owed, and, where something is owed to the editor, that of E10's tests. Where the answer is an error the table
/// stands for nothing any more.
pub fn take_debts(
    tables: &Tables,
    debts: &mut Debts,
    alloc: Global,
    e: u64,
    message: &Message,
) -> Result<Vec<Debt>, Memory>
    ensures due { (settings : Settings) (before : List Event) (body : List ℕ) → IsRead message.now body → Known settings before → Settled settings before
        → Stands settings tables.now before → DebtsStand settings debts.old before
        → IfOk result (λ due. IsDue settings before e body due.items) }
    ensures stands { (settings : Settings) (before : List Event) (body : List ℕ) → IsRead message.now body → Known settings before
        → Settled settings before → Stands settings tables.now before → DebtsStand settings debts.old before
        → OnOk result (DebtsStand settings debts.new (with_cause before (FromEditor e body))) }
{
    if shuts(message) {
        debts.leave(e);
        Ok(Vec::new(alloc))
    } else {
        match tables.place(e) {
            None => Ok(Vec::new(alloc)),
            Some(g) => take_owed(tables, debts, alloc, g, e, message),
        }
    }
}

// One is asked. Its body was read as it came, so that only memory can fail.
fn pay_one(
    tables: &mut Tables,
    alloc: Global,
    outs: &mut Outs,
    e: u64,
    debt: &Debt,
) -> Result<(), Memory>
    requires { e < length tables.old.editors }
    ensures requests { tables.new.requests ≡ tables.old.requests }
    ensures versions { tables.new.versions ≡ tables.old.versions }
    ensures count { OnOk result (length tables.new.editors ≡ length tables.old.editors) }
    ensures does { (settings : Settings) (base : List Event) → IsDebt debt.now → CanPay settings e (behind base outs.old)
        → OnOk result (Does (λ k events. AllStand settings k events) (ask debt.now.body e) base (tables.old, nothing_owed) outs.old (tables.new, nothing_owed) outs.new) }
{
    let bytes = debt.body.bytes();
    if bytes.len() > MOST {
        return Err(Memory);
    }
    match Message::read(alloc, bytes) {
        Ok(message) => {
            tables.question(alloc, outs, e, &message)?;
            Ok(())
        }
        Err(_) => Err(Memory),
    }
}

// These are asked, in their order.
fn pay_all(
    tables: &mut Tables,
    alloc: Global,
    outs: &mut Outs,
    e: u64,
    due: &[Debt],
) -> Result<(), Memory>
    requires { e < length tables.old.editors }
    ensures requests { tables.new.requests ≡ tables.old.requests }
    ensures versions { tables.new.versions ≡ tables.old.versions }
    ensures does { (settings : Settings) (base : List Event) → AllByRecursion IsDebt due.now → CanPay settings e (behind base outs.old)
        → OnOk result (Does (λ k events. AllStand settings k events) (each (pays e) due.now) base (tables.old, nothing_owed) outs.old (tables.new, nothing_owed) outs.new) }
{
    for debt in due {
        pay_one(tables, alloc, outs, e, debt)?;
    }
    Ok(())
}

/// L3, behind E10, E16 and E17: an editor that runs is asked what it is due, in its order, each under its next number. It takes time in the bytes that
/// are sent. Where the answer is an error the tables stand for nothing any more.
pub fn pay(
    tables: &mut Tables,
    alloc: Global,
    outs: &mut Outs,
    e: u64,
    due: &[Debt],
) -> Result<(), Memory>
    ensures requests { tables.new.requests ≡ tables.old.requests }
    ensures versions { tables.new.versions ≡ tables.old.versions }
    ensures does { (settings : Settings) (base : List Event) → AllByRecursion IsDebt due.now
        → (0 < length due.now → CanPay settings e (behind base outs.old))
        → OnOk result (Does (λ k events. AllStand settings k events) (each (pays e) due.now) base (tables.old, nothing_owed) outs.old (tables.new, nothing_owed) outs.new) }
{
    if due.is_empty() {
        return Ok(());
    }
    if e >= tables.editors.count() {
        return Ok(());
    }
    pay_all(tables, alloc, outs, e, due)
}
