//! S4 and X1 to X3 of a start that is to end, or ended: what its program says then, and the end of its program.
ghost use Rattle.std.specs.Prelude.{◌≡◌, ◌≢◌, ◌<◌, ◌≤◌, ◌+◌, ℕ, List, [], map, Some, true, length, IfOk, OnOk, slice_get};
ghost use Rattle.event_model.specs.declared.stage.Stage.TheVariants.{Ended, Ending, Stopping};
ghost use Rattle.event_model.specs.Does.{Does, Done};
ghost use Rattle.event_model.specs.Event.{Event, with_cause};
ghost use Rattle.event_model.specs.Requests.{answered_id, next_number};
ghost use Rattle.event_model.specs.Settings.{Settings};
ghost use Rattle.mux_turns.specs.group_facts.specs.Built.{is_left};
ghost use Rattle.group_rows.specs.Ends.{answers_shutdown, exit_server, exit_text};
ghost use Rattle.group_rows.specs.Forwarded.{forwarding_of};
ghost use Rattle.group_rows.specs.Rows.{row_of, stopping_row};
ghost use Rattle.mux_history.specs.declared.cause.Cause.TheVariants.{FromServer, ServerGone, StartFailed};
ghost use Rattle.mux_model.specs.Fits.{fits_behind};
ghost use Rattle.mux_tables.specs.declared.tables.Start.{Start};
ghost use Rattle.mux_tables.specs.Documents.{AllStand, DocumentsStand, nothing_owed};
ghost use Rattle.mux_tables.specs.Stands.{NamesAt, Stands, number_in};
ghost use Rattle.rpc_message.specs.Message.{Message as message, message_of};
ghost use Rattle.rpc_message.specs.Parsed.{IsRead};

use message_body::{Body, Memory};
use mux_history::Outs;
use mux_tables::Tables;
use mux_turns::{answered_number, stage_at};
use rpc_message::{Message, notification};
use std::alloc::Global;

// The notification that ends a program (LSP 3.17, Exit Notification).
fn exit_notice(alloc: Global) -> Result<Body, Memory>
    ensures { IfOk result (λ body. body ≡ exit_text) }
{
    notification(alloc, "exit", None)
}

// The number that comes next by the requests of editors; it is that of `shutdown`, where that was the last request.
fn next_at(tables: &Tables, g: usize) -> u32
    requires { g < length tables.now.lasts.items }
    ensures { (x : Start) → slice_get tables.now.lasts.items g ≡ Some x → x.ids.limit ≡ tables.now.requests → result ≡ x.ids.next }
{
    match tables.lasts[g].ids.next() {
        Ok(n) => n,
        Err(_) => tables.requests,
    }
}

// S4: whether a message of the group's last start, which is to stop, answers `shutdown`; `n` is the number that its id writes.
fn answers_shutdown(tables: &Tables, g: usize, n: Option<u32>) -> bool
    requires { g < length tables.now.lasts.items }
    ensures { (settings : Settings) (before : List Event) (s : ℕ) (m : message) → slice_get (map number_in tables.now.lasts.items) g ≡ Some s
        → next_number s before ≡ (forwarding_of settings s before).next + 1 → NamesAt (answered_id m) n → Stands settings tables.now before
        → result ≡ answers_shutdown s before m }
{
    match n {
        None => false,
        Some(n) => n == next_at(tables, g),
    }
}

// The group's last start is sent `exit`, and its program is to be ended.
fn exit_server(tables: &mut Tables, alloc: Global, outs: &mut Outs, g: usize) -> Result<(), Memory>
    requires group { g < length tables.old.lasts.items }
    requires runs { (x : Start) → slice_get tables.old.lasts.items g ≡ Some x → x.life.stage ≢ Ended }
    ensures requests { tables.new.requests ≡ tables.old.requests }
    ensures versions { tables.new.versions ≡ tables.old.versions }
    ensures does { (settings : Settings) (base : List Event) (s : ℕ) → slice_get (map number_in tables.old.lasts.items) g ≡ Some s
        → OnOk result (Does (λ k events. AllStand settings k events)
        (exit_server s) base (tables.old, nothing_owed) outs.old (tables.new, nothing_owed) outs.new) }
{
    let text = exit_notice(alloc)?;
    tables.notify(outs, g, text)?;
    tables.end(outs, g)?;
    Ok(())
}

/// S4: a message comes from the group's last start, which was sent `shutdown`: where it is its response the start is sent `exit`, and
/// its program is to be ended (LSP 3.17, Shutdown Request and Exit Notification); else nothing is sent.
pub fn take_stopping(
    tables: &mut Tables,
    alloc: Global,
    outs: &mut Outs,
    g: usize,
    message: &Message,
) -> Result<(), Memory>
    requires group { g < length tables.old.lasts.items }
    requires stopping { (x : Start) → slice_get tables.old.lasts.items g ≡ Some x → x.life.stage ≡ Stopping }
    ensures requests { tables.new.requests ≡ tables.old.requests }
    ensures versions { tables.new.versions ≡ tables.old.versions }
    ensures does { (settings : Settings) (before : List Event) (body : List ℕ) (s : ℕ) → IsRead message.now body → outs.old ≡ []
        → slice_get (map number_in tables.old.lasts.items) g ≡ Some s → next_number s before ≡ (forwarding_of settings s before).next + 1
        → Stands settings tables.old before → DocumentsStand settings nothing_owed tables.old before
        → OnOk result (Done (λ k events. AllStand settings k events) (stopping_row s before (message_of body))
        (with_cause before (FromServer s body)) [] (tables.new, nothing_owed) outs.new) }
{
    let n = answered_number(message);
    let answers = answers_shutdown(tables, g, n);
    tables.hear_answer(g, n);
    if !answers {
        return Ok(());
    }
    exit_server(tables, alloc, outs, g)?;
    Ok(())
}

/// S4: a message comes from the group's last start, which is to end: nothing is sent.
pub fn take_ending(tables: &mut Tables, g: usize, message: &Message)
    requires group { g < length tables.old.lasts.items }
    requires ending { (x : Start) → slice_get tables.old.lasts.items g ≡ Some x → x.life.stage ≡ Ending }
    ensures requests { tables.new.requests ≡ tables.old.requests }
    ensures versions { tables.new.versions ≡ tables.old.versions }
    ensures does { (settings : Settings) (before : List Event) (body : List ℕ) (s : ℕ) → IsRead message.now body
        → slice_get (map number_in tables.old.lasts.items) g ≡ Some s
        → Stands settings tables.old before → DocumentsStand settings nothing_owed tables.old before
        → Done (λ k events. AllStand settings k events) (row_of settings before (FromServer s body))
        (with_cause before (FromServer s body)) [] (tables.new, nothing_owed) [] }
{
    tables.hear_answer(g, answered_number(message));
}

// X1 to X3 of a group that lives no more: its last start ended.
fn end_at(tables: &mut Tables, alloc: Global, g: usize)
    requires limit { 2 ≤ tables.old.requests }
    requires group { g < length tables.old.lasts.items }
    ensures requests { tables.new.requests ≡ tables.old.requests }
    ensures versions { tables.new.versions ≡ tables.old.versions }
    ensures exit { (settings : Settings) (before : List Event) (s : ℕ) → slice_get (map number_in tables.old.lasts.items) g ≡ Some s
        → fits_behind before (ServerGone s) ≡ true → is_left settings before s ≡ true
        → Stands settings tables.old before → DocumentsStand settings nothing_owed tables.old before
        → Done (λ k events. AllStand settings k events) (row_of settings before (ServerGone s))
        (with_cause before (ServerGone s)) [] (tables.new, nothing_owed) [] }
    ensures failure { (settings : Settings) (before : List Event) (s : ℕ) → slice_get (map number_in tables.old.lasts.items) g ≡ Some s
        → fits_behind before (StartFailed s) ≡ true → is_left settings before s ≡ true
        → Stands settings tables.old before → DocumentsStand settings nothing_owed tables.old before
        → Done (λ k events. AllStand settings k events) (row_of settings before (StartFailed s))
        (with_cause before (StartFailed s)) [] (tables.new, nothing_owed) [] }
{
    if stage_at(tables, g).is_ended() {
        return;
    }
    tables.hear_left(alloc, g);
}

/// X1 to X3: the program of a start whose group lives no more ended, or couldn't be run: nothing is sent, and what it had to answer is
/// forgotten. Only a start that is the last of its group has a program that runs, or may run.
pub fn take_left(tables: &mut Tables, alloc: Global, s: u64)
    requires { 2 ≤ tables.old.requests }
    ensures requests { tables.new.requests ≡ tables.old.requests }
    ensures versions { tables.new.versions ≡ tables.old.versions }
    ensures exit { (settings : Settings) (before : List Event) → fits_behind before (ServerGone s) ≡ true → is_left settings before s ≡ true
        → Stands settings tables.old before → DocumentsStand settings nothing_owed tables.old before
        → Done (λ k events. AllStand settings k events) (row_of settings before (ServerGone s))
        (with_cause before (ServerGone s)) [] (tables.new, nothing_owed) [] }
    ensures failure { (settings : Settings) (before : List Event) → fits_behind before (StartFailed s) ≡ true → is_left settings before s ≡ true
        → Stands settings tables.old before → DocumentsStand settings nothing_owed tables.old before
        → Done (λ k events. AllStand settings k events) (row_of settings before (StartFailed s))
        (with_cause before (StartFailed s)) [] (tables.new, nothing_owed) [] }
{
    match tables.last(s) {
        None => {}
        Some(g) => end_at(tables, alloc, g),
    }
}
