//! S5: the answer of a start to an editor's request.
ghost use Rattle.std.specs.Prelude.{◌≡◌, ◌<◌, ℕ, List, [], false, Option, Some, IfOk, OnOk, MatchOption, find, length, map, slice_get};
ghost use Rattle.event_model.specs.declared.stage.Stage.TheVariants.{Ready};
ghost use Rattle.event_model.specs.Does.{Alike, Does, Done};
ghost use Rattle.event_model.specs.Event.{Event, behind, heard, with_cause};
ghost use Rattle.event_model.specs.Requests.{answered_id};
ghost use Rattle.event_model.specs.Settings.{Settings};
ghost use Rattle.mux_turns.specs.group_facts.specs.Facts.{Meant};
ghost use Rattle.group_rows.specs.Answers.{answer_row, hand_on, own_version};
ghost use Rattle.group_rows.specs.Forwarded.{Forwarded, answered_by, forwarding_of};
ghost use Rattle.mux_history.specs.declared.cause.Cause.TheVariants.{FromServer};
ghost use Rattle.mux_starts.specs.Answers.{IsAsked};
ghost use Rattle.mux_starts.specs.Replies.{Answers, IsReply, reply_row};
ghost use Rattle.mux_tables.specs.declared.tables.Start.{Start};
ghost use Rattle.mux_tables.specs.Documents.{AllStand, DocumentsStand, Owed, nothing_owed};
ghost use Rattle.mux_tables.specs.Notes.{IsNoted};
ghost use Rattle.mux_tables.specs.mux_tokens.specs.Stands.{CreatedStay};
ghost use Rattle.mux_tables.specs.mux_waits.specs.Stands.{AnswersId};
ghost use Rattle.mux_tables.specs.Stands.{Keeps, ListsStay, NamesAt, Stands, forwarded_as, is_request, number_in};
ghost use Rattle.response_route.specs.Answers.{answer_text};
ghost use Rattle.rpc_message.specs.Message.{message_of};
ghost use Rattle.rpc_message.specs.Parsed.{IsRead};

use message_body::{Body, Memory};
use mux_history::Outs;
use mux_tables::Tables;
use mux_tables::id_rewrite::Pending;
use mux_turns::answered_number;
use response_route::{Mapping, answer};
use rpc_message::Message;
use std::alloc::Global;

/// What goes to an editor.
#[derive(Drop)]
struct Reply {
    editor: u64,
    id: Body,
    body: Body,
}

// The body that an editor gets of the answer to its request (V1 and V2).
fn answered(
    tables: &Tables,
    alloc: Global,
    g: usize,
    pending: &Pending,
    message: &Message,
) -> Result<Body, Memory>
    requires { g < length tables.now.lasts.items }
    ensures { (settings : Settings) (before : List Event) (body : List ℕ) (s n : ℕ) (x : Start) → IsRead message.now body
        → slice_get tables.now.lasts.items g ≡ Some x → x.life.stage ≡ Ready → slice_get (map number_in tables.now.lasts.items) g ≡ Some s
        → Stands settings tables.now before → DocumentsStand settings nothing_owed tables.now before
        → IsNoted settings s n pending.now.editor before pending.now.noted
        → IfOk result (λ text. text ≡ answer_text (own_version settings before s (forwarded_as n pending.now)) body pending.now.id) }
{
    let now = tables.versions(alloc, g, pending.editor)?;
    let mapping = Mapping {
        now: &now,
        noted: pending.noted.as_ref(),
    };
    answer(alloc, message, pending.id.bytes(), mapping)
}

// What an editor gets of the answer to its request, if it is there.
fn reply_of(
    tables: &Tables,
    alloc: Global,
    g: usize,
    pending: &Pending,
    message: &Message,
) -> Result<Option<Reply>, Memory>
    requires { g < length tables.now.lasts.items }
    ensures { (settings : Settings) (before : List Event) (body : List ℕ) (s n : ℕ) (x : Start) → IsRead message.now body
        → slice_get tables.now.lasts.items g ≡ Some x → x.life.stage ≡ Ready → slice_get (map number_in tables.now.lasts.items) g ≡ Some s
        → Stands settings tables.now before → DocumentsStand settings nothing_owed tables.now before
        → IsNoted settings s n pending.now.editor before pending.now.noted
        → IfOk result (λ reply. Alike (hand_on settings before s body (forwarded_as n pending.now)) (reply_row reply)
        × Answers settings before s body (forwarded_as n pending.now) reply) }
{
    if !tables.phase(pending.editor).is_there() {
        return Ok(None);
    }
    let body = answered(tables, alloc, g, pending, message)?;
    let id = pending.id.copy(alloc)?;
    Ok(Some(Reply {
        editor: pending.editor,
        id,
        body,
    }))
}

// What an editor gets of a message of the group's last start, which is ready and names the request of this number.
fn reply_under(
    tables: &Tables,
    alloc: Global,
    g: usize,
    n: u32,
    message: &Message,
) -> Result<Option<Reply>, Memory>
    requires { g < length tables.now.lasts.items }
    ensures { (settings : Settings) (before : List Event) (body : List ℕ) (s : ℕ) (x : Start) → IsRead message.now body
        → NamesAt (answered_id (message_of body)) (Some n)
        → slice_get tables.now.lasts.items g ≡ Some x → x.life.stage ≡ Ready → slice_get (map number_in tables.now.lasts.items) g ≡ Some s
        → ((f : Forwarded) → find (answered_by (answered_id (message_of body))) (forwarding_of settings s before).open_requests ≡ Some f → IsAsked before f)
        → Stands settings tables.now before → DocumentsStand settings nothing_owed tables.now before
        → IfOk result (λ reply. Alike (answer_row settings s before body (message_of body)) (reply_row reply)
        × MatchOption reply (Unit {0}) (IsReply settings before s body)) }
{
    match tables.request(g, n) {
        None => Ok(None),
        Some(pending) => reply_of(tables, alloc, g, pending, message),
    }
}

// The same where it may name one.
fn reply_to(
    tables: &Tables,
    alloc: Global,
    g: usize,
    n: Option<u32>,
    message: &Message,
) -> Result<Option<Reply>, Memory>
    requires { g < length tables.now.lasts.items }
    ensures { (settings : Settings) (before : List Event) (body : List ℕ) (s : ℕ) (x : Start) → IsRead message.now body
        → NamesAt (answered_id (message_of body)) n
        → slice_get tables.now.lasts.items g ≡ Some x → x.life.stage ≡ Ready → slice_get (map number_in tables.now.lasts.items) g ≡ Some s
        → ((f : Forwarded) → find (answered_by (answered_id (message_of body))) (forwarding_of settings s before).open_requests ≡ Some f → IsAsked before f)
        → Stands settings tables.now before → DocumentsStand settings nothing_owed tables.now before
        → IfOk result (λ reply. Alike (answer_row settings s before body (message_of body)) (reply_row reply)
        × MatchOption reply (Unit {0}) (IsReply settings before s body)) }
{
    match n {
        None => Ok(None),
        Some(n) => reply_under(tables, alloc, g, n, message),
    }
}

// It goes there.
fn hand_out(tables: &mut Tables, outs: &mut Outs, reply: Option<Reply>) -> Result<(), Memory>
    ensures requests { tables.new.requests ≡ tables.old.requests }
    ensures versions { tables.new.versions ≡ tables.old.versions }
    ensures does { (settings : Settings) (base : List Event)
        → MatchOption reply (Unit {0}) (λ r. Keeps r.editor r.body (behind base outs.old) × AnswersId r.id r.body)
        → OnOk result (Does (λ t events. Stands settings t events) (reply_row reply) base tables.old outs.old tables.new outs.new) }
    ensures documents { (settings : Settings) (owed : Owed) (base : List Event) → DocumentsStand settings owed tables.old (behind base outs.old)
        → OnOk result (DocumentsStand settings owed tables.new (behind base outs.new)) }
{
    match reply {
        None => Ok(()),
        Some(reply) => {
            let Reply { editor, id, body } = reply;
            tables.answer(outs, editor, id.bytes(), body)?;
            Ok(())
        }
    }
}

/// S5 with V1 and V2: a message comes from the group's last start, which is ready: where it answers an open request it goes to the
/// editor that asked, if that one is there, under its own id and with its own versions of documents, or as an error; else nothing is sent.
pub fn take_answer(
    tables: &mut Tables,
    alloc: Global,
    outs: &mut Outs,
    g: usize,
    message: &Message,
) -> Result<(), Memory>
    requires { g < length tables.old.lasts.items }
    ensures requests { tables.new.requests ≡ tables.old.requests }
    ensures versions { tables.new.versions ≡ tables.old.versions }
    ensures does { (settings : Settings) (before : List Event) (body : List ℕ) (s : ℕ) (x : Start) → IsRead message.now body → is_request (message_of body) ≡ false
        → CreatedStay settings s before (heard (FromServer s body)) → ListsStay s before (heard (FromServer s body)) → outs.old ≡ []
        → slice_get tables.old.lasts.items g ≡ Some x → x.life.stage ≡ Ready → slice_get (map number_in tables.old.lasts.items) g ≡ Some s
        → ((f : Forwarded) → find (answered_by (answered_id (message_of body))) (forwarding_of settings s before).open_requests ≡ Some f → IsAsked before f)
        → Meant before → Stands settings tables.old before → DocumentsStand settings nothing_owed tables.old before
        → OnOk result (Done (λ k events. AllStand settings k events) (answer_row settings s before body (message_of body))
        (with_cause before (FromServer s body)) [] (tables.new, nothing_owed) outs.new) }
{
    let n = answered_number(message);
    let reply = reply_to(tables, alloc, g, n, message)?;
    tables.hear_answer(g, n);
    hand_out(tables, outs, reply)?;
    Ok(())
}
