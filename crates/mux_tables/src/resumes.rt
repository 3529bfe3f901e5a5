// What a start asks of the first editor that runs waits while none does (S12), and is asked of it then (L2).
ghost use Rattle.std.specs.Prelude.{◌≡◌, ◌<◌, ◌++◌, ◌∷◌, [], ℕ, List, map, Option, Some, false, true, decimal, length, IfOk, OnOk, slice_get};
ghost use Rattle.event_model.specs.declared.stage.Stage.TheVariants.{Ready};
ghost use Rattle.event_model.specs.Does.{Does};
ghost use Rattle.event_model.specs.Event.{Event, behind, heard};
ghost use Rattle.event_model.specs.Phases.{desk_of, is_running};
ghost use Rattle.event_model.specs.Row.{each};
ghost use Rattle.event_model.specs.Settings.{Settings};
ghost use Rattle.editor_session.specs.Sessions.{next_ask, session_of};
ghost use Rattle.group_laws.specs.group_rows.specs.AskRows.{ask};
ghost use Rattle.group_laws.specs.group_rows.specs.Asks.{Parked, asking_of, has_running, is_patient, is_taken, parked_of};
ghost use Rattle.group_words.specs.Houses.{home_of};
ghost use Rattle.json_text.specs.Json.{Json};
ghost use Rattle.mux_history.specs.declared.cause.Cause.TheVariants.{FromServer};
ghost use Rattle.rpc_message.specs.Message.{Id, message_of, request};
ghost use Rattle.rpc_message.specs.Parsed.{IsRead};
ghost use Rattle.rpc_message.specs.Texts.{with_id_text};
ghost use Rattle.mux_tables.specs.declared.tables.Start.{Start};
ghost use Rattle.mux_tables.specs.Documents.{DocumentsStand, Owed};
ghost use Rattle.mux_tables.specs.Resumes.{all_resumed, renumbered, resumed, unasked};
ghost use Rattle.mux_tables.specs.Stands.{IsWorking, Stands, number_in, stage_in};

use crate::puts::{id_of, numbered};
use crate::tables::{Start, Tables};
use ask_route::{Ask, Place};
use editor_session::Editors;
use message_body::{Body, Memory};
use mux_history::{Out, Outs};
use rpc_message::Message;
use std::alloc::Global;

// The most bytes of a body of a cause.
const MOST: usize = 268_435_456;

// A request that waited, under this number. Its body was read as it came, so that only memory can fail.
fn reread(alloc: Global, body: &Body, n: u64) -> Result<Body, Memory>
    ensures { IfOk result (λ text. text ≡ with_id_text body.now (decimal n)) }
{
    let bytes = body.bytes();
    if bytes.len() > MOST {
        return Err(Memory);
    }
    match Message::read(alloc, bytes) {
        Ok(message) => numbered(alloc, &message, n),
        Err(_) => Err(Memory),
    }
}

// The bytes of a message, as they came.
fn copied(alloc: Global, message: &Message) -> Result<Body, Memory>
    ensures { (body : List ℕ) → IsRead message.now body → IfOk result (λ copy. copy ≡ body) }
{
    Ok(Body::new(Vec::from_slice(alloc, message.bytes())?))
}

// A request that waited is asked of an editor under its next number. Where none is left it waits on.
fn renumber(
    alloc: Global,
    editors: &mut Editors,
    last: &mut Start,
    outs: &mut Outs,
    e: u64,
    id: Body,
    body: Body,
) -> Result<(), Memory>
    requires { e < length editors.old }
    ensures { OnOk result (record { editors = editors.new; start = last.new; outs = outs.new }
        ≡ renumbered e id body (record { editors = editors.old; start = last.old; outs = outs.old }) (next_ask (session_of editors.old e))) }
{
    let Some(n) = editors.ask_number(e) else {
        last.parked.park(id, body)?;
        return Ok(());
    };
    let text = reread(alloc, &body, n)?;
    last.asks.ask(e, u128::from(n), id)?;
    outs.push(Out::ToEditor(e, text))?;
    Ok(())
}

// The same of one that is parked.
fn resume(
    alloc: Global,
    editors: &mut Editors,
    last: &mut Start,
    outs: &mut Outs,
    e: u64,
    waiting: Ask,
) -> Result<(), Memory>
    requires { e < length editors.old }
    ensures { OnOk result (record { editors = editors.new; start = last.new; outs = outs.new }
        ≡ resumed e (record { editors = editors.old; start = last.old; outs = outs.old }) waiting) }
{
    let Ask { id, place } = waiting;
    match place {
        Place::Parked(body) => renumber(alloc, editors, last, outs, e, id, body),
        Place::Asked(_) => Ok(()),
    }
}

// One after the other.
fn resume_all(
    alloc: Global,
    editors: &mut Editors,
    last: &mut Start,
    outs: &mut Outs,
    e: u64,
    waiting: Vec<Ask>,
) -> Result<(), Memory>
    requires { e < length editors.old }
    ensures { OnOk result (record { editors = editors.new; start = last.new; outs = outs.new }
        ≡ all_resumed e (record { editors = editors.old; start = last.old; outs = outs.old }) waiting.items) }
{
    for ask in waiting {
        resume(alloc, editors, last, outs, e, ask)?;
    }
    Ok(())
}

impl Tables {
    /// S12: a request came that may wait, from the group's last start, which is ready, under an id that no open request has, while no
    /// editor of the group runs: it waits until one does. Where the answer is an error the tables stand for nothing any more.
    pub fn park(&mut self, alloc: Global, g: usize, message: &Message) -> Result<(), Memory>
        requires { g < length self.old.lasts.items }
        ensures requests { self.new.requests ≡ self.old.requests }
        ensures versions { self.new.versions ≡ self.old.versions }
        ensures editors { self.new.editors ≡ self.old.editors }
        ensures starts { OnOk result (map number_in self.new.lasts.items ≡ map number_in self.old.lasts.items) }
        ensures stages { OnOk result (map stage_in self.new.lasts.items ≡ map stage_in self.old.lasts.items) }
        ensures stands { (settings : Settings) (events : List Event) (body method : List ℕ) (id : Id) (params : Option Json) (s : ℕ) (x : Start)
            → slice_get self.old.lasts.items g ≡ Some x → x.life.stage ≡ Ready → slice_get (map number_in self.old.lasts.items) g ≡ Some s
            → IsRead message.now body → message_of body ≡ request id method params → is_patient method ≡ true
            → is_taken (Some id) (asking_of settings s events) ≡ false → has_running settings events s ≡ false
            → Stands settings self.old events → OnOk result (Stands settings self.new (events ++ heard (FromServer s body) ∷ [])) }
        ensures documents { (settings : Settings) (owed : Owed) (events : List Event) (body method : List ℕ) (id : Id) (params : Option Json) (s : ℕ)
            (x : Start) → slice_get self.old.lasts.items g ≡ Some x → x.life.stage ≡ Ready → slice_get (map number_in self.old.lasts.items) g ≡ Some s
            → message_of body ≡ request id method params → Stands settings self.old events
            → DocumentsStand settings owed self.old events → OnOk result (DocumentsStand settings owed self.new (events ++ heard (FromServer s body) ∷ [])) }
    {
        let id = id_of(alloc, message)?;
        let body = copied(alloc, message)?;
        let last = &mut self.lasts[g];
        last.parked.park(id, body)?;
        Ok(())
    }

    /// L2: an editor of the group begins to run by its message, which is at work: what waits at the group's last start, which is ready, is
    /// asked of it in the order of arrival, each under the editor's next number, while one below 2^64 is left. The time is linear in the
    /// bytes that are sent, and for each request logarithmic in how many are open. Where the answer is an error the tables stand for nothing
    /// any more.
    pub fn resume(&mut self, alloc: Global, outs: &mut Outs, g: usize, e: u64) -> Result<(), Memory>
        requires group { g < length self.old.lasts.items }
        requires editor { e < length self.old.editors }
        ensures requests { self.new.requests ≡ self.old.requests }
        ensures versions { self.new.versions ≡ self.old.versions }
        ensures count { OnOk result (length self.new.editors ≡ length self.old.editors) }
        ensures starts { OnOk result (map number_in self.new.lasts.items ≡ map number_in self.old.lasts.items) }
        ensures stages { OnOk result (map stage_in self.new.lasts.items ≡ map stage_in self.old.lasts.items) }
        ensures rest { OnOk result (map unasked self.new.lasts.items ≡ map unasked self.old.lasts.items) }
        ensures does { (settings : Settings) (base : List Event) (x : Start) → slice_get self.old.lasts.items g ≡ Some x → x.life.stage ≡ Ready
            → is_running (desk_of e (behind base outs.old)).phase ≡ true → home_of settings e (behind base outs.old) ≡ Some x.life.group
            → ((s : ℕ) → IsWorking settings e s (behind base outs.old))
            → OnOk result (Does (λ t events. Stands settings t events)
            (each (λ (p : Parked). ask p.body e) (parked_of settings x.life.start (behind base outs.old))) base self.old outs.old self.new outs.new) }
        ensures documents { (settings : Settings) (owed : Owed) (base : List Event) → DocumentsStand settings owed self.old (behind base outs.old)
            → OnOk result (DocumentsStand settings owed self.new (behind base outs.new)) }
    {
        let last = &mut self.lasts[g];
        let waiting = last.parked.take_parked()?;
        resume_all(alloc, &mut self.editors, last, outs, e, waiting)?;
        Ok(())
    }
}
