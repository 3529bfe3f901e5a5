// Editors are asked what a start asks (S9, S11, S12), and what is looked up of it (S14).
ghost use Rattle.std.specs.Prelude.{◌≡◌, ◌<◌, ◌||◌, ℕ, List, map, Option, Some, None, false, true, if◌then◌else◌, decimal, find, length, option_map, IfOk, IfSome, OnOk, slice_get};
ghost use Rattle.std.specs.List.{Contains, list_any};
ghost use Rattle.event_model.specs.declared.stage.Stage.TheVariants.{Ready};
ghost use Rattle.event_model.specs.Does.{Does};
ghost use Rattle.event_model.specs.Event.{Event, behind};
ghost use Rattle.event_model.specs.Phases.{desk_of, is_running};
ghost use Rattle.event_model.specs.Row.{send};
ghost use Rattle.event_model.specs.Settings.{Settings};
ghost use Rattle.ask_route.specs.Tables.{is_under as is_kept_under};
ghost use Rattle.group_laws.specs.group_rows.specs.Created.{is_creating};
ghost use Rattle.group_laws.specs.group_rows.specs.AskRows.{ask, last_among};
ghost use Rattle.group_laws.specs.group_rows.specs.Asks.{asking_of, asks_of, has_number, is_patient, is_taken, is_under, next_ask};
ghost use Rattle.group_laws.specs.group_rows.specs.Forwarded.{forwarding_of};
ghost use Rattle.json_text.specs.Json.{Json};
ghost use Rattle.mux_history.specs.declared.out.Out.TheVariants.{ToEditor};
ghost use Rattle.rpc_message.specs.Message.{Id, id_bytes, message_of, request};
ghost use Rattle.rpc_message.specs.Parsed.{IsRead};
ghost use Rattle.rpc_message.specs.Texts.{with_id_text};
ghost use Rattle.rpc_message.specs.ValueTexts.{IsIdText};
ghost use Rattle.mux_tables.specs.declared.tables.Start.{Start};
ghost use Rattle.mux_tables.specs.Documents.{DocumentsStand, Owed};
ghost use Rattle.mux_tables.specs.Puts.{IsAtWork, IsNextAsk};
ghost use Rattle.mux_tables.specs.Refusals.{seat_from};
ghost use Rattle.mux_tables.specs.Stands.{Stands, number_in, stage_in};

use crate::tables::{Start, Tables};
use ask_route::Seat;
use itoa::Buffer;
use message_body::{Body, Memory};
use mux_history::{Out, Outs};
use rpc_message::Message;
use std::alloc::Global;

// The request under this number.
pub fn numbered(alloc: Global, message: &Message, n: u64) -> Result<Body, Memory>
    ensures { (body : List ℕ) → IsRead message.now body → IfOk result (λ text. text ≡ with_id_text body (decimal n)) }
{
    let mut digits = Buffer::new();
    message.with_id(alloc, digits.format(n).as_bytes())
}

// The bytes of its id.
pub fn id_of(alloc: Global, message: &Message) -> Result<Body, Memory>
    ensures { (body : List ℕ) → IsRead message.now body → IfOk result (λ id. id ≡ id_bytes body) }
{
    Ok(Body::new(Vec::from_slice(alloc, message.id_bytes())?))
}

// Whether a start asked something under this id of an editor, or asks it of the first one that runs.
fn has_open(last: &Start, id: &[u8]) -> bool
    ensures { result ≡ (list_any (is_kept_under id.now) last.now.asks || list_any (is_kept_under id.now) last.now.parked) }
{
    last.asks.is_open(id) || last.parked.is_open(id)
}

impl Tables {
    /// S9, and behind E10, E16 and E17: an editor that runs is asked what a request asks, under the editor's next number, while one below 2^64
    /// is left. Nothing is kept of it, since no request is at work that one editor answers, and this is none that may wait for an editor. Where
    /// the answer is an error the tables stand for nothing any more.
    pub fn question(
        &mut self,
        alloc: Global,
        outs: &mut Outs,
        e: u64,
        message: &Message,
    ) -> Result<(), Memory>
        requires { e < length self.old.editors }
        ensures requests { self.new.requests ≡ self.old.requests }
        ensures versions { self.new.versions ≡ self.old.versions }
        ensures lasts { self.new.lasts ≡ self.old.lasts }
        ensures count { OnOk result (length self.new.editors ≡ length self.old.editors) }
        ensures does { (settings : Settings) (base : List Event) (body method : List ℕ) (id : Id) (params : Option Json) → IsRead message.now body
            → message_of body ≡ request id method params → is_creating method ≡ false → is_patient method ≡ false → is_running (desk_of e (behind base outs.old)).phase ≡ true
            → ((s : ℕ) → (asking_of settings s (behind base outs.old)).asker ≡ None)
            → OnOk result (Does (λ t events. Stands settings t events) (ask body e) base self.old outs.old self.new outs.new) }
        ensures documents { (settings : Settings) (owed : Owed) (base : List Event) → DocumentsStand settings owed self.old (behind base outs.old)
            → OnOk result (DocumentsStand settings owed self.new (behind base outs.new)) }
    {
        let Some(n) = self.editors.ask_number(e) else {
            return Ok(());
        };
        let text = numbered(alloc, message, n)?;
        outs.push(Out::ToEditor(e, text))?;
        Ok(())
    }

    /// The number of the next request to an editor that runs, while one below 2^64 is left.
    pub fn next_ask(&self, e: u64) -> Option<u64>
        requires { e < length self.now.editors }
        ensures { (settings : Settings) (events : List Event) → is_running (desk_of e events).phase ≡ true → Stands settings self.now events
            → result ≡ (if has_number e events then Some (next_ask e events) else None) }
    {
        self.editors.next_ask(e)
    }

    /// S11, S12 and V3: an editor that runs is sent this text, a request under its next number, which is left, for the request at work, which
    /// is `message` and which it is to answer alone. It is kept with the id that it has at the group's last start, which is ready and has no other open under it. Where the
    /// answer is an error the tables stand for nothing any more.
    pub fn put_text(
        &mut self,
        alloc: Global,
        outs: &mut Outs,
        g: usize,
        e: u64,
        message: &Message,
        text: Body,
    ) -> Result<(), Memory>
        requires group { g < length self.old.lasts.items }
        requires editor { e < length self.old.editors }
        ensures requests { self.new.requests ≡ self.old.requests }
        ensures versions { self.new.versions ≡ self.old.versions }
        ensures count { OnOk result (length self.new.editors ≡ length self.old.editors) }
        ensures starts { OnOk result (map number_in self.new.lasts.items ≡ map number_in self.old.lasts.items) }
        ensures stages { OnOk result (map stage_in self.new.lasts.items ≡ map stage_in self.old.lasts.items) }
        ensures does { (settings : Settings) (base : List Event) (body method : List ℕ) (id : Id) (params : Option Json) (x : Start)
            → slice_get self.old.lasts.items g ≡ Some x → x.life.stage ≡ Ready → IsRead message.now body → is_creating method ≡ false
            → is_running (desk_of e (behind base outs.old)).phase ≡ true
            → IsNextAsk e (behind base outs.old) method params text → IsAtWork settings x.life.start id (id_bytes body) (behind base outs.old)
            → OnOk result (Does (λ t events. Stands settings t events) (send (ToEditor e text)) base self.old outs.old self.new outs.new) }
        ensures documents { (settings : Settings) (owed : Owed) (base : List Event) → DocumentsStand settings owed self.old (behind base outs.old)
            → OnOk result (DocumentsStand settings owed self.new (behind base outs.new)) }
    {
        let Some(n) = self.editors.ask_number(e) else {
            return Ok(());
        };
        let id = id_of(alloc, message)?;
        let last = &mut self.lasts[g];
        last.asks.ask(e, u128::from(n), id)?;
        outs.push(Out::ToEditor(e, text))?;
        Ok(())
    }

    /// S11 and S12: an editor that runs is asked what the request at work asks of it alone, under the editor's next number, while one below
    /// 2^64 is left; it is kept with the id that it has at the group's last start, which is ready and has no other open under it. Where
    /// the answer is an error the tables stand for nothing any more.
    pub fn put(
        &mut self,
        alloc: Global,
        outs: &mut Outs,
        g: usize,
        e: u64,
        message: &Message,
    ) -> Result<(), Memory>
        requires group { g < length self.old.lasts.items }
        requires editor { e < length self.old.editors }
        ensures requests { self.new.requests ≡ self.old.requests }
        ensures versions { self.new.versions ≡ self.old.versions }
        ensures count { OnOk result (length self.new.editors ≡ length self.old.editors) }
        ensures starts { OnOk result (map number_in self.new.lasts.items ≡ map number_in self.old.lasts.items) }
        ensures stages { OnOk result (map stage_in self.new.lasts.items ≡ map stage_in self.old.lasts.items) }
        ensures does { (settings : Settings) (base : List Event) (body method : List ℕ) (id : Id) (params : Option Json) (x : Start)
            → slice_get self.old.lasts.items g ≡ Some x → x.life.stage ≡ Ready → IsRead message.now body
            → message_of body ≡ request id method params → is_creating method ≡ false → is_running (desk_of e (behind base outs.old)).phase ≡ true
            → IsAtWork settings x.life.start id (id_bytes body) (behind base outs.old)
            → OnOk result (Does (λ t events. Stands settings t events) (ask body e) base self.old outs.old self.new outs.new) }
        ensures documents { (settings : Settings) (owed : Owed) (base : List Event) → DocumentsStand settings owed self.old (behind base outs.old)
            → OnOk result (DocumentsStand settings owed self.new (behind base outs.new)) }
    {
        let Some(n) = self.next_ask(e) else {
            return Ok(());
        };
        let text = numbered(alloc, message, n)?;
        self.put_text(alloc, outs, g, e, message, text)?;
        Ok(())
    }

    /// Whether the group's last start, which is ready, asked something under this id that isn't answered: of an editor, or of the first one
    /// that runs.
    pub fn is_asked(&self, g: usize, id: &[u8]) -> bool
        requires { g < length self.now.lasts.items }
        ensures { (settings : Settings) (events : List Event) (x : Start) (i : Id) → slice_get self.now.lasts.items g ≡ Some x → x.life.stage ≡ Ready
            → IsIdText i id.now → Stands settings self.now events → result ≡ is_taken (Some i) (asking_of settings x.life.start events) }
    {
        has_open(&self.lasts[g], id)
    }

    /// S14: the editor of which the group's last start, which is ready, asked something under this id that isn't answered, and the number
    /// there.
    pub fn asked_under(&self, g: usize, id: &[u8]) -> Option<Seat>
        requires { g < length self.now.lasts.items }
        ensures { (settings : Settings) (events : List Event) (x : Start) (i : Id) → slice_get self.now.lasts.items g ≡ Some x → x.life.stage ≡ Ready
            → IsIdText i id.now → Stands settings self.now events
            → result ≡ option_map seat_from (find (is_under (Some i)) (asks_of settings x.life.start events)) }
    {
        self.lasts[g].asks.find(id)
    }

    /// S11: the editor, among these, of the last of their open requests at the group's last start. It walks down from the greatest open
    /// number to that one, and looks through `among` at each.
    pub fn last_among(&self, g: usize, among: &[u64]) -> Option<u64>
        requires { g < length self.now.lasts.items }
        ensures last { (settings : Settings) (events : List Event) (s : ℕ) → slice_get (map number_in self.now.lasts.items) g ≡ Some s
            → Stands settings self.now events → result ≡ last_among among.now (forwarding_of settings s events).open_requests }
        ensures one { IfSome result (λ e. Contains among.now e) }
    {
        self.lasts[g].ids.last_editor(among)
    }
}
