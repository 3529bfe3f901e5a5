// Requests that wait until a start of their group is ready (E3, E10, E11 and S2).
ghost use Rattle.std.specs.Prelude.{◌≡◌, ◌≢◌, ◌<◌, ◌++◌, ◌∷◌, [], ℕ, List, Option, Some, None, map, true, false, drop, find, length, option_copied, slice_get, IfOk, OnOk};
ghost use Rattle.event_model.specs.declared.phase.Phase.TheVariants.{Absent};
ghost use Rattle.event_model.specs.declared.stage.Stage.TheVariants.{Ready};
ghost use Rattle.event_model.specs.Does.{Does};
ghost use Rattle.event_model.specs.Event.{Event, behind, heard};
ghost use Rattle.event_model.specs.Phases.{desk_of, is_served};
ghost use Rattle.event_model.specs.Requests.{is_own};
ghost use Rattle.event_model.specs.Row.{look, send, ◌⨾◌};
ghost use Rattle.event_model.specs.Settings.{Settings};
ghost use Rattle.group_words.specs.Houses.{home_of};
ghost use Rattle.group_laws.specs.mux_model.specs.Rows.{to_start};
ghost use Rattle.group_laws.specs.group_rows.specs.Waiting.{first_waiting, is_for_start, is_meant, is_restarting, waiting_of, worker_of};
ghost use Rattle.json_text.specs.Json.{Json};
ghost use Rattle.mux_history.specs.declared.cause.Cause.TheVariants.{FromEditor};
ghost use Rattle.mux_history.specs.declared.out.Out.TheVariants.{ToEditor, ToServer};
ghost use Rattle.mux_waits.specs.held_requests.specs.declared.request.Request.{Request as Waits};
ghost use Rattle.mux_waits.specs.held_requests.specs.Tables.{ids_of, of_editor, takes};
ghost use Rattle.mux_waits.specs.Rows.{Becomes, held_of};
ghost use Rattle.mux_waits.specs.Stands.{AnswersId};
ghost use Rattle.rpc_message.specs.Message as message;
ghost use Rattle.rpc_message.specs.Message.{Id, id_bytes, message_of};
ghost use Rattle.rpc_message.specs.ValueTexts.{IsIdText};
ghost use Rattle.mux_tables.specs.declared.tables.Start.{Start};
ghost use Rattle.mux_tables.specs.Documents.{AllStand, DocumentsStand, Owed, nothing_owed, syncing};
ghost use Rattle.mux_tables.specs.Stands.{Keeps, Sends, Stands, house_in, number_in, stage_in};

use crate::tables::Tables;
use event_model::Phase;
use message_body::{Body, Memory};
use mux_history::{Out, Outs};
use mux_waits::held_requests::Request;
use std::alloc::Global;

impl Tables {
    /// E10: whether one more request of an editor may wait in a group, of so many bytes. It takes no memory.
    pub fn may_hold(&self, g: u64, e: u64, bytes: usize) -> bool
        ensures kept { result ≡ takes e bytes (held_of g self.now.origins.waiting) }
        ensures stands { (settings : Settings) (events : List Event) → Stands settings self.now events
            → result ≡ takes e bytes (waiting_of settings g events) }
    {
        self.origins.waiting.takes(g, e, bytes)
    }

    /// E10: a request of an editor that is served waits in its group, whose last start isn't ready; behind it the editor is in this
    /// phase. Where the answer is an error the tables stand for nothing any more.
    pub fn hold(&mut self, g: u64, e: u64, phase: Phase, id: Body, body: Body) -> Result<(), Memory>
        requires editor { e < length self.old.editors }
        requires joined { phase ≢ Absent }
        requires room { takes e (length body) (held_of g self.old.origins.waiting) ≡ true }
        ensures count { OnOk result (length self.new.editors ≡ length self.old.editors) }
        ensures requests { self.new.requests ≡ self.old.requests }
        ensures versions { self.new.versions ≡ self.old.versions }
        ensures lasts { self.new.lasts ≡ self.old.lasts }
        ensures stands { (settings : Settings) (events : List Event) → Stands settings self.old events → home_of settings e events ≡ Some g
            → is_served (desk_of e events).phase ≡ true → is_for_start events e body (message_of body) ≡ true → is_restarting g events ≡ true
            → id ≡ id_bytes body → (desk_of e (events ++ heard (FromEditor e body) ∷ [])).phase ≡ phase
            → OnOk result (Stands settings self.new (events ++ heard (FromEditor e body) ∷ [])) }
        ensures documents { (settings : Settings) (owed : Owed) (events : List Event) → is_for_start events e body (message_of body) ≡ true
            → DocumentsStand settings owed self.old events
            → OnOk result (DocumentsStand settings owed self.new (events ++ heard (FromEditor e body) ∷ [])) }
    {
        self.editors.set(e, phase);
        self.origins.waiting.put(g, e, id, body)?;
        Ok(())
    }

    /// The ids of an editor's requests that wait in a group, in the order in which they came.
    pub fn waiting_ids(&self, g: u64, e: u64) -> Result<Vec<Body>, Memory>
        ensures { (settings : Settings) (events : List Event) → Stands settings self.now events
            → IfOk result (λ ids. ids.items ≡ ids_of (of_editor e (waiting_of settings g events))) }
    {
        self.origins.waiting.ids_of(g, e)
    }

    /// E3 and E11: the request of an editor that waits in a group under this id. It takes no memory.
    pub fn waiting_under(&self, g: u64, e: u64, id: &[u8]) -> Option<&Request>
        ensures { (settings : Settings) (events : List Event) (i : Id) → IsIdText i id.now → Stands settings self.now events
            → option_copied result ≡ find (is_meant e i) (waiting_of settings g events) }
    {
        self.origins.waiting.find(g, e, id)
    }

    /// S2: the request that has waited longest in a group. It takes no memory.
    pub fn first_waiting(&self, g: u64) -> Option<&Request>
        ensures kept { option_copied result ≡ slice_get (held_of g self.now.origins.waiting) 0 }
        ensures stands { (settings : Settings) (events : List Event) → Stands settings self.now events
            → option_copied result ≡ slice_get (waiting_of settings g events) 0 }
    {
        self.origins.waiting.first(g)
    }

    /// S2: the request that has waited longest in the group goes to the group's last start, which is ready and gave its result, under the
    /// next number, as `ask` says, and waits no more.
    pub fn send_first(
        &mut self,
        alloc: Global,
        outs: &mut Outs,
        g: usize,
        e: u64,
        id: Body,
        work: Option<Body>,
        partial: Option<Body>,
        text: Body,
    ) -> Result<(), Memory>
        requires group { g < length self.old.lasts.items }
        requires left { (x : Start) → slice_get self.old.lasts.items g ≡ Some x → x.ids.next < x.ids.limit }
        requires ready { (x : Start) → slice_get self.old.lasts.items g ≡ Some x → x.life.stage ≡ Ready }
        ensures requests { self.new.requests ≡ self.old.requests }
        ensures versions { self.new.versions ≡ self.old.versions }
        ensures starts { OnOk result (map number_in self.new.lasts.items ≡ map number_in self.old.lasts.items) }
        ensures stages { OnOk result (map stage_in self.new.lasts.items ≡ map stage_in self.old.lasts.items) }
        ensures groups { OnOk result (map house_in self.new.lasts.items ≡ map house_in self.old.lasts.items) }
        ensures waiting { OnOk result ((x : Start) → slice_get self.old.lasts.items g ≡ Some x
            → Becomes x.life.group (drop 1) self.old.origins.waiting self.new.origins.waiting) }
        ensures does { (settings : Settings) (base : List Event) (s : ℕ) (name : Id) (method : List ℕ) (ps : Option Json) (r : Waits)
            → slice_get (map number_in self.old.lasts.items) g ≡ Some s → message_of text ≡ message.request name method ps → is_own method ≡ false
            → worker_of (behind base outs.old) ≡ None → first_waiting settings s (behind base outs.old) ≡ Some r → r.editor ≡ e
            → Sends settings s e id work partial (behind base outs.old)
            → (x : Start) → slice_get self.old.lasts.items g ≡ Some x → OnOk result (Does (λ k events. AllStand settings k events)
            (look (λ now. to_start s (syncing settings now x.life.group s e) ⨾ send (ToServer s text))) base
            (self.old, nothing_owed) outs.old (self.new, nothing_owed) outs.new) }
    {
        let group = self.lasts[g].life.group();
        self.origins.waiting.pop(group);
        self.ask(alloc, outs, g, e, id, work, partial, text)?;
        Ok(())
    }

    /// S2: the request that has waited longest in a group is answered so, and waits no more.
    pub fn answer_first(
        &mut self,
        outs: &mut Outs,
        g: u64,
        e: u64,
        body: Body,
    ) -> Result<(), Memory>
        ensures requests { self.new.requests ≡ self.old.requests }
        ensures versions { self.new.versions ≡ self.old.versions }
        ensures lasts { self.new.lasts ≡ self.old.lasts }
        ensures waiting { Becomes g (drop 1) self.old.origins.waiting self.new.origins.waiting }
        ensures does { (settings : Settings) (base : List Event) (r : Waits) → slice_get (waiting_of settings g (behind base outs.old)) 0 ≡ Some r
            → r.editor ≡ e → Keeps e body (behind base outs.old) → AnswersId r.id body
            → OnOk result (Does (λ t events. Stands settings t events) (send (ToEditor e body)) base self.old outs.old self.new outs.new) }
        ensures documents { (settings : Settings) (owed : Owed) (base : List Event) → DocumentsStand settings owed self.old (behind base outs.old)
            → OnOk result (DocumentsStand settings owed self.new (behind base outs.new)) }
    {
        self.origins.waiting.pop(g);
        outs.push(Out::ToEditor(e, body))?;
        Ok(())
    }
}
