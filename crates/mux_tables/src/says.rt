// What each out does to the tables.
ghost use Rattle.std.specs.Prelude.{◌≡◌, ◌≢◌, ◌<◌, ◌≤◌, ◌^◌, ◌++◌, ◌∷◌, [], ℕ, List, map, None, Option, Some, false, true, length, IfOk, OnOk, codes, bytes_eq, slice_get, nat_eq};
ghost use Rattle.std.specs.List.{AllByRecursion};
ghost use Rattle.event_model.specs.declared.stage.Stage.TheVariants.{Ended, Ready};
ghost use Rattle.event_model.specs.Does.{Does};
ghost use Rattle.event_model.specs.Event.{Event, behind, requests};
ghost use Rattle.event_model.specs.Phases.{desk_of, is_running, is_served, phase_closed};
ghost use Rattle.event_model.specs.Requests.{answered_id, is_own};
ghost use Rattle.event_model.specs.Row.{look, send, ◌⨾◌};
ghost use Rattle.event_model.specs.Settings.{Settings};
ghost use Rattle.event_model.specs.Stages.{is_ready};
ghost use Rattle.group_words.specs.Houses.{home_of};
ghost use Rattle.group_words.specs.Rows.{spawn};
ghost use Rattle.group_laws.specs.mux_model.specs.Rows.{to_start};
ghost use Rattle.json_text.specs.Json.{Json};
ghost use Rattle.mux_history.specs.declared.out.Out.{Out};
ghost use Rattle.mux_history.specs.declared.out.Out.TheVariants.{CloseEditor, EndServer, ToEditor, ToServer};
ghost use Rattle.event_model.specs.Members.{named_of};
ghost use Rattle.rpc_message.specs.Message as message;
ghost use Rattle.rpc_message.specs.Message.{Id, message_of};
ghost use Rattle.mux_tables.specs.declared.tables.Start.{Start};
ghost use Rattle.mux_tables.specs.declared.tables.Tables.{Tables as State};
ghost use Rattle.mux_tables.specs.Waits.{Released};
ghost use Rattle.document_model.specs.Sayings.{nothing, saying_of};
ghost use Rattle.group_laws.specs.group_rows.specs.Asks.{Ask, Parked, asks_of, is_under, parked_of, waits_under};
ghost use Rattle.group_laws.specs.group_rows.specs.Forwarded.{is_written, moves_ids};
ghost use Rattle.group_laws.specs.group_rows.specs.Texts.{is_synced};
ghost use Rattle.group_laws.specs.group_rows.specs.Waiting.{first_waiting, worker_of};
ghost use Rattle.mux_waits.specs.held_requests.specs.declared.request.Request.{Request as Waits};
ghost use Rattle.mux_tables.specs.Documents.{AllStand, DocumentsStand, Leaves, Owed, nothing_owed, owes, syncing, to};
ghost use Rattle.mux_waits.specs.Rows.{BecomesAt};
ghost use Rattle.mux_waits.specs.Stands.{AnswersId};
ghost use Rattle.mux_waits.specs.held_requests.specs.Tables.{is_under as is_waiting_under};
ghost use Rattle.mux_waits.specs.numbered_rows.specs.Rows.{less};
ghost use Rattle.mux_tables.specs.Names.{id_in};
ghost use Rattle.mux_tables.specs.Refusals.{asks_in};
ghost use Rattle.mux_tables.specs.Stands.{IsNew, Keeps, Sends, Stands, Welcomes, house_in, is_answer, number_in, stage_in, start_for};

use crate::documents::{leave, sync, unready};
use crate::notes::noted;
use crate::requests::{keep, mark};
use crate::stops::{begin_stop, end_stop};
use crate::tables::{Start, Tables};
use ask_route::Asks;
use diagnostics_route::Lists;
use event_model::Phase;
use focus_switch::Shared;
use group_laws::registrations::Live;
use id_rewrite::{IdTable, Pending};
use message_body::{Body, Memory};
use mux_history::{Out, Outs};
use restart_replay::Life;
use std::alloc::Global;

// The phase of an editor whose link is to be ended.
fn closed(phase: Phase) -> Phase
    ensures { result ≡ phase_closed phase }
{
    match phase {
        Phase::Gone => Phase::Gone,
        _ => Phase::Closed,
    }
}

impl Tables {
    /// A body that is no request and answers none goes to an editor, which it leaves in its phase.
    #[tactic(auto, using(crate::proofs::Said::told_does))]
    pub fn tell(&self, outs: &mut Outs, e: u64, body: Body) -> Result<(), Memory>
        ensures outs { OnOk result (outs.new ≡ outs.old ++ ToEditor e body ∷ []) }
        ensures does { (settings : Settings) (base : List Event) → Keeps e body (behind base outs.old)
            → answered_id (message_of body) ≡ None
            → OnOk result (Does (λ t events. Stands settings t events) (send (ToEditor e body)) base self.now outs.old self.now outs.new) }
        ensures documents { (settings : Settings) (owed : Owed) (base : List Event) → DocumentsStand settings owed self.now (behind base outs.old)
            → OnOk result (DocumentsStand settings owed self.now (behind base outs.new)) }
    {
        outs.push(Out::ToEditor(e, body))?;
        Ok(())
    }

    /// An answer to its request of this id goes to an editor, which it leaves in its phase; where the request waited it waits no more.
    pub fn answer(&mut self, outs: &mut Outs, e: u64, id: &[u8], body: Body) -> Result<(), Memory>
        ensures requests { self.new.requests ≡ self.old.requests }
        ensures versions { self.new.versions ≡ self.old.versions }
        ensures lasts { self.new.lasts ≡ self.old.lasts }
        ensures editors { self.new.editors ≡ self.old.editors }
        ensures same { self.new.documents ≡ self.old.documents }
        ensures outs { OnOk result (outs.new ≡ outs.old ++ ToEditor e body ∷ []) }
        ensures waiting { (settings : Settings) (events : List Event) → Stands settings self.old events
            → BecomesAt (home_of settings e events) (less (is_waiting_under e id.now)) self.old.origins.waiting self.new.origins.waiting }
        ensures does { (settings : Settings) (base : List Event) → Keeps e body (behind base outs.old) → AnswersId id.now body
            → OnOk result (Does (λ t events. Stands settings t events) (send (ToEditor e body)) base self.old outs.old self.new outs.new) }
        ensures documents { (settings : Settings) (owed : Owed) (base : List Event) → DocumentsStand settings owed self.old (behind base outs.old)
            → OnOk result (DocumentsStand settings owed self.new (behind base outs.new)) }
    {
        let home = self.home(e);
        self.origins.waiting.answer(home, e, id);
        outs.push(Out::ToEditor(e, body))?;
        Ok(())
    }

    /// The result of its `initialize`, which has this id, goes to an editor that waits.
    pub fn welcome(&mut self, outs: &mut Outs, e: u64, id: &[u8], body: Body) -> Result<(), Memory>
        requires { e < length self.old.editors }
        ensures requests { self.new.requests ≡ self.old.requests }
        ensures versions { self.new.versions ≡ self.old.versions }
        ensures lasts { self.new.lasts ≡ self.old.lasts }
        ensures count { OnOk result (length self.new.editors ≡ length self.old.editors) }
        ensures ids { OnOk result ((n : ℕ) → id_in (slice_get self.new.editors n) ≡ id_in (slice_get self.old.editors n)) }
        ensures outs { OnOk result (outs.new ≡ outs.old ++ ToEditor e body ∷ []) }
        ensures does { (settings : Settings) (base : List Event) → Welcomes e body (behind base outs.old) → AnswersId id.now body
            → OnOk result (Does (λ t events. Stands settings t events) (send (ToEditor e body)) base self.old outs.old self.new outs.new) }
        ensures documents { (settings : Settings) (owed : Owed) (base : List Event) → DocumentsStand settings owed self.old (behind base outs.old)
            → OnOk result (DocumentsStand settings owed self.new (behind base outs.new)) }
    {
        let home = self.home(e);
        self.origins.waiting.answer(home, e, id);
        self.editors.set(e, Phase::Answered);
        outs.push(Out::ToEditor(e, body))?;
        Ok(())
    }

    /// An editor's link is to be ended; its group may be idle from now on, and its documents are closed: the bodies that the group's
    /// start is owed for them. One that isn't served has none. Where the answer is an error the tables stand for nothing any more.
    pub fn close(&mut self, alloc: Global, outs: &mut Outs, e: u64) -> Result<Outs, Memory>
        requires { e < length self.old.editors }
        ensures requests { self.new.requests ≡ self.old.requests }
        ensures versions { self.new.versions ≡ self.old.versions }
        ensures lasts { self.new.lasts ≡ self.old.lasts }
        ensures count { OnOk result (length self.new.editors ≡ length self.old.editors) }
        ensures ids { OnOk result ((n : ℕ) → id_in (slice_get self.new.editors n) ≡ id_in (slice_get self.old.editors n)) }
        ensures outs { OnOk result (outs.new ≡ outs.old ++ CloseEditor e ∷ []) }
        ensures does { (settings : Settings) (base : List Event)
            → OnOk result (Does (λ t events. Stands settings t events) (send (CloseEditor e)) base self.old outs.old self.new outs.new) }
        ensures documents { (settings : Settings) (base : List Event) → Stands settings self.old (behind base outs.old)
            → DocumentsStand settings nothing_owed self.old (behind base outs.old)
            → IfOk result (λ owed. Leaves settings (behind base outs.old) e (home_of settings e (behind base outs.old))
            (start_for settings e (behind base outs.old)) owed self.new (behind base outs.new)) }
        ensures owing { (settings : Settings) (owing : Owed) (base : List Event) → Stands settings self.old (behind base outs.old)
            → DocumentsStand settings owing self.old (behind base outs.old)
            → OnOk result ((later : Owed) × DocumentsStand settings later self.new (behind base outs.new)) }
        ensures unserved { (settings : Settings) (owing : Owed) (base : List Event) → Stands settings self.old (behind base outs.old)
            → is_served (desk_of e (behind base outs.old)).phase ≡ false → DocumentsStand settings owing self.old (behind base outs.old)
            → IfOk result (λ owed. (owed ≡ []) × DocumentsStand settings owing self.new (behind base outs.new)) }
        // where the documents are ahead of the events, by the end of this link and of others
        ensures ahead { (settings : Settings) (owing : Owed) (base : List Event) (more : List Out)
            → is_running (desk_of e (behind (behind base outs.old) (CloseEditor e ∷ more))).phase ≡ false
            → DocumentsStand settings owing self.old (behind (behind base outs.old) (CloseEditor e ∷ more))
            → OnOk result (DocumentsStand settings owing self.new (behind (behind base outs.new) more)) }
    {
        let phase = self.editors.phase(e);
        let home = self.editors.group(e);
        self.editors.set(e, closed(phase));
        self.empty(home, phase.is_begun())?;
        self.origins.created.forget_editor(e)?;
        self.origins.waiting.leave(home, e);
        let place = self.place_in(home);
        let owed = leave(alloc, &mut self.documents, place, e)?;
        outs.push(Out::CloseEditor(e))?;
        Ok(owed)
    }

    /// The group's last start, which is ready, is sent the bodies that it is owed.
    pub fn pay(&self, outs: &mut Outs, owed: Outs) -> Result<(), Memory>
        ensures outs { OnOk result (outs.new ≡ outs.old ++ owed) }
        ensures does { (settings : Settings) (base : List Event) (g : ℕ) (x : Start) (bodies : List (List ℕ))
            → slice_get self.now.lasts.items g ≡ Some x → x.life.stage ≡ Ready → owed ≡ to x.life.start bodies
            → OnOk result (Does (λ k events. AllStand settings k events)
            (to_start x.life.start bodies) base (self.now, owes x.life.group bodies) outs.old (self.now, nothing_owed) outs.new) }
    {
        outs.append(owed)?;
        Ok(())
    }

    /// A body that is no editor's request, no `$/cancelRequest`, no `shutdown`, and no answer to a start that is ready goes to the group's
    /// last start.
    pub fn notify(&self, outs: &mut Outs, g: usize, text: Body) -> Result<(), Memory>
        requires { g < length self.now.lasts.items }
        ensures outs { (s : ℕ) → slice_get (map number_in self.now.lasts.items) g ≡ Some s → OnOk result (outs.new ≡ outs.old ++ ToServer s text ∷ []) }
        ensures does { (settings : Settings) (base : List Event) (s : ℕ) → slice_get (map number_in self.now.lasts.items) g ≡ Some s
            → requests (codes "shutdown") (message_of text) ≡ false → moves_ids (message_of text) ≡ false
            → ((x : Start) → slice_get self.now.lasts.items g ≡ Some x → is_ready x.life.stage ≡ true → is_answer (message_of text) ≡ false)
            → OnOk result (Does (λ t events. Stands settings t events) (send (ToServer s text)) base self.now outs.old self.now outs.new) }
        ensures documents { (settings : Settings) (owed : Owed) (base : List Event) → saying_of (message_of text) ≡ nothing
            → is_synced (message_of text) ≡ false → DocumentsStand settings owed self.now (behind base outs.old)
            → OnOk result (DocumentsStand settings owed self.now (behind base outs.new)) }
        // by which no editor's message goes on
        ensures idle { (settings : Settings) (owed : Owed) (base : List Event) (method : List ℕ) (ps : Option Json)
            → message_of text ≡ message.notification method ps → saying_of (message_of text) ≡ nothing
            → worker_of (behind base outs.old) ≡ None → DocumentsStand settings owed self.now (behind base outs.old)
            → OnOk result (DocumentsStand settings owed self.now (behind base outs.new)) }
    {
        outs.push(Out::ToServer(self.lasts[g].life.start(), text))?;
        Ok(())
    }

    /// An answer to a request of the group's last start goes there, under the id of no ask that is left, nor of what waits.
    pub fn respond(&self, outs: &mut Outs, g: usize, text: Body) -> Result<(), Memory>
        requires { g < length self.now.lasts.items }
        ensures does { (settings : Settings) (base : List Event) (s : ℕ) → slice_get (map number_in self.now.lasts.items) g ≡ Some s
            → requests (codes "shutdown") (message_of text) ≡ false → moves_ids (message_of text) ≡ false
            → AllByRecursion (λ (a : Ask). is_under (answered_id (message_of text)) a ≡ false) (asks_of settings s (behind base outs.old))
            → AllByRecursion (λ (p : Parked). waits_under (answered_id (message_of text)) p ≡ false) (parked_of settings s (behind base outs.old))
            → OnOk result (Does (λ t events. Stands settings t events) (send (ToServer s text)) base self.now outs.old self.now outs.new) }
        ensures documents { (settings : Settings) (owed : Owed) (base : List Event) → saying_of (message_of text) ≡ nothing
            → is_synced (message_of text) ≡ false → DocumentsStand settings owed self.now (behind base outs.old)
            → OnOk result (DocumentsStand settings owed self.now (behind base outs.new)) }
    {
        outs.push(Out::ToServer(self.lasts[g].life.start(), text))?;
        Ok(())
    }

    /// E10: an editor's request goes to the group's last start, which is ready, under the next number: `text` is its body under that
    /// number, `id` what the editor called it, and `work` and `partial` the texts of its tokens for progress, where it has them. Before
    /// it the start is sent the editor's text of each of its documents, where it has another; behind that the versions of these documents
    /// are noted. Where the answer is an error the tables stand for nothing any more.
    pub fn ask(
        &mut self,
        alloc: Global,
        outs: &mut Outs,
        g: usize,
        e: u64,
        id: Body,
        work: Option<Body>,
        partial: Option<Body>,
        text: Body,
    ) -> Result<(), Memory>
        requires group { g < length self.old.lasts.items }
        requires left { (x : Start) → slice_get self.old.lasts.items g ≡ Some x → x.ids.next < x.ids.limit }
        requires ready { (x : Start) → slice_get self.old.lasts.items g ≡ Some x → x.life.stage ≡ Ready }
        ensures requests { self.new.requests ≡ self.old.requests }
        ensures versions { self.new.versions ≡ self.old.versions }
        ensures starts { OnOk result (map number_in self.new.lasts.items ≡ map number_in self.old.lasts.items) }
        ensures stages { OnOk result (map stage_in self.new.lasts.items ≡ map stage_in self.old.lasts.items) }
        ensures groups { OnOk result (map house_in self.new.lasts.items ≡ map house_in self.old.lasts.items) }
        ensures origins { self.new.origins ≡ self.old.origins }
        // S2: where the request had waited longest in the group, and was just taken out
        ensures waited { (settings : Settings) (base : List Event) (t : State) (x : Start) (s : ℕ) (name : Id) (method : List ℕ) (ps : Option Json) (r : Waits)
            → Released x.life.group t self.old → slice_get t.lasts.items g ≡ Some x → slice_get (map number_in t.lasts.items) g ≡ Some s
            → message_of text ≡ message.request name method ps → is_own method ≡ false
            → worker_of (behind base outs.old) ≡ None → first_waiting settings s (behind base outs.old) ≡ Some r → r.editor ≡ e
            → Sends settings s e id work partial (behind base outs.old) → OnOk result (Does (λ k events. AllStand settings k events)
            (look (λ now. to_start s (syncing settings now x.life.group s e) ⨾ send (ToServer s text))) base
            (t, nothing_owed) outs.old (self.new, nothing_owed) outs.new) }
        ensures does { (settings : Settings) (base : List Event) (s : ℕ) (name : Id) (method : List ℕ) (ps : Option Json)
            → slice_get (map number_in self.old.lasts.items) g ≡ Some s → message_of text ≡ message.request name method ps → is_own method ≡ false
            → Sends settings s e id work partial (behind base outs.old) → worker_of (behind base outs.old) ≡ Some e
            → (x : Start) → slice_get self.old.lasts.items g ≡ Some x → OnOk result (Does (λ k events. AllStand settings k events)
            (look (λ now. to_start s (syncing settings now x.life.group s e) ⨾ send (ToServer s text))) base
            (self.old, nothing_owed) outs.old (self.new, nothing_owed) outs.new) }
    {
        let told = sync(alloc, &mut self.documents, g, e)?;
        outs.append(told)?;
        let noted = noted(alloc, self.documents.as_slice(), g, e)?;
        let last = &mut self.lasts[g];
        let asked = Pending {
            editor: e,
            id,
            work,
            partial,
            cancelled: false,
            noted: Some(noted),
        };
        keep(&mut last.ids, asked)?;
        outs.push(Out::ToServer(last.life.start(), text))?;
        Ok(())
    }

    /// E16 and E17: an editor's notification goes to the group's last start, which is ready, as it came. Before it the start is sent the
    /// editor's text of each of its documents, where it has another. Where the answer is an error the tables stand for nothing any more.
    pub fn pass_notice(
        &mut self,
        alloc: Global,
        outs: &mut Outs,
        g: usize,
        e: u64,
        text: Body,
    ) -> Result<(), Memory>
        requires group { g < length self.old.lasts.items }
        requires ready { (x : Start) → slice_get self.old.lasts.items g ≡ Some x → x.life.stage ≡ Ready }
        ensures requests { self.new.requests ≡ self.old.requests }
        ensures versions { self.new.versions ≡ self.old.versions }
        ensures lasts { self.new.lasts ≡ self.old.lasts }
        ensures does { (settings : Settings) (base : List Event) (s : ℕ) (method : List ℕ) (ps : Option Json)
            → slice_get (map number_in self.old.lasts.items) g ≡ Some s → message_of text ≡ message.notification method ps
            → is_synced (message_of text) ≡ true → worker_of (behind base outs.old) ≡ Some e
            → (x : Start) → slice_get self.old.lasts.items g ≡ Some x → OnOk result (Does (λ k events. AllStand settings k events)
            (look (λ now. to_start s (syncing settings now x.life.group s e) ⨾ send (ToServer s text))) base
            (self.old, nothing_owed) outs.old (self.new, nothing_owed) outs.new) }
    {
        let told = sync(alloc, &mut self.documents, g, e)?;
        outs.append(told)?;
        outs.push(Out::ToServer(self.lasts[g].life.start(), text))?;
        Ok(())
    }

    /// The request of a number is cancelled at the group's last start: `text` is the notification `$/cancelRequest` that names it.
    pub fn cancel(&mut self, outs: &mut Outs, g: usize, n: u32, text: Body) -> Result<(), Memory>
        requires { g < length self.old.lasts.items }
        ensures requests { self.new.requests ≡ self.old.requests }
        ensures versions { self.new.versions ≡ self.old.versions }
        ensures starts { OnOk result (map number_in self.new.lasts.items ≡ map number_in self.old.lasts.items) }
        ensures stages { OnOk result (map stage_in self.new.lasts.items ≡ map stage_in self.old.lasts.items) }
        ensures asks { OnOk result (map asks_in self.new.lasts.items ≡ map asks_in self.old.lasts.items) }
        ensures groups { OnOk result (map house_in self.new.lasts.items ≡ map house_in self.old.lasts.items) }
        ensures does { (settings : Settings) (base : List Event) (s : ℕ) (method : List ℕ) (ps : Option Json)
            → slice_get (map number_in self.old.lasts.items) g ≡ Some s → message_of text ≡ message.notification method ps
            → bytes_eq method (codes "$/cancelRequest") ≡ true
            → ((k : ℕ) → k < 2 ^ 32 → is_written (named_of (codes "id") ps) k ≡ nat_eq k n)
            → OnOk result (Does (λ t events. Stands settings t events) (send (ToServer s text)) base self.old outs.old self.new outs.new) }
        ensures documents { (settings : Settings) (owed : Owed) (base : List Event) (method : List ℕ) (ps : Option Json)
            → message_of text ≡ message.notification method ps → bytes_eq method (codes "$/cancelRequest") ≡ true
            → DocumentsStand settings owed self.old (behind base outs.old) → OnOk result (DocumentsStand settings owed self.new (behind base outs.new)) }
    {
        let last = &mut self.lasts[g];
        mark(&mut last.ids, n);
        outs.push(Out::ToServer(last.life.start(), text))?;
        Ok(())
    }

    /// The group's last start is sent `shutdown` under this number. Where the answer is an error the tables stand for nothing any more.
    pub fn shut(&mut self, outs: &mut Outs, g: usize, n: u32, text: Body) -> Result<(), Memory>
        requires group { g < length self.old.lasts.items }
        requires ready { (x : Start) → slice_get self.old.lasts.items g ≡ Some x → x.life.stage ≡ Ready }
        ensures starts { OnOk result (map number_in self.new.lasts.items ≡ map number_in self.old.lasts.items) }
        ensures requests { self.new.requests ≡ self.old.requests }
        ensures versions { self.new.versions ≡ self.old.versions }
        ensures does { (settings : Settings) (base : List Event) (s : ℕ) (name : Id) (ps : Option Json)
            → slice_get (map number_in self.old.lasts.items) g ≡ Some s → message_of text ≡ message.request name (codes "shutdown") ps
            → OnOk result (Does (λ t events. Stands settings t events) (send (ToServer s text)) base self.old outs.old self.new outs.new) }
        ensures documents { (settings : Settings) (owed : Owed) (base : List Event) (name : Id) (ps : Option Json)
            → message_of text ≡ message.request name (codes "shutdown") ps
            → DocumentsStand settings owed self.old (behind base outs.old) → OnOk result (DocumentsStand settings owed self.new (behind base outs.new)) }
    {
        let now = self.course.time;
        unready(&mut self.documents, g);
        let last = &mut self.lasts[g];
        last.life.stop(n, now);
        last.shown = None;
        let start = last.life.start();
        begin_stop(&mut self.origins.stopping, start)?;
        outs.push(Out::ToServer(start, text))?;
        Ok(())
    }

    /// The program of the group's last start is to be ended.
    pub fn end(&mut self, outs: &mut Outs, g: usize) -> Result<(), Memory>
        requires group { g < length self.old.lasts.items }
        requires runs { (x : Start) → slice_get self.old.lasts.items g ≡ Some x → x.life.stage ≢ Ended }
        ensures starts { OnOk result (map number_in self.new.lasts.items ≡ map number_in self.old.lasts.items) }
        ensures requests { self.new.requests ≡ self.old.requests }
        ensures versions { self.new.versions ≡ self.old.versions }
        ensures does { (settings : Settings) (base : List Event) (s : ℕ) → slice_get (map number_in self.old.lasts.items) g ≡ Some s
            → OnOk result (Does (λ t events. Stands settings t events) (send (EndServer s)) base self.old outs.old self.new outs.new) }
        ensures documents { (settings : Settings) (owed : Owed) (base : List Event) → DocumentsStand settings owed self.old (behind base outs.old)
            → OnOk result (DocumentsStand settings owed self.new (behind base outs.new)) }
    {
        unready(&mut self.documents, g);
        let last = &mut self.lasts[g];
        last.life.end();
        last.shown = None;
        let start = last.life.start();
        end_stop(&mut self.origins.stopping, start);
        outs.push(Out::EndServer(start))?;
        Ok(())
    }

    /// A start is spawned for a new group, whose number is above that of each that has a start.
    pub fn found(&mut self, alloc: Global, outs: &mut Outs, g: u64) -> Result<(), Memory>
        requires limit { 2 ≤ self.old.requests }
        requires versions { 1 ≤ self.old.versions }
        ensures requests { self.new.requests ≡ self.old.requests }
        ensures versions { self.new.versions ≡ self.old.versions }
        ensures does { (settings : Settings) (base : List Event) → IsNew g (behind base outs.old)
            → OnOk result (Does (λ t events. Stands settings t events) (spawn g) base self.old outs.old self.new outs.new) }
        ensures documents { (settings : Settings) (owed : Owed) (base : List Event) → IsNew g (behind base outs.old)
            → Stands settings self.old (behind base outs.old) → DocumentsStand settings owed self.old (behind base outs.old)
            → OnOk result (DocumentsStand settings owed self.new (behind base outs.new)) }
    {
        let s = self.origins.groups.len() as u64;
        let life = Life::new(s, g);
        let ids = IdTable::new(alloc, self.requests);
        let asks = Asks::new(alloc);
        let parked = Asks::new(alloc);
        let live = Live::new(alloc);
        let lists = Lists::new(alloc);
        let documents = Shared::new(alloc, self.versions);
        self.origins.groups.push(g)?;
        self.documents.push(documents)?;
        self.lasts.push(Start {
            life,
            started: false,
            ids,
            shown: None,
            asks,
            parked,
            live,
            lists,
        })?;
        outs.push(Out::Spawn(s, g))?;
        Ok(())
    }

    /// A start is spawned for a group whose last one ended.
    pub fn respawn(&mut self, alloc: Global, outs: &mut Outs, g: usize) -> Result<(), Memory>
        requires limit { 2 ≤ self.old.requests }
        requires group { g < length self.old.lasts.items }
        requires ended { (x : Start) → slice_get self.old.lasts.items g ≡ Some x → x.life.stage ≡ Ended }
        ensures requests { self.new.requests ≡ self.old.requests }
        ensures versions { self.new.versions ≡ self.old.versions }
        ensures does { (settings : Settings) (base : List Event) (x : Start) → slice_get self.old.lasts.items g ≡ Some x
            → OnOk result (Does (λ t events. Stands settings t events) (spawn x.life.group) base self.old outs.old self.new outs.new) }
        ensures documents { (settings : Settings) (owed : Owed) (base : List Event) → Stands settings self.old (behind base outs.old)
            → DocumentsStand settings owed self.old (behind base outs.old)
            → OnOk result (DocumentsStand settings owed self.new (behind base outs.new)) }
    {
        let s = self.origins.groups.len() as u64;
        let group = self.lasts[g].life.group();
        let life = Life::new(s, group);
        let ids = IdTable::new(alloc, self.requests);
        let asks = Asks::new(alloc);
        let parked = Asks::new(alloc);
        let live = Live::new(alloc);
        let lists = Lists::new(alloc);
        self.origins.groups.push(group)?;
        self.lasts[g] = Start {
            life,
            started: false,
            ids,
            shown: None,
            asks,
            parked,
            live,
            lists,
        };
        outs.push(Out::Spawn(s, group))?;
        Ok(())
    }
}
