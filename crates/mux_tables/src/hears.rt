// What each cause about an editor, and the time, does to the tables.
ghost use Rattle.std.specs.Prelude.{◌≡◌, ◌≢◌, ◌<◌, ◌≤◌, ◌^◌, ◌++◌, ◌∷◌, [], ℕ, List, Option, Some, false, true, length, IfOk, OnOk, MatchOption, option_copied, codes, slice_get};
ghost use Rattle.editor_session.specs.declared.session.Session.{Session};
ghost use Rattle.event_model.specs.declared.phase.Phase.TheVariants.{Absent, New};
ghost use Rattle.event_model.specs.Event.{Event, heard, requests};
ghost use Rattle.event_model.specs.Phases.{desk_of, is_served};
ghost use Rattle.event_model.specs.Settings.{Settings};
ghost use Rattle.group_table.specs.Tables.{Inside, declared_text, with_groups};
ghost use Rattle.group_laws.specs.group_rows.specs.Ticks.{due_of};
ghost use Rattle.group_words.specs.Placing.{all_from, is_live};
ghost use Rattle.group_words.specs.Houses.{declared_for, emptied, groups_of, home_of, is_first_open, key_for, placed_for, places, server_asked, stops};
ghost use Rattle.mux_history.specs.declared.cause.Cause.TheVariants.{EditorGone, FromEditor, Joined, Tick};
ghost use Rattle.mux_history.specs.declared.cause.Why.{Why};
ghost use Rattle.document_model.specs.Sayings.{saying_by};
ghost use Rattle.event_model.specs.Spawns.{start_of};
ghost use Rattle.json_text.specs.Json.{Json};
ghost use Rattle.rpc_message.specs.Message.{id_bytes, message_of, notification};
ghost use Rattle.rpc_message.specs.Parsed.{IsRead};
ghost use Rattle.mux_tokens.specs.Stands.{TakesNone};
ghost use Rattle.mux_waits.specs.Stands.{Unheld};
ghost use Rattle.mux_tables.specs.Documents.{DocumentsStand, Leaves, Owed, changes_documents, nothing_owed, noticing, owes, to};
ghost use Rattle.mux_tables.specs.Stands.{AnswersNone, Stands, start_for, stays_in};

use crate::documents::{leave, note};
use crate::seats::{end_all, join, later, lives, seat};
use crate::tables::Tables;
use event_model::Phase;
use group_words::capability_meet::CapFault;
use group_words::{Key, Placed};
use message_body::{Body, Memory};
use mux_history::Outs;
use rpc_message::Message;
use std::alloc::Global;

impl Tables {
    /// J1: the editor of the next number joined.
    pub fn hear_joined(&mut self, e: u64) -> Result<(), Memory>
        requires next { e ≡ length self.old.editors }
        requires room { e < 2 ^ 63 }
        ensures requests { self.new.requests ≡ self.old.requests }
        ensures versions { self.new.versions ≡ self.old.versions }
        ensures stands { (settings : Settings) (events : List Event) → Stands settings self.old events
            → OnOk result (Stands settings self.new (events ++ heard (Joined e) ∷ [])) }
        ensures documents { (settings : Settings) (owed : Owed) (events : List Event) → Stands settings self.old events
            → DocumentsStand settings owed self.old events → OnOk result (DocumentsStand settings owed self.new (events ++ heard (Joined e) ∷ [])) }
    {
        self.editors.join(e)?;
        Ok(())
    }

    /// A body came from the editor that places it in no group, doesn't stop all, says of no server that it is meant and answers nothing
    /// that a start asked of it; behind it the editor is in this phase.
    pub fn hear_editor(&mut self, e: u64, phase: Phase)
        requires editor { e < length self.old.editors }
        requires joined { phase ≢ Absent }
        ensures count { length self.new.editors ≡ length self.old.editors }
        ensures requests { self.new.requests ≡ self.old.requests }
        ensures versions { self.new.versions ≡ self.old.versions }
        ensures lasts { self.new.lasts ≡ self.old.lasts }
        ensures stands { (settings : Settings) (events : List Event) (body : List ℕ) → Stands settings self.old events
            → AnswersNone settings e (message_of body) events → TakesNone settings e (message_of body) events
            → Unheld settings e body (message_of body) events → places (desk_of e events).phase (message_of body) ≡ false → stops events e (message_of body) ≡ false
            → is_first_open settings.servers events e (message_of body) ≡ false
            → (desk_of e (events ++ heard (FromEditor e body) ∷ [])).phase ≡ phase → Stands settings self.new (events ++ heard (FromEditor e body) ∷ []) }
        ensures documents { (settings : Settings) (owed : Owed) (events : List Event) (body : List ℕ)
            → changes_documents events e (message_of body) ≡ false → DocumentsStand settings owed self.old events
            → DocumentsStand settings owed self.new (events ++ heard (FromEditor e body) ∷ []) }
    {
        self.editors.set(e, phase);
    }

    /// E4: the first `lspmux/open` of a new editor came, which names this server, or none.
    pub fn hear_open(&mut self, e: u64, server: Option<u32>)
        requires { e < length self.old.editors }
        ensures count { length self.new.editors ≡ length self.old.editors }
        ensures requests { self.new.requests ≡ self.old.requests }
        ensures versions { self.new.versions ≡ self.old.versions }
        ensures lasts { self.new.lasts ≡ self.old.lasts }
        ensures stands { (settings : Settings) (events : List Event) (body : List ℕ) → Stands settings self.old events
            → is_first_open settings.servers events e (message_of body) ≡ true → server ≡ server_asked settings.servers body
            → Stands settings self.new (events ++ heard (FromEditor e body) ∷ []) }
        ensures documents { (settings : Settings) (owed : Owed) (events : List Event) (body : List ℕ)
            → changes_documents events e (message_of body) ≡ false → DocumentsStand settings owed self.old events
            → DocumentsStand settings owed self.new (events ++ heard (FromEditor e body) ∷ []) }
    {
        self.editors.mean(e, server);
    }

    /// E7: an editor's `initialize`, which has this id, places it. Where the answer is an error, the groups and the editors may be ahead of the
    /// history, and the tables stand for nothing any more.
    pub fn hear_initialize(
        &mut self,
        e: u64,
        id: Body,
        key: Key,
        capabilities: &[u8],
        ceiling: Option<&[u8]>,
    ) -> Result<Placed, CapFault>
        requires editor { e < length self.old.editors }
        requires capabilities { length capabilities.now ≤ 268435456 }
        requires ceiling { MatchOption ceiling (Unit {0}) (λ c. length c.now ≤ 268435456) }
        ensures inside { IfOk result (λ p. Inside p (length self.new.groups.groups)) }
        ensures count { length self.new.editors ≡ length self.old.editors }
        ensures requests { self.new.requests ≡ self.old.requests }
        ensures versions { self.new.versions ≡ self.old.versions }
        ensures moves { (settings : Settings) (before : List Event) (x : Session) (body : List ℕ) → Stands settings self.old before
            → slice_get self.old.editors e ≡ Some x → x.phase ≡ New → requests (codes "initialize") (message_of body) ≡ true
            → id ≡ id_bytes body → key ≡ key_for settings before e body
            → declared_text capabilities.now (option_copied ceiling.entry) ≡ Some (declared_for settings before e body)
            → IfOk result (λ p. (p ≡ placed_for settings before e body (groups_of settings before))
            × Stands settings self.new (before ++ heard (FromEditor e body) ∷ [])) }
        ensures documents { (settings : Settings) (owed : Owed) (before : List Event) (x : Session) (body : List ℕ) → Stands settings self.old before
            → slice_get self.old.editors e ≡ Some x → x.phase ≡ New → DocumentsStand settings owed self.old before
            → IfOk result (λ p. DocumentsStand settings owed self.new (before ++ heard (FromEditor e body) ∷ [])) }
    {
        let placed = self.groups.place(key, capabilities, ceiling)?;
        join(&mut self.groups, placed);
        seat(&mut self.editors, e, id, placed);
        Ok(placed)
    }

    // A group that lives and lost its last editor is idle from now on.
    fn empty_group(&mut self, g: u64, was: bool) -> Result<(), Memory>
        ensures editors { self.new.editors ≡ self.old.editors }
        ensures course { self.new.course ≡ self.old.course }
        ensures lasts { self.new.lasts ≡ self.old.lasts }
        ensures origins { self.new.origins ≡ self.old.origins }
        ensures documents { self.new.documents ≡ self.old.documents }
        ensures requests { self.new.requests ≡ self.old.requests }
        ensures versions { self.new.versions ≡ self.old.versions }
        ensures groups { OnOk result (self.new.groups
            ≡ with_groups (emptied (Some g) was (stays_in self.old.editors) self.old.course.time self.old.groups.groups) self.old.groups) }
    {
        if !was {
            return Ok(());
        }
        if !lives(&self.groups, g) {
            return Ok(());
        }
        let left = self.editors.of_group(g)?;
        if left.len() > 0 {
            return Ok(());
        }
        self.groups.idle(g, self.course.time);
        Ok(())
    }

    // The same of a group that an editor may have been placed in.
    pub fn empty(&mut self, home: Option<u64>, was: bool) -> Result<(), Memory>
        ensures editors { self.new.editors ≡ self.old.editors }
        ensures course { self.new.course ≡ self.old.course }
        ensures lasts { self.new.lasts ≡ self.old.lasts }
        ensures origins { self.new.origins ≡ self.old.origins }
        ensures documents { self.new.documents ≡ self.old.documents }
        ensures requests { self.new.requests ≡ self.old.requests }
        ensures versions { self.new.versions ≡ self.old.versions }
        ensures groups { OnOk result (self.new.groups
            ≡ with_groups (emptied home was (stays_in self.old.editors) self.old.course.time self.old.groups.groups) self.old.groups) }
    {
        match home {
            None => Ok(()),
            Some(g) => self.empty_group(g, was),
        }
    }

    /// X5: the editor's link is gone. Its group may be idle from now on, and its documents are closed: the bodies that the group's
    /// start is owed for them. One that isn't served has none. Where the answer is an error the tables stand for nothing any more.
    pub fn hear_gone(&mut self, alloc: Global, e: u64) -> Result<Outs, Memory>
        requires { e < length self.old.editors }
        ensures requests { self.new.requests ≡ self.old.requests }
        ensures versions { self.new.versions ≡ self.old.versions }
        ensures lasts { self.new.lasts ≡ self.old.lasts }
        ensures stands { (settings : Settings) (events : List Event) (why : Why) → Stands settings self.old events
            → OnOk result (Stands settings self.new (events ++ heard (EditorGone e why) ∷ [])) }
        ensures documents { (settings : Settings) (events : List Event) (why : Why) → Stands settings self.old events
            → DocumentsStand settings nothing_owed self.old events
            → IfOk result (λ owed. Leaves settings events e (home_of settings e events)
            (start_for settings e events) owed self.new (events ++ heard (EditorGone e why) ∷ [])) }
        ensures unserved { (settings : Settings) (events : List Event) (why : Why) → Stands settings self.old events
            → is_served (desk_of e events).phase ≡ false → DocumentsStand settings nothing_owed self.old events
            → IfOk result (λ owed. (owed ≡ []) × DocumentsStand settings nothing_owed self.new (events ++ heard (EditorGone e why) ∷ [])) }
    {
        let phase = self.editors.phase(e);
        let home = self.editors.group(e);
        self.editors.leave(e);
        self.empty(home, phase.is_begun())?;
        self.origins.created.forget_editor(e)?;
        self.origins.waiting.leave(home, e);
        let place = self.place_in(home);
        let owed = leave(alloc, &mut self.documents, place, e)?;
        Ok(owed)
    }

    /// E9: an editor that is served sends `shutdown`: its documents are closed, and the bodies that its group's start is owed for
    /// them. Where the answer is an error the tables stand for nothing any more.
    pub fn hear_shutdown(&mut self, alloc: Global, e: u64) -> Result<Outs, Memory>
        requires { e < length self.old.editors }
        ensures count { length self.new.editors ≡ length self.old.editors }
        ensures requests { self.new.requests ≡ self.old.requests }
        ensures versions { self.new.versions ≡ self.old.versions }
        ensures lasts { self.new.lasts ≡ self.old.lasts }
        ensures stands { (settings : Settings) (events : List Event) (body : List ℕ) → is_served (desk_of e events).phase ≡ true
            → requests (codes "shutdown") (message_of body) ≡ true
            → Stands settings self.old events → OnOk result (Stands settings self.new (events ++ heard (FromEditor e body) ∷ [])) }
        ensures documents { (settings : Settings) (events : List Event) (body : List ℕ) → is_served (desk_of e events).phase ≡ true
            → requests (codes "shutdown") (message_of body) ≡ true → Stands settings self.old events
            → DocumentsStand settings nothing_owed self.old events
            → IfOk result (λ owed. Leaves settings events e (home_of settings e events)
            (start_for settings e events) owed self.new (events ++ heard (FromEditor e body) ∷ [])) }
    {
        let home = self.editors.group(e);
        self.editors.set(e, Phase::Down);
        self.origins.created.forget_editor(e)?;
        let place = self.place_in(home);
        let owed = leave(alloc, &mut self.documents, place, e)?;
        Ok(owed)
    }

    /// E12 to E14: an editor of a group that has a start opens, changes or closes a document, or says something else by a notification;
    /// behind it the editor is in this phase. The bodies that the start is owed for it. Where the answer is an error the tables stand
    /// for nothing any more.
    pub fn hear_notice(
        &mut self,
        alloc: Global,
        e: u64,
        phase: Phase,
        message: &Message,
    ) -> Result<Outs, Memory>
        requires editor { e < length self.old.editors }
        requires joined { phase ≢ Absent }
        ensures count { OnOk result (length self.new.editors ≡ length self.old.editors) }
        ensures requests { self.new.requests ≡ self.old.requests }
        ensures versions { self.new.versions ≡ self.old.versions }
        ensures lasts { self.new.lasts ≡ self.old.lasts }
        ensures stands { (settings : Settings) (events : List Event) (body : List ℕ) → Stands settings self.old events
            → AnswersNone settings e (message_of body) events → TakesNone settings e (message_of body) events
            → Unheld settings e body (message_of body) events → places (desk_of e events).phase (message_of body) ≡ false → stops events e (message_of body) ≡ false
            → is_first_open settings.servers events e (message_of body) ≡ false
            → (desk_of e (events ++ heard (FromEditor e body) ∷ [])).phase ≡ phase
            → OnOk result (Stands settings self.new (events ++ heard (FromEditor e body) ∷ [])) }
        ensures documents { (settings : Settings) (events : List Event) (body method : List ℕ) (params : Option Json) (g s : ℕ)
            → IsRead message.now body → message_of body ≡ notification method params → is_served (desk_of e events).phase ≡ true
            → home_of settings e events ≡ Some g → start_of g events ≡ Some s
            → Stands settings self.old events → DocumentsStand settings nothing_owed self.old events
            → IfOk result (λ owed. (owed ≡ to s (noticing settings events g s e body (saying_by method params)))
            × DocumentsStand settings (owes g (noticing settings events g s e body (saying_by method params))) self.new
            (events ++ heard (FromEditor e body) ∷ [])) }
    {
        let home = self.editors.group(e);
        self.editors.set(e, phase);
        let place = self.place_in(home);
        let owed = note(alloc, &mut self.documents, place, e, message)?;
        Ok(owed)
    }

    /// E6: the editor stops all: the numbers, rising, of the groups that end; behind it the editor is in this phase.
    pub fn hear_stop(&mut self, e: u64, phase: Phase) -> Result<Vec<u64>, Memory>
        requires editor { e < length self.old.editors }
        requires joined { phase ≢ Absent }
        ensures count { OnOk result (length self.new.editors ≡ length self.old.editors) }
        ensures requests { self.new.requests ≡ self.old.requests }
        ensures versions { self.new.versions ≡ self.old.versions }
        ensures lasts { self.new.lasts ≡ self.old.lasts }
        ensures live { (settings : Settings) (events : List Event) → Stands settings self.old events
            → IfOk result (λ live. live.items ≡ all_from 0 is_live (groups_of settings events)) }
        ensures stands { (settings : Settings) (events : List Event) (body : List ℕ) → Stands settings self.old events
            → places (desk_of e events).phase (message_of body) ≡ false → stops events e (message_of body) ≡ true
            → (desk_of e (events ++ heard (FromEditor e body) ∷ [])).phase ≡ phase
            → OnOk result (Stands settings self.new (events ++ heard (FromEditor e body) ∷ [])) }
        ensures documents { (settings : Settings) (owed : Owed) (events : List Event) (body : List ℕ) → stops events e (message_of body) ≡ true
            → DocumentsStand settings owed self.old events
            → OnOk result (DocumentsStand settings owed self.new (events ++ heard (FromEditor e body) ∷ [])) }
    {
        let live = self.groups.live_groups()?;
        end_all(&mut self.groups, &live);
        self.editors.set(e, phase);
        self.course.stopped = true;
        Ok(live)
    }

    /// X7: the time becomes this many seconds, unless it is later: the groups that end by then, rising.
    pub fn hear_tick(&mut self, now: u64) -> Result<Vec<u64>, Memory>
        ensures requests { self.new.requests ≡ self.old.requests }
        ensures versions { self.new.versions ≡ self.old.versions }
        ensures due { (settings : Settings) (events : List Event) → Stands settings self.old events
            → IfOk result (λ due. due.items ≡ due_of settings events now) }
        ensures stands { (settings : Settings) (events : List Event) → Stands settings self.old events
            → OnOk result (Stands settings self.new (events ++ heard (Tick now) ∷ [])) }
        ensures documents { (settings : Settings) (owed : Owed) (events : List Event) → DocumentsStand settings owed self.old events
            → OnOk result (DocumentsStand settings owed self.new (events ++ heard (Tick now) ∷ [])) }
    {
        let now = later(self.course.time, now);
        let due = self.groups.due(now)?;
        end_all(&mut self.groups, &due);
        self.course.time = now;
        Ok(due)
    }
}
