// What each cause about a start does to the tables.
ghost use Rattle.std.specs.Prelude.{◌≡◌, ◌≢◌, ◌+◌, ◌<◌, ◌≤◌, ◌^◌, IfOk, OnOk, ◌++◌, ◌∷◌, [], ℕ, List, map, Some, false, true, length, nat_lt, option_map, slice_get, slice_set, find, MatchOption, ◌&&◌};
ghost use Rattle.std.specs.List.{AllByRecursion};
ghost use Rattle.event_model.specs.declared.stage.Stage.TheVariants.{Ended, Initializing, Ready, Spawning};
ghost use Rattle.event_model.specs.Event.{Event, behind, heard};
ghost use Rattle.event_model.specs.Phases.{needs_server};
ghost use Rattle.event_model.specs.Requests.{answered_id};
ghost use Rattle.group_words.specs.declared.kept.Kept.{Kept};
ghost use Rattle.event_model.specs.Settings.{Settings};
ghost use Rattle.focus_switch.specs.Documents.{Documents};
ghost use Rattle.focus_switch.specs.Rows.{unready_row};
ghost use Rattle.event_model.specs.Stages.{is_first_result, is_initializing};
ghost use Rattle.group_words.specs.Houses.{has_editor, home_of, is_first_error};
ghost use Rattle.group_words.specs.Rows.{shown_of};
ghost use Rattle.mux_history.specs.declared.cause.Cause.TheVariants.{FromServer, ServerGone, StartFailed, Started};
ghost use Rattle.rpc_message.specs.Message.{message_of, result_bytes};
ghost use Rattle.mux_tables.specs.declared.tables.Start.{Start};
ghost use Rattle.group_laws.specs.mux_model.specs.Documents.{encoding_by};
ghost use Rattle.mux_history.specs.declared.out.Out.{Out};
ghost use Rattle.mux_tables.specs.Documents.{DocumentsStand, Owed, Parts, nothing_owed, owes, replaying, to};
ghost use Rattle.group_laws.specs.group_rows.specs.Forwarded.{forwarding_of, is_under};
ghost use Rattle.mux_tokens.specs.Stands.{CreatedStay};
ghost use Rattle.mux_tables.specs.Stands.{Exits, ListsStay, LiveStay, NamesAt, ParkedStay, Stands, any_in, begun_at, forwarded_as, house_in, is_early, number_in, stage_in};

use crate::documents::{ready, remove, unready};
use crate::requests::{answer, forget};
use crate::seats::lose;
use crate::stops::end_stop;
use crate::tables::Tables;
use ask_route::Asks;
use diagnostics_route::Lists;
use event_model::Stage;
use group_laws::registrations::Live;
use id_rewrite::{IdTable, Pending};
use message_body::{Body, Memory};
use mux_history::Outs;
use position_codec::Encoding;
use restart_replay::Life;
use std::alloc::Global;

// There is one.
fn is_any(numbers: &[u64]) -> bool
    ensures { result ≡ nat_lt 0 (length numbers.now) }
{
    !numbers.is_empty()
}

// The program of a start runs.
fn begin(life: &mut Life)
    ensures { life.new ≡ begun_at life.old.stage life.old }
{
    if matches!(life.stage(), Stage::Spawning) {
        life.started();
    }
}

impl Tables {
    /// The program of the group's last start runs.
    pub fn hear_started(&mut self, g: usize)
        requires { g < length self.old.lasts.items }
        ensures starts { map number_in self.new.lasts.items ≡ map number_in self.old.lasts.items }
        ensures requests { self.new.requests ≡ self.old.requests }
        ensures versions { self.new.versions ≡ self.old.versions }
        ensures stands { (settings : Settings) (events : List Event) (s : ℕ) → slice_get (map number_in self.old.lasts.items) g ≡ Some s
            → Stands settings self.old events → Stands settings self.new (events ++ heard (Started s) ∷ []) }
        ensures documents { (settings : Settings) (owed : Owed) (events : List Event) (s : ℕ) → DocumentsStand settings owed self.old events
            → DocumentsStand settings owed self.new (events ++ heard (Started s) ∷ []) }
    {
        let last = &mut self.lasts[g];
        begin(&mut last.life);
        last.started = true;
    }

    /// S2: the group's last start gave the result of its `initialize`, and counts positions in this encoding; `n` is the number that
    /// its id writes, and `shown` what editors are shown of it; and the links of these editors of the group are to be ended before it is
    /// told anything. The bodies that it is owed for the documents that are open at the others. The documents are ahead of the events by what
    /// is said of these links. Where the answer is an error the tables stand for nothing any more.
    pub fn hear_result(
        &mut self,
        alloc: Global,
        g: usize,
        n: Option<u32>,
        encoding: Encoding,
        shown: Body,
        parted: &[u64],
    ) -> Result<Outs, Memory>
        requires group { g < length self.old.lasts.items }
        requires stage { (x : Start) → slice_get self.old.lasts.items g ≡ Some x → x.life.stage ≡ Initializing }
        ensures requests { self.new.requests ≡ self.old.requests }
        ensures versions { self.new.versions ≡ self.old.versions }
        ensures editors { OnOk result (self.new.editors ≡ self.old.editors) }
        ensures starts { OnOk result (map number_in self.new.lasts.items ≡ map number_in self.old.lasts.items) }
        ensures groups { OnOk result (map house_in self.new.lasts.items ≡ map house_in self.old.lasts.items) }
        ensures ready { OnOk result ((x : Start) → slice_get self.new.lasts.items g ≡ Some x → x.life.stage ≡ Ready) }
        ensures stands { (settings : Settings) (events : List Event) (s : ℕ) (body : List ℕ)
            → slice_get (map number_in self.old.lasts.items) g ≡ Some s → is_first_result (message_of body) ≡ true
            → NamesAt (answered_id (message_of body)) n → shown ≡ shown_of (result_bytes body)
            → Stands settings self.old events → OnOk result (Stands settings self.new (events ++ heard (FromServer s body) ∷ [])) }
        ensures documents { (settings : Settings) (events : List Event) (s : ℕ) (body : List ℕ) (xs : List Out)
            → slice_get (map number_in self.old.lasts.items) g ≡ Some s → Parts xs parted.now → encoding_by (message_of body) ≡ Some encoding
            → Stands settings self.old events → DocumentsStand settings nothing_owed self.old events
            → (x : Start) → slice_get self.old.lasts.items g ≡ Some x
            → AllByRecursion (λ e. home_of settings e events ≡ Some x.life.group) parted.now
            → IfOk result (λ owed. (owed ≡ to s (replaying settings (behind (events ++ heard (FromServer s body) ∷ []) xs) x.life.group))
            × DocumentsStand settings (owes x.life.group (replaying settings (behind (events ++ heard (FromServer s body) ∷ []) xs) x.life.group))
            self.new (behind (events ++ heard (FromServer s body) ∷ []) xs)) }
    {
        let last = &mut self.lasts[g];
        last.life.result();
        last.shown = Some(shown);
        forget(&mut last.ids, n);
        let start = last.life.start();
        let owed = ready(alloc, &mut self.documents, g, parted, start, encoding)?;
        Ok(owed)
    }

    /// S3: the group's last start refuses its `initialize`; the group ends. `n` is the number that its id writes.
    pub fn hear_refusal(&mut self, g: usize, n: Option<u32>)
        requires group { g < length self.old.lasts.items }
        requires stage { (x : Start) → slice_get self.old.lasts.items g ≡ Some x → x.life.stage ≡ Initializing }
        ensures requests { self.new.requests ≡ self.old.requests }
        ensures versions { self.new.versions ≡ self.old.versions }
        ensures starts { map number_in self.new.lasts.items ≡ map number_in self.old.lasts.items }
        ensures stages { map stage_in self.new.lasts.items ≡ map stage_in self.old.lasts.items }
        ensures stands { (settings : Settings) (events : List Event) (s : ℕ) (body : List ℕ)
            → slice_get (map number_in self.old.lasts.items) g ≡ Some s → is_first_error (message_of body) ≡ true
            → NamesAt (answered_id (message_of body)) n
            → Stands settings self.old events → Stands settings self.new (events ++ heard (FromServer s body) ∷ []) }
        ensures documents { (settings : Settings) (owed : Owed) (events : List Event) (s : ℕ) (body : List ℕ)
            → slice_get (map number_in self.old.lasts.items) g ≡ Some s → is_first_error (message_of body) ≡ true
            → Stands settings self.old events → DocumentsStand settings owed self.old events
            → DocumentsStand settings owed self.new (events ++ heard (FromServer s body) ∷ []) }
    {
        let group = self.lasts[g].life.group();
        self.groups.end(group);
        let last = &mut self.lasts[g];
        forget(&mut last.ids, n);
    }

    /// X3: an editor of the group needs a server: it waits for a result, or is served.
    pub fn needs_server(&self, g: u64) -> Result<bool, Memory>
        ensures kept { IfOk result (λ b. b ≡ any_in needs_server self.now.editors g) }
        ensures needed { (settings : Settings) (events : List Event) → Stands settings self.now events
            → IfOk result (λ b. b ≡ has_editor needs_server g (λ e. home_of settings e events) events) }
    {
        let needing = self.editors.needing(g)?;
        Ok(is_any(&needing))
    }

    // The program of the group's last start doesn't run any more, and has nothing to answer.
    fn exit(&mut self, alloc: Global, restarts: u64, g: usize) -> Result<(), Memory>
        requires limit { 2 ≤ self.old.requests }
        requires group { g < length self.old.lasts.items }
        requires runs { (x : Start) → slice_get self.old.lasts.items g ≡ Some x → x.life.stage ≢ Ended }
        requires room { (z : Start) (x : Kept) → slice_get self.old.lasts.items g ≡ Some z → slice_get self.old.groups.groups z.life.group ≡ Some x
            → x.exits < 2 ^ 63 }
        ensures exits { (z : Start) → slice_get self.old.lasts.items g ≡ Some z → OnOk result (Exits restarts self.old g z self.new) }
        ensures documents { (d : Documents) → slice_get self.old.documents.items g ≡ Some d
            → OnOk result (self.new.documents.items ≡ slice_set self.old.documents.items g (unready_row d)) }
        ensures requests { self.new.requests ≡ self.old.requests }
        ensures versions { self.new.versions ≡ self.old.versions }
    {
        let group = self.lasts[g].life.group();
        let wanted = self.needs_server(group)?;
        lose(&mut self.groups, group, wanted, restarts);
        unready(&mut self.documents, g);
        let ids = IdTable::new(alloc, self.requests);
        let asks = Asks::new(alloc);
        let parked = Asks::new(alloc);
        let live = Live::new(alloc);
        let lists = Lists::new(alloc);
        let last = &mut self.lasts[g];
        last.life.over();
        last.shown = None;
        last.ids = ids;
        last.asks = asks;
        last.parked = parked;
        last.live = live;
        last.lists = lists;
        end_stop(&mut self.origins.stopping, last.life.start());
        self.origins.created.end_start(last.life.start());
        Ok(())
    }

    /// X1 to X3: the program of the group's last start ended, or couldn't be run. Its open requests are gone. The group ends, unless
    /// an editor of it needs a server and at most `restarts` of its starts ended, this one included. Where the answer is an error the
    /// tables stand for nothing any more.
    pub fn hear_exit(&mut self, alloc: Global, restarts: u64, g: usize) -> Result<(), Memory>
        requires limit { 2 ≤ self.old.requests }
        requires group { g < length self.old.lasts.items }
        requires runs { (x : Start) → slice_get self.old.lasts.items g ≡ Some x → x.life.stage ≢ Ended }
        requires room { (z : Start) (x : Kept) → slice_get self.old.lasts.items g ≡ Some z → slice_get self.old.groups.groups z.life.group ≡ Some x
            → x.exits < 2 ^ 63 }
        ensures requests { self.new.requests ≡ self.old.requests }
        ensures versions { self.new.versions ≡ self.old.versions }
        ensures exits { (z : Start) → slice_get self.old.lasts.items g ≡ Some z → OnOk result (Exits restarts self.old g z self.new) }
        ensures exit { (settings : Settings) (events : List Event) (s : ℕ) → settings.limits.restarts ≡ restarts
            → slice_get (map number_in self.old.lasts.items) g ≡ Some s → Stands settings self.old events
            → OnOk result (Stands settings self.new (events ++ heard (ServerGone s) ∷ [])) }
        ensures failure { (settings : Settings) (events : List Event) (s : ℕ) → settings.limits.restarts ≡ restarts
            → slice_get (map number_in self.old.lasts.items) g ≡ Some s → Stands settings self.old events
            → OnOk result (Stands settings self.new (events ++ heard (StartFailed s) ∷ [])) }
        ensures exit_documents { (settings : Settings) (owed : Owed) (events : List Event) (s : ℕ) → DocumentsStand settings owed self.old events
            → OnOk result (DocumentsStand settings owed self.new (events ++ heard (ServerGone s) ∷ [])) }
        ensures failure_documents { (settings : Settings) (owed : Owed) (events : List Event) (s : ℕ)
            → DocumentsStand settings owed self.old events
            → OnOk result (DocumentsStand settings owed self.new (events ++ heard (StartFailed s) ∷ [])) }
    {
        self.exit(alloc, restarts, g)?;
        Ok(())
    }

    // X1 to X3 of a group that lives no more: the program of its last start ended, or couldn't be run. Its open requests are gone,
    // and the group stays as it is.
    fn end_last(&mut self, alloc: Global, g: usize)
        requires limit { 2 ≤ self.old.requests }
        requires group { g < length self.old.lasts.items }
        requires runs { (x : Start) → slice_get self.old.lasts.items g ≡ Some x → x.life.stage ≢ Ended }
        ensures requests { self.new.requests ≡ self.old.requests }
        ensures versions { self.new.versions ≡ self.old.versions }
        ensures count { length self.new.lasts.items ≡ length self.old.lasts.items }
        ensures over { (x : Start) → slice_get self.new.lasts.items g ≡ Some x → (x.life.stage ≡ Ended) × (x.ids.requests ≡ []) }
        ensures exit { (settings : Settings) (events : List Event) (s : ℕ) → slice_get (map number_in self.old.lasts.items) g ≡ Some s
            → ((z : Start) (x : Kept) → slice_get self.old.lasts.items g ≡ Some z → slice_get self.old.groups.groups z.life.group ≡ Some x → x.live ≡ false)
            → Stands settings self.old events → Stands settings self.new (events ++ heard (ServerGone s) ∷ []) }
        ensures failure { (settings : Settings) (events : List Event) (s : ℕ) → slice_get (map number_in self.old.lasts.items) g ≡ Some s
            → ((z : Start) (x : Kept) → slice_get self.old.lasts.items g ≡ Some z → slice_get self.old.groups.groups z.life.group ≡ Some x → x.live ≡ false)
            → Stands settings self.old events → Stands settings self.new (events ++ heard (StartFailed s) ∷ []) }
        ensures exit_documents { (settings : Settings) (owed : Owed) (events : List Event) (s : ℕ) → DocumentsStand settings owed self.old events
            → ((z : Start) (x : Kept) → slice_get self.old.lasts.items g ≡ Some z → slice_get self.old.groups.groups z.life.group ≡ Some x → x.live ≡ false)
            → DocumentsStand settings owed self.new (events ++ heard (ServerGone s) ∷ []) }
        ensures failure_documents { (settings : Settings) (owed : Owed) (events : List Event) (s : ℕ)
            → DocumentsStand settings owed self.old events
            → ((z : Start) (x : Kept) → slice_get self.old.lasts.items g ≡ Some z → slice_get self.old.groups.groups z.life.group ≡ Some x → x.live ≡ false)
            → DocumentsStand settings owed self.new (events ++ heard (StartFailed s) ∷ []) }
    {
        unready(&mut self.documents, g);
        let ids = IdTable::new(alloc, self.requests);
        let asks = Asks::new(alloc);
        let parked = Asks::new(alloc);
        let live = Live::new(alloc);
        let lists = Lists::new(alloc);
        let last = &mut self.lasts[g];
        last.life.over();
        last.shown = None;
        last.ids = ids;
        last.asks = asks;
        last.parked = parked;
        last.live = live;
        last.lists = lists;
        end_stop(&mut self.origins.stopping, last.life.start());
        self.origins.created.end_start(last.life.start());
    }

    /// Nothing is kept any more of a group whose last start ended and has nothing to answer. The groups that were founded later move by one place.
    pub fn forget(&mut self, g: usize)
        requires { g < length self.old.lasts.items }
        ensures fewer { length self.new.lasts.items + 1 ≡ length self.old.lasts.items }
        ensures requests { self.new.requests ≡ self.old.requests }
        ensures versions { self.new.versions ≡ self.old.versions }
        ensures stands { (settings : Settings) (events : List Event) (x : Start) → slice_get self.old.lasts.items g ≡ Some x
            → (x.life.stage ≡ Ended) × (x.ids.requests ≡ []) → Stands settings self.old events → Stands settings self.new events }
        ensures documents { (settings : Settings) (owed : Owed) (events : List Event) → DocumentsStand settings owed self.old events
            → DocumentsStand settings owed self.new events }
    {
        self.lasts.remove(g);
        remove(&mut self.documents, g);
    }

    /// X1 to X3 of a group that lives no more: the program of its last start ended, or couldn't be run. Nothing is kept of the group from
    /// now on: those that were founded later move by one place.
    pub fn hear_left(&mut self, alloc: Global, g: usize)
        requires limit { 2 ≤ self.old.requests }
        requires group { g < length self.old.lasts.items }
        requires runs { (x : Start) → slice_get self.old.lasts.items g ≡ Some x → x.life.stage ≢ Ended }
        ensures fewer { length self.new.lasts.items + 1 ≡ length self.old.lasts.items }
        ensures requests { self.new.requests ≡ self.old.requests }
        ensures versions { self.new.versions ≡ self.old.versions }
        ensures exit { (settings : Settings) (events : List Event) (s : ℕ) → slice_get (map number_in self.old.lasts.items) g ≡ Some s
            → ((z : Start) (x : Kept) → slice_get self.old.lasts.items g ≡ Some z → slice_get self.old.groups.groups z.life.group ≡ Some x → x.live ≡ false)
            → Stands settings self.old events → Stands settings self.new (events ++ heard (ServerGone s) ∷ []) }
        ensures failure { (settings : Settings) (events : List Event) (s : ℕ) → slice_get (map number_in self.old.lasts.items) g ≡ Some s
            → ((z : Start) (x : Kept) → slice_get self.old.lasts.items g ≡ Some z → slice_get self.old.groups.groups z.life.group ≡ Some x → x.live ≡ false)
            → Stands settings self.old events → Stands settings self.new (events ++ heard (StartFailed s) ∷ []) }
        ensures exit_documents { (settings : Settings) (owed : Owed) (events : List Event) (s : ℕ) → DocumentsStand settings owed self.old events
            → ((z : Start) (x : Kept) → slice_get self.old.lasts.items g ≡ Some z → slice_get self.old.groups.groups z.life.group ≡ Some x → x.live ≡ false)
            → DocumentsStand settings owed self.new (events ++ heard (ServerGone s) ∷ []) }
        ensures failure_documents { (settings : Settings) (owed : Owed) (events : List Event) (s : ℕ)
            → DocumentsStand settings owed self.old events
            → ((z : Start) (x : Kept) → slice_get self.old.lasts.items g ≡ Some z → slice_get self.old.groups.groups z.life.group ≡ Some x → x.live ≡ false)
            → DocumentsStand settings owed self.new (events ++ heard (StartFailed s) ∷ []) }
    {
        self.end_last(alloc, g);
        self.forget(g);
    }

    /// A message came from the group's last start that doesn't answer its `initialize`, by which nothing waits from now on, and which
    /// changes nothing of what is registered, nor of the last lists: what was kept of the request that it answers, which isn't open any
    /// more. `n` is the number that its id writes.
    pub fn hear_answer(&mut self, g: usize, n: Option<u32>) -> Option<Pending>
        requires { g < length self.old.lasts.items }
        ensures requests { self.new.requests ≡ self.old.requests }
        ensures versions { self.new.versions ≡ self.old.versions }
        ensures starts { map number_in self.new.lasts.items ≡ map number_in self.old.lasts.items }
        ensures stages { map stage_in self.new.lasts.items ≡ map stage_in self.old.lasts.items }
        ensures moves { (settings : Settings) (events : List Event) (s : ℕ) (body : List ℕ) (x : Start) → slice_get self.old.lasts.items g ≡ Some x
            → slice_get (map number_in self.old.lasts.items) g ≡ Some s
            → (is_first_result (message_of body) && is_early x.life.stage) ≡ false
            → (is_first_error (message_of body) && is_initializing x.life.stage) ≡ false
            → ParkedStay settings s events (heard (FromServer s body)) → LiveStay settings s events (heard (FromServer s body))
            → ListsStay s events (heard (FromServer s body)) → CreatedStay settings s events (heard (FromServer s body))
            → NamesAt (answered_id (message_of body)) n
            → Stands settings self.old events → Stands settings self.new (events ++ heard (FromServer s body) ∷ []) }
        ensures documents { (settings : Settings) (owed : Owed) (events : List Event) (s : ℕ) (body : List ℕ) (x : Start)
            → slice_get self.old.lasts.items g ≡ Some x → slice_get (map number_in self.old.lasts.items) g ≡ Some s
            → (is_first_result (message_of body) && is_initializing x.life.stage) ≡ false → x.life.stage ≢ Spawning → Stands settings self.old events
            → DocumentsStand settings owed self.old events → DocumentsStand settings owed self.new (events ++ heard (FromServer s body) ∷ []) }
        ensures found { (settings : Settings) (events : List Event) (s k : ℕ) → slice_get (map number_in self.old.lasts.items) g ≡ Some s → n ≡ Some k
            → Stands settings self.old events → find (is_under k) (forwarding_of settings s events).open_requests ≡ option_map (forwarded_as k) result }
        ensures editors { self.new.editors ≡ self.old.editors }
    {
        let last = &mut self.lasts[g];
        answer(&mut last.ids, n)
    }
}
