// What the tables tell of the events.
ghost use Rattle.std.specs.Prelude.{◌≡◌, ◌<◌, ◌&&◌, ℕ, List, map, Some, None, true, false, length, IfNone, IfOk, IfSome, MatchOption, nat_lt, option_copied, slice_get};
ghost use Rattle.std.specs.List.{All};
ghost use Rattle.event_model.specs.declared.phase.Phase.TheVariants.{New};
ghost use Rattle.event_model.specs.Event.{Event};
ghost use Rattle.event_model.specs.Phases.{desk_of, is_running, is_there, is_waiting};
ghost use Rattle.event_model.specs.Settings.{Settings};
ghost use Rattle.event_model.specs.Stages.{is_ready, life_of, may_start, runs};
ghost use Rattle.group_words.specs.Houses.{editors_in, home_of, meant_of, server_for};
ghost use Rattle.mux_tables.specs.declared.tables.Start.{Start};
ghost use Rattle.group_laws.specs.group_rows.specs.Forwarded.{forwarding_of, numbers_of};
ghost use Rattle.mux_tables.specs.Names.{id_in};
ghost use Rattle.mux_tables.specs.Stands.{HasEnded, Stands, is_over, number_in, start_for};

use crate::tables::{Start, Tables};
use event_model::Phase;
use message_body::{Body, Memory};

impl Start {
    /// It is ready, and a number below the limit is left.
    pub fn can_ask(&self) -> bool
        ensures asks { result ≡ (is_ready self.now.life.stage && nat_lt self.now.ids.next self.now.ids.limit) }
    {
        self.life.stage().is_ready() && self.ids.next().is_ok()
    }
}

impl Tables {
    /// The number of a start's group; none where no such start was spawned.
    pub fn origin(&self, s: u64) -> Option<u64>
        ensures { result ≡ slice_get self.now.origins.groups.items s }
    {
        self.origins.groups.get(s as usize).copied()
    }

    /// The place of the group whose last start this is, by a bisection; where there is none, no such start was spawned, or its program
    /// ended or couldn't be run.
    #[tactic(auto, using(crate::proofs::Seen::unspawned_over, crate::proofs::Seen::unspawned_halted, crate::proofs::Seen::unspawned_settled))]
    pub fn last(&self, s: u64) -> Option<usize>
        ensures inside { IfSome result (λ g. g < length self.now.lasts.items) }
        ensures found { IfSome result (λ g. slice_get (map number_in self.now.lasts.items) g ≡ Some s) }
        ensures none { IfNone result ((settings : Settings) (events : List Event) → Stands settings self.now events → is_over (life_of s events).stage ≡ true) }
        ensures halted { IfNone result ((settings : Settings) (events : List Event) → Stands settings self.now events → runs (life_of s events) ≡ false) }
        ensures settled { IfNone result ((settings : Settings) (events : List Event) → Stands settings self.now events → may_start (life_of s events) ≡ false) }
    {
        let g = self.origin(s)?;
        let place = self.place_of(g)?;
        if self.lasts[place].life.start() != s {
            return None;
        }
        Some(place)
    }

    /// The place of an editor's group; where there is none, it is in no group, or the group has no start, or one that ended.
    #[tactic(auto, using(crate::proofs::Seen::placed_nowhere))]
    pub fn group(&self, e: u64) -> Option<usize>
        requires { e < length self.now.editors }
        ensures inside { IfSome result (λ g. g < length self.now.lasts.items) }
        ensures start { (settings : Settings) (events : List Event) → Stands settings self.now events
            → MatchOption result (HasEnded (start_for settings e events) events) (λ g. (x : Start) → slice_get self.now.lasts.items g ≡ Some x
            → start_for settings e events ≡ Some x.life.start) }
    {
        let g = self.editors.group(e)?;
        self.place_of(g)
    }

    /// Where the editor stands; one past the end never joined.
    #[tactic(auto, using(crate::proofs::Seen::phase_inside, crate::proofs::Seen::phase_past))]
    pub fn phase(&self, e: u64) -> Phase
        ensures { (settings : Settings) (events : List Event) → Stands settings self.now events → result ≡ (desk_of e events).phase }
    {
        if e >= self.editors.count() {
            return Phase::Absent;
        }
        self.editors.phase(e)
    }

    /// E4: whether a new editor sent `lspmux/open`.
    pub fn is_opened(&self, e: u64) -> bool
        requires { e < length self.now.editors }
        ensures { (settings : Settings) (events : List Event) → Stands settings self.now events → (desk_of e events).phase ≡ New
            → result ≡ (meant_of settings.servers e events).opened }
    {
        self.editors.is_opened(e)
    }

    /// E4: the place of the server that a new editor means: the one that it named, else the default.
    pub fn server(&self, e: u64, default: u32) -> u32
        requires { e < length self.now.editors }
        ensures { (settings : Settings) (events : List Event) → Stands settings self.now events → (desk_of e events).phase ≡ New
            → settings.default ≡ default → result ≡ server_for settings e events }
    {
        match self.editors.server(e) {
            Some(server) => server,
            None => default,
        }
    }

    /// The numbers, rising, of the editors of this group that run.
    pub fn running(&self, g: u64) -> Result<Vec<u64>, Memory>
        ensures inside { IfOk result (λ numbers. All (λ e. e < length self.now.editors) numbers.items) }
        ensures those { (settings : Settings) (events : List Event) → Stands settings self.now events
            → IfOk result (λ numbers. numbers.items ≡ editors_in is_running g (λ e. home_of settings e events) events) }
    {
        let numbers = self.editors.running(g)?;
        Ok(numbers)
    }

    /// The numbers, rising, of the editors of this group that wait.
    pub fn waiting(&self, g: u64) -> Result<Vec<u64>, Memory>
        ensures inside { IfOk result (λ numbers. All (λ e. e < length self.now.editors) numbers.items) }
        ensures those { (settings : Settings) (events : List Event) → Stands settings self.now events
            → IfOk result (λ numbers. numbers.items ≡ editors_in is_waiting g (λ e. home_of settings e events) events) }
    {
        let numbers = self.editors.waiting(g)?;
        Ok(numbers)
    }

    /// The bytes of the id of an editor's `initialize`, where they are kept.
    pub fn initialize_id(&self, e: u64) -> Option<&Body>
        requires { e < length self.now.editors }
        ensures { option_copied result ≡ id_in (slice_get self.now.editors e) }
    {
        self.editors.id(e)
    }

    /// The numbers, rising, of an editor's open requests at the group's last start.
    pub fn requests_of(&self, g: usize, e: u64) -> Result<Vec<u32>, Memory>
        requires { g < length self.now.lasts.items }
        ensures { (settings : Settings) (events : List Event) (s : ℕ) → slice_get (map number_in self.now.lasts.items) g ≡ Some s
            → Stands settings self.now events → IfOk result (λ numbers. numbers.items ≡ numbers_of e (forwarding_of settings s events).open_requests) }
    {
        let numbers = self.lasts[g].ids.of_editor(e)?;
        Ok(numbers)
    }
}
