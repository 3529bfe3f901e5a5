// What is told of the live groups (E5).
ghost use Rattle.std.specs.Prelude.{◌≡◌, ◌<◌, ℕ, List, map, filter, Some, length, IfOk, slice_get};
ghost use Rattle.std.specs.List.{All};
ghost use Rattle.event_model.specs.Event.{Event};
ghost use Rattle.event_model.specs.Phases.{is_begun, is_there};
ghost use Rattle.event_model.specs.Settings.{Settings};
ghost use Rattle.group_laws.specs.group_rows.specs.Status.{asked_at};
ghost use Rattle.group_words.specs.Houses.{editors_in, groups_of, home_of};
ghost use Rattle.group_words.specs.Placing.{all_from, is_live};
ghost use Rattle.mux_tables.specs.declared.tables.Start.{Start};
ghost use Rattle.mux_tables.specs.Stands.{Stands, number_in, phase_in};

use crate::tables::Tables;
use editor_session::Editors;
use message_body::Memory;

// Whether an editor is there; one past the end never joined.
#[tactic(auto, using(crate::proofs::Live::there_inside, crate::proofs::Live::there_past))]
fn is_there(editors: &Editors, e: u64) -> bool
    ensures { result ≡ is_there (phase_in (slice_get editors.now e)) }
{
    if e >= editors.count() {
        return false;
    }
    editors.phase(e).is_there()
}

// How many of these numbers are of editors that are there.
fn count_there(editors: &Editors, numbers: Vec<u64>) -> u64
    ensures { result ≡ length (filter (λ e. is_there (phase_in (slice_get editors.now e))) numbers.items) }
{
    let mut those = numbers;
    those.retain(|e| is_there(editors, *e));
    those.len() as u64
}

impl Tables {
    /// The numbers, rising, of the live groups.
    #[tactic(auto, using(crate::proofs::Live::live_so))]
    pub fn live_groups(&self) -> Result<Vec<u64>, Memory>
        ensures { (settings : Settings) (events : List Event) → Stands settings self.now events
            → IfOk result (λ numbers. numbers.items ≡ all_from 0 is_live (groups_of settings events)) }
    {
        let numbers = self.groups.live_groups()?;
        Ok(numbers)
    }

    /// The numbers, rising, of the editors of this group.
    pub fn members(&self, g: u64) -> Result<Vec<u64>, Memory>
        ensures inside { IfOk result (λ numbers. All (λ e. e < length self.now.editors) numbers.items) }
        ensures those { (settings : Settings) (events : List Event) → Stands settings self.now events
            → IfOk result (λ numbers. numbers.items ≡ editors_in is_begun g (λ e. home_of settings e events) events) }
    {
        let numbers = self.editors.of_group(g)?;
        Ok(numbers)
    }

    /// The number of the group.
    #[tactic(auto, using(crate::proofs::Live::group_here))]
    pub fn group_number(&self, g: usize) -> u64
        requires { g < length self.now.lasts.items }
        ensures { (x : Start) → slice_get self.now.lasts.items g ≡ Some x → result ≡ x.life.group }
    {
        self.lasts[g].life.group()
    }

    /// The number of the group's last start.
    #[tactic(auto, using(crate::proofs::Live::number_here))]
    pub fn start_number(&self, g: usize) -> u64
        requires { g < length self.now.lasts.items }
        ensures { slice_get (map number_in self.now.lasts.items) g ≡ Some result }
    {
        self.lasts[g].life.start()
    }

    /// How many requests the group's last start has to answer whose editors are there, by a walk over them with a look-up of each
    /// editor.
    #[tactic(auto, using(crate::proofs::Live::asked_so))]
    pub fn asked(&self, g: usize) -> Result<u64, Memory>
        requires { g < length self.now.lasts.items }
        ensures { (settings : Settings) (events : List Event) (s : ℕ) → slice_get (map number_in self.now.lasts.items) g ≡ Some s
            → Stands settings self.now events → IfOk result (λ n. n ≡ asked_at settings events s) }
    {
        let editors = self.lasts[g].ids.editors()?;
        Ok(count_there(&self.editors, editors))
    }
}
