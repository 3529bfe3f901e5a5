// What editors lose with a start (X2).
ghost use Rattle.std.specs.Prelude.{◌≡◌, ◌<◌, List, Some, length, IfOk, slice_get};
ghost use Rattle.event_model.specs.declared.stage.Stage.TheVariants.{Ready};
ghost use Rattle.event_model.specs.Event.{Event};
ghost use Rattle.event_model.specs.Settings.{Settings};
ghost use Rattle.group_laws.specs.group_rows.specs.Asks.{asks_of};
ghost use Rattle.group_laws.specs.group_rows.specs.Created.{created_of};
ghost use Rattle.mux_tokens.specs.Ends.{begun_tokens, unanswered_takes};
ghost use Rattle.mux_tables.specs.declared.tables.Start.{Start};
ghost use Rattle.mux_tables.specs.Losses.{open_asks};
ghost use Rattle.mux_tables.specs.Stands.{Stands};

use crate::tables::Tables;
use message_body::Memory;

impl Tables {
    /// X2: the live tokens of the group's last start, in the order of creation, that an editor accepted and of which it was sent a `begin`.
    pub fn begun(&self, g: usize, e: u64) -> Result<Vec<u64>, Memory>
        requires { g < length self.now.lasts.items }
        ensures { (settings : Settings) (events : List Event) (x : Start) → slice_get self.now.lasts.items g ≡ Some x → Stands settings self.now events
            → IfOk result (λ found. found.items ≡ begun_tokens e (created_of settings x.life.start events)) }
    {
        self.origins.created.begun(self.lasts[g].life.start(), e)
    }

    /// X2: the numbers under which an editor was asked whether it takes a token of the group's last start, and didn't answer, in the
    /// order of asking.
    pub fn unanswered(&self, g: usize, e: u64) -> Result<Vec<u128>, Memory>
        requires { g < length self.now.lasts.items }
        ensures { (settings : Settings) (events : List Event) (x : Start) → slice_get self.now.lasts.items g ≡ Some x → Stands settings self.now events
            → IfOk result (λ numbers. numbers.items ≡ unanswered_takes e (created_of settings x.life.start events)) }
    {
        self.origins
            .created
            .unanswered(self.lasts[g].life.start(), e)
    }

    /// X2: the numbers under which an editor was asked what the group's last start, which is ready, asks of one editor, and didn't answer,
    /// in the order of asking.
    pub fn open_asks(&self, g: usize, e: u64) -> Result<Vec<u128>, Memory>
        requires { g < length self.now.lasts.items }
        ensures { (settings : Settings) (events : List Event) (x : Start) → slice_get self.now.lasts.items g ≡ Some x → x.life.stage ≡ Ready
            → Stands settings self.now events → IfOk result (λ numbers. numbers.items ≡ open_asks e (asks_of settings x.life.start events)) }
    {
        self.lasts[g].asks.numbers_of(e)
    }
}
