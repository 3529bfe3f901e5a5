// The last lists of diagnostics of starts (S15, E12 and L2; LSP 3.17, Publish Diagnostics).
ghost use Rattle.std.specs.Prelude.{◌≡◌, ◌<◌, ◌++◌, ◌∷◌, [], ℕ, List, map, find, Option, Some, true, length, option_copied, option_map, IfOk, OnOk, slice_get};
ghost use Rattle.diagnostics_route.specs.Lists.{nonempty};
ghost use Rattle.diagnostics_route.specs.Published.{published};
ghost use Rattle.diagnostics_route.specs.Rows.{is_of};
ghost use Rattle.diagnostics_route.specs.Shown.{fits};
ghost use Rattle.event_model.specs.declared.stage.Stage.TheVariants.{Ready};
ghost use Rattle.event_model.specs.Event.{Event, heard};
ghost use Rattle.event_model.specs.Settings.{Settings};
ghost use Rattle.group_laws.specs.group_rows.specs.Debts.{agrees_on_all};
ghost use Rattle.group_laws.specs.group_rows.specs.Lists.{agreement_at, is_publishing, lists_of, sayings_of, version_at};
ghost use Rattle.json_text.specs.Json.{Json};
ghost use Rattle.mux_history.specs.declared.cause.Cause.TheVariants.{FromServer};
ghost use Rattle.rpc_message.specs.Message.{message_of, notification};
ghost use Rattle.mux_tables.specs.declared.tables.Start.{Start};
ghost use Rattle.mux_tables.specs.Documents.{DocumentsStand, Owed, nothing_owed};
ghost use Rattle.mux_tables.specs.Stands.{Stands, number_in, stage_in};

use crate::tables::Tables;
use diagnostics_route::{LastList, fits};
use message_body::Memory;

impl Tables {
    /// S15: how many notifications on documents the group's last start was sent since it is ready. It takes no memory.
    pub fn notices_sent(&self, g: usize) -> u128
        requires { g < length self.now.lasts.items }
        ensures { (settings : Settings) (events : List Event) (x : Start) → slice_get self.now.lasts.items g ≡ Some x → x.life.stage ≡ Ready
            → DocumentsStand settings nothing_owed self.now events → result ≡ sayings_of x.life.start events }
    {
        match self.documents.get(g) {
            Some(shared) => shared.sent(),
            None => 0,
        }
    }

    /// S15: whether a list of the group's last start, which is ready, fits an editor. It takes no memory.
    pub fn fits(&self, g: usize, e: u64, list: &LastList) -> bool
        requires { g < length self.now.lasts.items }
        ensures { (settings : Settings) (events : List Event) (x : Start) → slice_get self.now.lasts.items g ≡ Some x → x.life.stage ≡ Ready
            → Stands settings self.now events → DocumentsStand settings nothing_owed self.now events
            → result ≡ fits list.now (agreement_at settings x.life.start e events list.now.uri) }
    {
        match self.documents.get(g) {
            Some(shared) => fits(list, shared.agrees(e, list.uri.bytes())),
            None => false,
        }
    }

    /// S9: whether the group's last start, which is ready, agrees with an editor on each document that the editor has open. It takes as long
    /// as a sync that sends nothing.
    pub fn agrees_on_all(&self, g: usize, e: u64) -> Result<bool, Memory>
        requires { g < length self.now.lasts.items }
        ensures { (settings : Settings) (events : List Event) (x : Start) → slice_get self.now.lasts.items g ≡ Some x → x.life.stage ≡ Ready
            → Stands settings self.now events → DocumentsStand settings nothing_owed self.now events
            → IfOk result (λ answer. answer ≡ agrees_on_all settings x.life.start events e) }
    {
        match self.documents.get(g) {
            Some(shared) => shared.agrees_on_all(e),
            None => Ok(true),
        }
    }

    /// S15: an editor's own version of a document of the group, where it is open there. It takes no memory.
    pub fn own_version(&self, g: usize, e: u64, uri: &[u8]) -> Option<&[u8]>
        requires { g < length self.now.lasts.items }
        ensures { (settings : Settings) (events : List Event) (x : Start) → slice_get self.now.lasts.items g ≡ Some x → x.life.stage ≡ Ready
            → Stands settings self.now events → DocumentsStand settings nothing_owed self.now events
            → option_map (λ v. v.now) result ≡ version_at settings x.life.start e events uri.now }
    {
        match self.documents.get(g) {
            Some(shared) => shared.version(e, uri),
            None => None,
        }
    }

    /// S15: a list came from the group's last start, which is ready: it is the last one of its document from now on. Where the answer is
    /// an error the tables stand for nothing any more.
    pub fn publish(&mut self, g: usize, list: LastList) -> Result<(), Memory>
        requires { g < length self.old.lasts.items }
        ensures requests { self.new.requests ≡ self.old.requests }
        ensures versions { self.new.versions ≡ self.old.versions }
        ensures editors { self.new.editors ≡ self.old.editors }
        ensures starts { OnOk result (map number_in self.new.lasts.items ≡ map number_in self.old.lasts.items) }
        ensures stages { OnOk result (map stage_in self.new.lasts.items ≡ map stage_in self.old.lasts.items) }
        ensures stands { (settings : Settings) (events : List Event) (body method : List ℕ) (params : Option Json) (s : ℕ) (x : Start)
            → slice_get self.old.lasts.items g ≡ Some x → x.life.stage ≡ Ready → slice_get (map number_in self.old.lasts.items) g ≡ Some s
            → message_of body ≡ notification method params → is_publishing method ≡ true → published (sayings_of s events) body ≡ Some list
            → Stands settings self.old events → OnOk result (Stands settings self.new (events ++ heard (FromServer s body) ∷ [])) }
        ensures documents { (settings : Settings) (owed : Owed) (events : List Event) (body method : List ℕ) (params : Option Json) (s : ℕ) (x : Start)
            → slice_get self.old.lasts.items g ≡ Some x → x.life.stage ≡ Ready → slice_get (map number_in self.old.lasts.items) g ≡ Some s
            → message_of body ≡ notification method params → Stands settings self.old events
            → DocumentsStand settings owed self.old events → OnOk result (DocumentsStand settings owed self.new (events ++ heard (FromServer s body) ∷ [])) }
    {
        let last = &mut self.lasts[g];
        let _number = last.lists.take(list)?;
        Ok(())
    }

    /// E12: the last list of a document of the group's last start, which is ready, where it has one. It takes no memory.
    pub fn last_list(&self, g: usize, uri: &[u8]) -> Option<&LastList>
        requires { g < length self.now.lasts.items }
        ensures { (settings : Settings) (events : List Event) (x : Start) → slice_get self.now.lasts.items g ≡ Some x → x.life.stage ≡ Ready
            → Stands settings self.now events → option_copied result ≡ find (is_of uri.now) (lists_of x.life.start events) }
    {
        let lists = &self.lasts[g].lists;
        match lists.number_of(uri) {
            Some(number) => lists.get(number),
            None => None,
        }
    }

    /// L2: the numbers, rising, of the documents whose last list of the group's last start, which is ready, isn't empty.
    pub fn full_lists(&self, g: usize) -> Result<Vec<u64>, Memory>
        requires { g < length self.now.lasts.items }
        ensures { (settings : Settings) (events : List Event) (x : Start) → slice_get self.now.lasts.items g ≡ Some x → x.life.stage ≡ Ready
            → Stands settings self.now events → IfOk result (λ numbers. numbers.items ≡ nonempty (lists_of x.life.start events)) }
    {
        self.lasts[g].lists.nonempty()
    }

    /// X2: how many documents the group's last start, which is ready, has published a list of. It takes no memory.
    pub fn list_count(&self, g: usize) -> u64
        requires { g < length self.now.lasts.items }
        ensures { (settings : Settings) (events : List Event) (x : Start) → slice_get self.now.lasts.items g ≡ Some x → x.life.stage ≡ Ready
            → Stands settings self.now events → result ≡ length (lists_of x.life.start events) }
    {
        self.lasts[g].lists.count()
    }

    /// L2: the last list of the document of a number, of the group's last start, which is ready. It takes no memory.
    pub fn list_at(&self, g: usize, n: u64) -> Option<&LastList>
        requires { g < length self.now.lasts.items }
        ensures { (settings : Settings) (events : List Event) (x : Start) → slice_get self.now.lasts.items g ≡ Some x → x.life.stage ≡ Ready
            → Stands settings self.now events → option_copied result ≡ slice_get (lists_of x.life.start events) n }
    {
        self.lasts[g].lists.get(n)
    }
}
