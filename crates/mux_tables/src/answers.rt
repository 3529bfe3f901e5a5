// What the answer to a request is made of (V1).
ghost use Rattle.std.specs.Prelude.{◌≡◌, ◌<◌, ℕ, List, map, Some, None, true, length, find, option_copied, option_map, slice_get, IfOk};
ghost use Rattle.event_model.specs.declared.stage.Stage.TheVariants.{Ready};
ghost use Rattle.event_model.specs.Event.{Event};
ghost use Rattle.event_model.specs.Phases.{desk_of};
ghost use Rattle.event_model.specs.Settings.{Settings};
ghost use Rattle.group_laws.specs.group_rows.specs.Answers.{agreed_version, stamp_at};
ghost use Rattle.group_laws.specs.group_rows.specs.Forwarded.{forwarding_of, is_under};
ghost use Rattle.id_rewrite.specs.declared.pending.Pending.{Pending};
ghost use Rattle.id_rewrite.specs.response_route.specs.Versions.{stamp_of};
ghost use Rattle.mux_tables.specs.declared.tables.Start.{Start};
ghost use Rattle.mux_tables.specs.Documents.{DocumentsStand, Owed, nothing_owed};
ghost use Rattle.mux_tables.specs.Notes.{IsNoted, has_left};
ghost use Rattle.mux_tables.specs.Stands.{Stands, forwarded_as, number_in};

use crate::notes::current;
use crate::tables::Tables;
use id_rewrite::Pending;
use id_rewrite::response_route::Versions;
use message_body::Memory;
use std::alloc::Global;

impl Tables {
    /// What is kept of the open request of a number at the group's last start, with what was noted as it went on.
    pub fn request(&self, g: usize, n: u32) -> Option<&Pending>
        requires { g < length self.now.lasts.items }
        ensures found { (settings : Settings) (events : List Event) (s : ℕ) → slice_get (map number_in self.now.lasts.items) g ≡ Some s
            → Stands settings self.now events → find (is_under n) (forwarding_of settings s events).open_requests ≡ option_map (forwarded_as n) (option_copied result) }
        ensures noted { (settings : Settings) (owed : Owed) (events : List Event) (s : ℕ) (p : Pending)
            → slice_get (map number_in self.now.lasts.items) g ≡ Some s → option_copied result ≡ Some p
            → DocumentsStand settings owed self.now events → IsNoted settings s n p.editor events p.noted }
    {
        self.lasts[g].ids.get(n)
    }

    /// The versions of an editor's documents, with those of the group's last start, which is ready, only where it has a document as the
    /// editor does. It looks a few documents up for each of the editor's.
    pub fn versions(&self, alloc: Global, g: usize, e: u64) -> Result<Versions, Memory>
        requires { g < length self.now.lasts.items }
        ensures versions { (settings : Settings) (events : List Event) (s : ℕ) (x : Start) → slice_get self.now.lasts.items g ≡ Some x → x.life.stage ≡ Ready
            → slice_get (map number_in self.now.lasts.items) g ≡ Some s → Stands settings self.now events
            → DocumentsStand settings nothing_owed self.now events
            → IfOk result (λ versions. (u : List ℕ) → stamp_of u versions ≡ stamp_at agreed_version settings s e events u) }
        ensures left { (settings : Settings) (events : List Event) (s : ℕ) (u : List ℕ) → slice_get (map number_in self.now.lasts.items) g ≡ Some s
            → Stands settings self.now events → DocumentsStand settings nothing_owed self.now events
            → has_left (desk_of e events).phase ≡ true → stamp_at agreed_version settings s e events u ≡ None }
    {
        current(alloc, self.documents.as_slice(), g, e)
    }
}
