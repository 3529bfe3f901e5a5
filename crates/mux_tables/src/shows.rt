// Lists of diagnostics that an editor is sent, and of which documents the last one isn't empty (S15, E12, L2 and X2; LSP 3.17, Publish Diagnostics).
ghost use Rattle.std.specs.Prelude.{◌≡◌, ◌<◌, ◌++◌, ◌∷◌, [], ℕ, List, true, length, OnOk, slice_get};
ghost use Rattle.event_model.specs.Does.{Does};
ghost use Rattle.event_model.specs.Event.{Event, behind};
ghost use Rattle.event_model.specs.Phases.{desk_of, is_running};
ghost use Rattle.event_model.specs.Row.{send};
ghost use Rattle.event_model.specs.Settings.{Settings};
ghost use Rattle.group_laws.specs.group_rows.specs.ExitRows.{is_full};
ghost use Rattle.mux_history.specs.declared.out.Out.TheVariants.{ToEditor};
ghost use Rattle.mux_tables.specs.Documents.{DocumentsStand, Owed};
ghost use Rattle.mux_tables.specs.Names.{id_in};
ghost use Rattle.mux_tables.specs.Stands.{IsListOf, Stands};

use crate::tables::Tables;
use message_body::{Body, Memory};
use mux_history::{Out, Outs};

impl Tables {
    /// A list of diagnostics of the document of this URI, which is empty or isn't, goes to an editor, and that is kept. Where the answer is an
    /// error the tables stand for nothing any more.
    pub fn show(
        &mut self,
        outs: &mut Outs,
        e: u64,
        uri: &[u8],
        empty: bool,
        text: Body,
    ) -> Result<(), Memory>
        requires { e < length self.old.editors }
        ensures requests { self.new.requests ≡ self.old.requests }
        ensures versions { self.new.versions ≡ self.old.versions }
        ensures lasts { self.new.lasts ≡ self.old.lasts }
        ensures count { OnOk result (length self.new.editors ≡ length self.old.editors) }
        ensures ids { OnOk result ((n : ℕ) → id_in (slice_get self.new.editors n) ≡ id_in (slice_get self.old.editors n)) }
        ensures outs { OnOk result (outs.new ≡ outs.old ++ ToEditor e text ∷ []) }
        ensures does { (settings : Settings) (base : List Event) → IsListOf uri.now empty text
            → OnOk result (Does (λ t events. Stands settings t events) (send (ToEditor e text)) base self.old outs.old self.new outs.new) }
        ensures documents { (settings : Settings) (owed : Owed) (base : List Event) → DocumentsStand settings owed self.old (behind base outs.old)
            → OnOk result (DocumentsStand settings owed self.new (behind base outs.new)) }
    {
        self.editors.show(e, uri, empty)?;
        outs.push(Out::ToEditor(e, text))?;
        Ok(())
    }

    /// X2: whether the last list of the document of this URI that an editor that runs was sent isn't empty. It takes no memory.
    pub fn is_full(&self, e: u64, uri: &[u8]) -> bool
        requires { e < length self.now.editors }
        ensures { (settings : Settings) (events : List Event) → is_running (desk_of e events).phase ≡ true → Stands settings self.now events
            → result ≡ is_full e uri.now events }
    {
        self.editors.is_full(e, uri)
    }
}
