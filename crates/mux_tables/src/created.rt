// The tokens for progress that starts create (S8, S13, E11, E19 and L2).
ghost use Rattle.std.specs.Prelude.{◌≡◌, ◌<◌, ◌++◌, ◌∷◌, [], ℕ, List, map, find, Option, Some, None, false, true, is_some, length, option_copied, option_map, IfOk, OnOk, slice_get};
ghost use Rattle.event_model.specs.declared.stage.Stage.TheVariants.{Ready};
ghost use Rattle.event_model.specs.Does.{Does};
ghost use Rattle.event_model.specs.Event.{Event, behind, heard};
ghost use Rattle.event_model.specs.Phases.{desk_of, is_running};
ghost use Rattle.event_model.specs.Row.{send};
ghost use Rattle.event_model.specs.Settings.{Settings};
ghost use Rattle.group_laws.specs.group_rows.specs.Asks.{asking_of, has_number, is_taken};
ghost use Rattle.group_laws.specs.group_rows.specs.Created.{Token, created_of, created_token, has_accepted, is_begin, is_creating, is_end, is_numbered, is_progress, named_token, token_called};
ghost use Rattle.json_text.specs.Json.{Json};
ghost use Rattle.mux_history.specs.declared.cause.Cause.TheVariants.{FromServer};
ghost use Rattle.mux_history.specs.declared.out.Out.TheVariants.{ToEditor};
ghost use Rattle.mux_tokens.specs.progress_route.specs.Tables as table;
ghost use Rattle.mux_tokens.specs.Stands.{IsOffer};
ghost use Rattle.rpc_message.specs.Message.{Id, message_of, notification, request};
ghost use Rattle.rpc_message.specs.ValueTexts.{IsIdText};
ghost use Rattle.mux_tables.specs.declared.tables.Start.{Start};
ghost use Rattle.mux_tables.specs.Documents.{DocumentsStand, Owed};
ghost use Rattle.mux_tables.specs.Stands.{Stands, number_in};

use crate::tables::Tables;
use message_body::{Body, Memory};
use mux_history::{Out, Outs};
use mux_tokens::Kind;

impl Tables {
    /// S8 and S13: the number of the live token of the group's last start that these bytes stand for. `token` is the text of an integer or
    /// a string. It takes no memory.
    pub fn created_as(&self, g: usize, token: &[u8]) -> Option<u64>
        requires { g < length self.now.lasts.items }
        ensures { (settings : Settings) (events : List Event) (x : Start) (i : Id) → slice_get self.now.lasts.items g ≡ Some x
            → IsIdText i token.now → Stands settings self.now events
            → result ≡ option_map (λ (t : Token). t.number) (token_called (Some i) (created_of settings x.life.start events)) }
    {
        self.origins
            .created
            .number_of(self.lasts[g].life.start(), token)
    }

    /// S8: whether a token of the group's last start lives. `token` is as in `created_as`. It takes no memory.
    pub fn is_created(&self, g: usize, token: &[u8]) -> bool
        requires { g < length self.now.lasts.items }
        ensures { (settings : Settings) (events : List Event) (x : Start) (i : Id) → slice_get self.now.lasts.items g ≡ Some x
            → IsIdText i token.now → Stands settings self.now events
            → result ≡ is_some (token_called (Some i) (created_of settings x.life.start events)) }
    {
        self.created_as(g, token).is_some()
    }

    /// L2: the live tokens of the group's last start in the order of creation, each with whether it has begun.
    pub fn created(&self, g: usize) -> Result<Vec<(u64, bool)>, Memory>
        requires { g < length self.now.lasts.items }
        ensures { (settings : Settings) (events : List Event) (x : Start) → slice_get self.now.lasts.items g ≡ Some x → Stands settings self.now events
            → IfOk result (λ all. all.items ≡ map (λ (t : Token). (t.number, is_some t.begin)) (created_of settings x.life.start events).tokens) }
    {
        self.origins.created.all(self.lasts[g].life.start())
    }

    /// E11: the text of a live token of the group's last start, as the start wrote it.
    pub fn created_text(&self, g: usize, k: u64) -> Option<&Body>
        requires { g < length self.now.lasts.items }
        ensures { (settings : Settings) (events : List Event) (x : Start) → slice_get self.now.lasts.items g ≡ Some x → Stands settings self.now events
            → option_copied result ≡ option_map (λ (t : Token). t.text) (find (is_numbered k) (created_of settings x.life.start events).tokens) }
    {
        self.origins.created.text_of(self.lasts[g].life.start(), k)
    }

    /// S13 and E11: whether an editor accepted a live token of the group's last start.
    pub fn has_taken(&self, g: usize, k: u64, e: u64) -> bool
        requires { g < length self.now.lasts.items }
        ensures { (settings : Settings) (events : List Event) (x : Start) → slice_get self.now.lasts.items g ≡ Some x → Stands settings self.now events
            → result ≡ has_accepted e k (created_of settings x.life.start events) }
    {
        self.origins
            .created
            .has_accepted(self.lasts[g].life.start(), k, e)
    }

    /// S8: a request that creates this token came from the group's last start, which is ready, under an id that no open request has. It
    /// gets the start's next number. Where the answer is an error the tables stand for nothing any more.
    pub fn create(&mut self, g: usize, token: Body) -> Result<u64, Memory>
        requires { g < length self.old.lasts.items }
        ensures requests { self.new.requests ≡ self.old.requests }
        ensures versions { self.new.versions ≡ self.old.versions }
        ensures editors { self.new.editors ≡ self.old.editors }
        ensures lasts { self.new.lasts ≡ self.old.lasts }
        ensures number { (settings : Settings) (events : List Event) (x : Start) → slice_get self.old.lasts.items g ≡ Some x
            → Stands settings self.old events → IfOk result (λ k. k ≡ (created_of settings x.life.start events).next) }
        ensures stands { (settings : Settings) (events : List Event) (body method : List ℕ) (id : Id) (params : Option Json) (s : ℕ) (x : Start)
            (new : Token) → slice_get self.old.lasts.items g ≡ Some x → x.life.stage ≡ Ready → slice_get (map number_in self.old.lasts.items) g ≡ Some s
            → message_of body ≡ request id method params → is_creating method ≡ true → is_taken (Some id) (asking_of settings s events) ≡ false
            → created_token body (created_of settings s events) ≡ Some new → token ≡ new.text
            → Stands settings self.old events → OnOk result (Stands settings self.new (events ++ heard (FromServer s body) ∷ [])) }
        ensures documents { (settings : Settings) (owed : Owed) (events : List Event) (body method : List ℕ) (id : Id) (params : Option Json) (s : ℕ)
            (x : Start) → slice_get self.old.lasts.items g ≡ Some x → x.life.stage ≡ Ready → slice_get (map number_in self.old.lasts.items) g ≡ Some s
            → message_of body ≡ request id method params → Stands settings self.old events
            → DocumentsStand settings owed self.old events → OnOk result (DocumentsStand settings owed self.new (events ++ heard (FromServer s body) ∷ [])) }
    {
        let s = self.lasts[g].life.start();
        let number = self.origins.created.create(s, token)?;
        Ok(number)
    }

    /// S13: a notification that tells of a live token came from the group's last start, which is ready. `token` is the text of what it
    /// names, and `kind` what it says of its progress. Where the answer is an error the tables stand for nothing any more.
    pub fn hear_progress(
        &mut self,
        g: usize,
        token: &[u8],
        body: &Body,
        kind: Kind,
    ) -> Result<(), Memory>
        requires { g < length self.old.lasts.items }
        ensures requests { self.new.requests ≡ self.old.requests }
        ensures versions { self.new.versions ≡ self.old.versions }
        ensures editors { self.new.editors ≡ self.old.editors }
        ensures lasts { self.new.lasts ≡ self.old.lasts }
        ensures stands { (settings : Settings) (events : List Event) (method : List ℕ) (params : Option Json) (s : ℕ) (x : Start) (i : Id)
            → slice_get self.old.lasts.items g ≡ Some x → x.life.stage ≡ Ready → slice_get (map number_in self.old.lasts.items) g ≡ Some s
            → message_of body.now ≡ notification method params → is_progress method ≡ true → named_token params ≡ Some i → IsIdText i token.now
            → table.is_begin kind ≡ is_begin params → table.is_end kind ≡ is_end params
            → Stands settings self.old events → OnOk result (Stands settings self.new (events ++ heard (FromServer s body.now) ∷ [])) }
        ensures documents { (settings : Settings) (owed : Owed) (events : List Event) (method : List ℕ) (params : Option Json) (s : ℕ) (x : Start)
            → slice_get self.old.lasts.items g ≡ Some x → x.life.stage ≡ Ready → slice_get (map number_in self.old.lasts.items) g ≡ Some s
            → message_of body.now ≡ notification method params → Stands settings self.old events
            → DocumentsStand settings owed self.old events → OnOk result (DocumentsStand settings owed self.new (events ++ heard (FromServer s body.now) ∷ [])) }
    {
        let s = self.lasts[g].life.start();
        let _due = self.origins.created.take(s, token, body, kind)?;
        Ok(())
    }

    /// S8 and L2: an editor that runs is sent `text`, which asks it under its next number, which is left, to take a live token of the
    /// group's last start that it wasn't asked to take; that is kept. Where the answer is an error the tables stand for nothing any more.
    pub fn offer(
        &mut self,
        outs: &mut Outs,
        g: usize,
        e: u64,
        k: u64,
        text: Body,
    ) -> Result<(), Memory>
        requires group { g < length self.old.lasts.items }
        requires editor { e < length self.old.editors }
        ensures requests { self.new.requests ≡ self.old.requests }
        ensures versions { self.new.versions ≡ self.old.versions }
        ensures lasts { self.new.lasts ≡ self.old.lasts }
        ensures count { OnOk result (length self.new.editors ≡ length self.old.editors) }
        ensures does { (settings : Settings) (base : List Event) (x : Start) → slice_get self.old.lasts.items g ≡ Some x
            → is_running (desk_of e (behind base outs.old)).phase ≡ true → has_number e (behind base outs.old) ≡ true
            → IsOffer settings x.life.start e k (behind base outs.old) text → ((s : ℕ) → (asking_of settings s (behind base outs.old)).asker ≡ None)
            → OnOk result (Does (λ t events. Stands settings t events) (send (ToEditor e text)) base self.old outs.old self.new outs.new) }
        ensures documents { (settings : Settings) (owed : Owed) (base : List Event) → DocumentsStand settings owed self.old (behind base outs.old)
            → OnOk result (DocumentsStand settings owed self.new (behind base outs.new)) }
    {
        let Some(n) = self.editors.ask_number(e) else {
            return Ok(());
        };
        let s = self.lasts[g].life.start();
        self.origins.created.ask(s, k, e, u128::from(n))?;
        outs.push(Out::ToEditor(e, text))?;
        Ok(())
    }
}
