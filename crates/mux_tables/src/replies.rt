// What an editor's response answers: what a start asked of it alone, or whether it takes a token (E19).
ghost use Rattle.std.specs.Prelude.{◌≡◌, ◌≢◌, ◌<◌, ◌++◌, ◌∷◌, [], ℕ, List, map, find, Some, None, false, if◌then◌else◌, length, option_map, IfOk, MatchOption, OnOk, codes, slice_get};
ghost use Rattle.event_model.specs.declared.phase.Phase.TheVariants.{Absent};
ghost use Rattle.event_model.specs.declared.stage.Stage.TheVariants.{Ready};
ghost use Rattle.event_model.specs.Event.{Event, heard, requests};
ghost use Rattle.event_model.specs.Phases.{desk_of};
ghost use Rattle.event_model.specs.Requests.{answered_id};
ghost use Rattle.event_model.specs.Settings.{Settings};
ghost use Rattle.group_laws.specs.group_rows.specs.Asks.{Ask as Open, asks_of, is_seated};
ghost use Rattle.group_laws.specs.group_rows.specs.Created as fold;
ghost use Rattle.group_laws.specs.group_rows.specs.Created.{Taking, created_of, is_answered};
ghost use Rattle.group_words.specs.Houses.{is_first_open, places, stops};
ghost use Rattle.mux_history.specs.declared.cause.Cause.TheVariants.{FromEditor};
ghost use Rattle.mux_tokens.specs.progress_route.specs.Tables.{answered, given};
ghost use Rattle.mux_tokens.specs.Rows.{edited, table_of};
ghost use Rattle.mux_tokens.specs.Stands.{TakesOne};
ghost use Rattle.mux_waits.specs.Stands.{Unheld};
ghost use Rattle.rpc_message.specs.Message.{message_of};
ghost use Rattle.mux_tables.specs.declared.tables.Start.{Start};
ghost use Rattle.mux_tables.specs.Documents.{DocumentsStand, Owed, changes_documents};
ghost use Rattle.mux_tables.specs.Stands.{AnswersOne, NamesAsk, Stands, number_in, stage_in};

use crate::asks::answer;
use crate::tables::Tables;
use event_model::Phase;
use message_body::{Body, Memory};
use mux_tokens::{Created, Handed};

/// What a response answers: the id of what a start asked, or a token with what was held of it.
#[derive(Debug, Drop)]
pub struct Reply {
    pub ask: Option<Body>,
    pub handed: Option<Handed>,
}

// An editor answers at a start whether it takes a token, if a number is named.
fn hand_out(
    created: &mut Created,
    s: u64,
    e: u64,
    n: Option<u64>,
    accepts: bool,
) -> Result<Option<Handed>, Memory>
    ensures handed { IfOk result (λ handed. MatchOption n (handed ≡ None)
        (λ k. option_map (λ h. (h.token, h.bodies.items)) handed ≡ given e k accepts (table_of s created.old))) }
    ensures rows { OnOk result (MatchOption n (created.new ≡ created.old) (λ k. created.new ≡ edited s (answered e k accepts) created.old)) }
{
    match n {
        None => Ok(None),
        Some(n) => created.answer(s, e, u128::from(n), accepts),
    }
}

impl Tables {
    /// E19: a response comes from an editor of a group that has a start; behind it the editor is in this phase. What it answers of what
    /// that start asked. `n` is the number that its id writes, and `accepts` says that it is a result. Where the answer is an error the
    /// tables stand for nothing any more.
    pub fn hear_reply(
        &mut self,
        g: usize,
        e: u64,
        phase: Phase,
        n: Option<u64>,
        accepts: bool,
    ) -> Result<Reply, Memory>
        requires group { g < length self.old.lasts.items }
        requires editor { e < length self.old.editors }
        requires joined { phase ≢ Absent }
        ensures count { OnOk result (length self.new.editors ≡ length self.old.editors) }
        ensures requests { self.new.requests ≡ self.old.requests }
        ensures versions { self.new.versions ≡ self.old.versions }
        ensures starts { OnOk result (map number_in self.new.lasts.items ≡ map number_in self.old.lasts.items) }
        ensures stages { OnOk result (map stage_in self.new.lasts.items ≡ map stage_in self.old.lasts.items) }
        ensures ask { (settings : Settings) (events : List Event) (body : List ℕ) (x : Start) → slice_get self.old.lasts.items g ≡ Some x
            → x.life.stage ≡ Ready → NamesAsk (answered_id (message_of body)) n → Stands settings self.old events
            → IfOk result (λ r. r.ask ≡ option_map (λ (a : Open). a.bytes) (find (is_seated e (answered_id (message_of body))) (asks_of settings x.life.start events))) }
        ensures handed { (settings : Settings) (events : List Event) (body : List ℕ) (x : Start) → slice_get self.old.lasts.items g ≡ Some x
            → NamesAsk (answered_id (message_of body)) n → Stands settings self.old events
            → IfOk result (λ r. option_map (λ h. (h.token, h.bodies.items)) r.handed ≡ option_map {U = ℕ × List (List ℕ)} (λ (c : Taking). (c.token, if accepts then c.held else []))
            (find (is_answered e (answered_id (message_of body))) (created_of settings x.life.start events).takings)) }
        ensures stands { (settings : Settings) (events : List Event) (body : List ℕ) (x : Start) → slice_get self.old.lasts.items g ≡ Some x
            → NamesAsk (answered_id (message_of body)) n → accepts ≡ fold.accepts (message_of body) → requests (codes "shutdown") (message_of body) ≡ false
            → AnswersOne settings x.life.start e (message_of body) events → TakesOne settings x.life.start e (message_of body) events
            → Unheld settings e body (message_of body) events → places (desk_of e events).phase (message_of body) ≡ false → stops events e (message_of body) ≡ false
            → is_first_open settings.servers events e (message_of body) ≡ false
            → (desk_of e (events ++ heard (FromEditor e body) ∷ [])).phase ≡ phase
            → Stands settings self.old events → OnOk result (Stands settings self.new (events ++ heard (FromEditor e body) ∷ [])) }
        ensures documents { (settings : Settings) (owed : Owed) (events : List Event) (body : List ℕ)
            → changes_documents events e (message_of body) ≡ false → DocumentsStand settings owed self.old events
            → OnOk result (DocumentsStand settings owed self.new (events ++ heard (FromEditor e body) ∷ [])) }
    {
        let s = self.lasts[g].life.start();
        let handed = hand_out(&mut self.origins.created, s, e, n, accepts)?;
        self.editors.set(e, phase);
        let last = &mut self.lasts[g];
        let ask = answer(&mut last.asks, e, n);
        Ok(Reply { ask, handed })
    }
}
