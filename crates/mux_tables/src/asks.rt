// How what a start asked of an editor ends: the editor answers, or leaves.
ghost use Rattle.std.specs.Prelude.{◌≡◌, ◌<◌, ◌++◌, List, map, Some, length, OnOk, slice_get};
ghost use Rattle.event_model.specs.declared.stage.Stage.TheVariants.{Ready};
ghost use Rattle.event_model.specs.Does.{Does};
ghost use Rattle.event_model.specs.Event.{Event, behind};
ghost use Rattle.event_model.specs.Row.{each};
ghost use Rattle.event_model.specs.Settings.{Settings};
ghost use Rattle.mux_tables.specs.declared.tables.Start.{Start};
ghost use Rattle.mux_tables.specs.Documents.{DocumentsStand, Owed};
ghost use Rattle.mux_tables.specs.Refusals.{Given, Left, of_editor, refusal, refusals};
ghost use Rattle.mux_tables.specs.Stands.{Stands, house_in, number_in, stage_in};

use crate::tables::Tables;
use ask_route::{Ask, Asks};
use event_model::Phase;
use message_body::{Body, Memory};
use mux_history::{Out, Outs};
use rpc_message::{ErrorCode, error_answer};
use std::alloc::Global;

// Each of these asks is refused at a start, in this order.
fn refuse_all(alloc: Global, outs: &mut Outs, s: u64, asks: &[Ask]) -> Result<(), Memory>
    ensures { OnOk result (outs.new ≡ outs.old ++ refusals s asks.now) }
{
    for ask in asks {
        let text = error_answer(alloc, ask.id.bytes(), ErrorCode::RequestFailed)?;
        outs.push(Out::ToServer(s, text))?;
    }
    Ok(())
}

// The ask that an editor has under this number is taken out, if one is named and kept: its id.
pub fn answer(asks: &mut Asks, e: u64, n: Option<u64>) -> Option<Body>
    ensures given { Given e n asks.old result }
    ensures left { Left e n asks.old asks.new }
{
    match n {
        None => None,
        Some(n) => asks.answer(e, u128::from(n)),
    }
}

impl Tables {
    /// L1: an editor leaves: each ask of it at the group's last start, which is ready, is refused, in the order in which they were put.
    /// Where the answer is an error the tables stand for nothing any more.
    pub fn refuse_asks(
        &mut self,
        alloc: Global,
        outs: &mut Outs,
        g: usize,
        e: u64,
    ) -> Result<(), Memory>
        requires { g < length self.old.lasts.items }
        ensures requests { self.new.requests ≡ self.old.requests }
        ensures versions { self.new.versions ≡ self.old.versions }
        ensures starts { OnOk result (map number_in self.new.lasts.items ≡ map number_in self.old.lasts.items) }
        ensures stages { OnOk result (map stage_in self.new.lasts.items ≡ map stage_in self.old.lasts.items) }
        ensures groups { OnOk result (map house_in self.new.lasts.items ≡ map house_in self.old.lasts.items) }
        ensures does { (settings : Settings) (base : List Event) (x : Start) → slice_get self.old.lasts.items g ≡ Some x → x.life.stage ≡ Ready
            → OnOk result (Does (λ t events. Stands settings t events)
            (each (refusal x.life.start) (of_editor e x.asks)) base self.old outs.old self.new outs.new) }
        ensures documents { (settings : Settings) (owed : Owed) (base : List Event) (x : Start) → slice_get self.old.lasts.items g ≡ Some x → x.life.stage ≡ Ready
            → Stands settings self.old (behind base outs.old) → DocumentsStand settings owed self.old (behind base outs.old)
            → OnOk result (DocumentsStand settings owed self.new (behind base outs.new)) }
    {
        let last = &mut self.lasts[g];
        let left = last.asks.leave(e)?;
        refuse_all(alloc, outs, last.life.start(), &left)?;
        Ok(())
    }
}
