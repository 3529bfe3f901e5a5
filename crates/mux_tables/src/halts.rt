// What a stop of all looks at (E6), and what is left of it (J1).
ghost use Rattle.std.specs.Prelude.{◌≡◌, ◌<◌, ◌++◌, ℕ, List, map, filter, Some, length, IfOk, OnOk, slice_get};
ghost use Rattle.std.specs.List.{All};
ghost use Rattle.event_model.specs.Event.{Event};
ghost use Rattle.event_model.specs.Settings.{Settings};
ghost use Rattle.group_laws.specs.group_rows.specs.Forwarded.{Forwarded, forwarding_of, is_of};
ghost use Rattle.group_laws.specs.group_rows.specs.StopRows.{stopped, there_in};
ghost use Rattle.id_rewrite.specs.Tables.{IsInOrder, pending_of};
ghost use Rattle.mux_tables.specs.Halts.{id_at, ids_at};
ghost use Rattle.mux_tables.specs.Stands.{Stands, forwarded_of, number_in};

use crate::tables::Tables;
use id_rewrite::IdTable;
use message_body::{Body, Memory};
use std::alloc::Global;

// The id of the request of a number, where it is open.
fn add_id(alloc: Global, ids: &IdTable, texts: &mut Vec<Body>, n: u32) -> Result<(), Memory>
    ensures { OnOk result (texts.new.items ≡ texts.old.items ++ id_at (pending_of n ids.now.requests)) }
{
    if let Some(pending) = ids.get(n) {
        let text = Vec::from_slice(alloc, pending.id.bytes())?;
        texts.push(Body::new(text))?;
    }
    Ok(())
}

// The ids of an editor's open requests, as it called them, in the order of their numbers.
fn ids_of(alloc: Global, ids: &IdTable, e: u64) -> Result<Vec<Body>, Memory>
    ensures { IsInOrder ids.now → IfOk result (λ texts. texts.items ≡ ids_at e (map forwarded_of ids.now.requests)) }
{
    let numbers = ids.of_editor(e)?;
    let mut texts = Vec::new(alloc);
    for n in &numbers {
        add_id(alloc, ids, &mut texts, *n)?;
    }
    Ok(texts)
}

impl Tables {
    /// E6: the numbers, rising, of the editors that are there.
    pub fn there(&self) -> Result<Vec<u64>, Memory>
        ensures inside { IfOk result (λ numbers. All (λ e. e < length self.now.editors) numbers.items) }
        ensures those { (settings : Settings) (events : List Event) → Stands settings self.now events
            → IfOk result (λ numbers. numbers.items ≡ there_in events) }
    {
        let numbers = self.editors.there()?;
        Ok(numbers)
    }

    /// E6: the ids of an editor's open requests at the group's last start, as it called them, in the order in which they were sent on.
    pub fn ids_of(&self, alloc: Global, g: usize, e: u64) -> Result<Vec<Body>, Memory>
        requires { g < length self.now.lasts.items }
        ensures { (settings : Settings) (events : List Event) (s : ℕ) → slice_get (map number_in self.now.lasts.items) g ≡ Some s
            → Stands settings self.now events → IfOk result (λ texts. texts.items ≡ ids_at e (forwarding_of settings s events).open_requests) }
    {
        ids_of(alloc, &self.lasts[g].ids, e)
    }

    /// J1: whether an editor stopped all.
    pub fn is_stopped(&self) -> bool
        ensures { (settings : Settings) (events : List Event) → Stands settings self.now events → result ≡ stopped events }
    {
        self.course.stopped
    }
}
