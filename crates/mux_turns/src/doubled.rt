//! E3: whether a request of an editor is under an id that is open.
ghost use Rattle.std.specs.Prelude.{◌≡◌, ℕ, List, true};
ghost use Rattle.event_model.specs.declared.phase.Phase.TheVariants.{Waiting};
ghost use Rattle.event_model.specs.Event.{Event};
ghost use Rattle.event_model.specs.Phases.{desk_of};
ghost use Rattle.event_model.specs.Requests.{is_open, open_of};
ghost use Rattle.event_model.specs.Settings.{Settings};
ghost use Rattle.group_facts.specs.Built.{doubles};
ghost use Rattle.group_facts.specs.Facts.{Known};
ghost use Rattle.group_facts.specs.Settled.{IsKeptBack, IsSent, Settled, is_answered};
ghost use Rattle.mux_tables.specs.Stands.{Stands};
ghost use Rattle.rpc_message.specs.Message.{Id};
ghost use Rattle.rpc_message.specs.ValueTexts.{IsIdText};

use event_model::Phase;
use mux_tables::Tables;
use rpc_message::same_id;

// Of an editor that waits: whether this is the id of its `initialize`.
fn is_own(tables: &Tables, e: u64, id: &[u8]) -> bool
    ensures { (settings : Settings) (before : List Event) (i : Id) → Settled settings before → Stands settings tables.now before → IsIdText i id.now
        → (desk_of e before).phase ≡ Waiting → result ≡ is_open i (open_of e before) }
{
    if e >= tables.editors.count() {
        return false;
    }
    match tables.initialize_id(e) {
        Some(own) => same_id(id, own.bytes()),
        None => false,
    }
}

// Of an editor that got its result: whether a request of it under this id is open at the last start of its group.
fn is_sent(tables: &Tables, e: u64, id: &[u8]) -> bool
    ensures open { (settings : Settings) (before : List Event) (i : Id) → Known settings before → Settled settings before
        → Stands settings tables.now before → IsIdText i id.now → is_answered (desk_of e before).phase ≡ true → result ≡ true → is_open i (open_of e before) ≡ true }
    ensures sent { (settings : Settings) (before : List Event) (i : Id) → Settled settings before
        → Stands settings tables.now before → IsIdText i id.now → is_answered (desk_of e before).phase ≡ true → IsSent settings before e i → result ≡ true }
{
    match tables.place(e) {
        Some(g) => tables.lasts[g].ids.find(e, id).is_some(),
        None => false,
    }
}

// Whether one waits in its group under this id.
fn is_held(tables: &Tables, e: u64, id: &[u8]) -> bool
    ensures open { (settings : Settings) (before : List Event) (i : Id) → Stands settings tables.now before → IsIdText i id.now
        → result ≡ true → is_open i (open_of e before) ≡ true }
    ensures kept { (settings : Settings) (before : List Event) (i : Id) → Stands settings tables.now before → IsIdText i id.now
        → IsKeptBack settings before e i → result ≡ true }
{
    match tables.home(e) {
        Some(g) => tables.waiting_under(g, e, id).is_some(),
        None => false,
    }
}

// Of an editor that got its result: whether a request of it under this id is open, at a start or waiting.
fn is_asked(tables: &Tables, e: u64, id: &[u8]) -> bool
    ensures { (settings : Settings) (before : List Event) (i : Id) → Known settings before → Settled settings before
        → Stands settings tables.now before → IsIdText i id.now → is_answered (desk_of e before).phase ≡ true → result ≡ is_open i (open_of e before) }
{
    is_sent(tables, e, id) || is_held(tables, e, id)
}

/// E3: whether an editor in this phase has begun, and a request of it is open under this id (JSON-RPC 2.0, section 4). The time is that
/// of two look-ups.
pub fn doubles(tables: &Tables, e: u64, phase: Phase, id: &[u8]) -> bool
    ensures { (settings : Settings) (before : List Event) (i : Id) → Known settings before → Settled settings before
        → Stands settings tables.now before → IsIdText i id.now → phase ≡ (desk_of e before).phase → result ≡ doubles phase i (open_of e before) }
{
    match phase {
        Phase::Waiting => is_own(tables, e, id),
        Phase::Answered => is_asked(tables, e, id),
        Phase::Running => is_asked(tables, e, id),
        Phase::Down => is_asked(tables, e, id),
        _ => false,
    }
}
