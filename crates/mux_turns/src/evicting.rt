//! E7: a group without editors ends, and another one is founded in its place.
ghost use Rattle.std.specs.Prelude.{◌≡◌, ◌≢◌, ◌<◌, ◌≤◌, ℕ, List, Some, map, length, IfOk, OnOk, slice_get};
ghost use Rattle.event_model.specs.declared.stage.Stage.TheVariants.{Ready};
ghost use Rattle.event_model.specs.Does.{Does};
ghost use Rattle.event_model.specs.Event.{Event, behind};
ghost use Rattle.event_model.specs.Requests.{next_number};
ghost use Rattle.event_model.specs.Row.{each, look};
ghost use Rattle.event_model.specs.Settings.{Settings};
ghost use Rattle.event_model.specs.Stages.{life_of};
ghost use Rattle.group_facts.specs.Facts.{Numbered};
ghost use Rattle.group_facts.specs.Why.{is_starting};
ghost use Rattle.group_facts.specs.group_rows.specs.Forwarded.{forwarding_of};
ghost use Rattle.group_words.specs.declared.placed.Placed.TheVariants.{Evicts};
ghost use Rattle.group_words.specs.Rows.{end_group, end_start, placed_row};
ghost use Rattle.mux_tables.specs.id_rewrite.specs.Tables.{IsInOrder};
ghost use Rattle.mux_tables.specs.declared.tables.Start.{Start};
ghost use Rattle.mux_tables.specs.Documents.{AllStand, Owed, nothing_owed};
ghost use Rattle.mux_tables.specs.Stands.{number_in};
ghost use Rattle.mux_turns.specs.Founding.{IsNext};

use crate::placing::found;
use event_model::Stage;
use message_body::Memory;
use mux_history::Outs;
use mux_tables::Tables;
use rpc_message::request;
use std::alloc::Global;

/// Where the group's last start stands, as it is kept.
pub fn stage_at(tables: &Tables, g: usize) -> Stage
    requires { g < length tables.now.lasts.items }
    ensures { (x : Start) → slice_get tables.now.lasts.items g ≡ Some x → result ≡ x.life.stage }
{
    tables.lasts[g].life.stage()
}

// The number of the next request to the group's last start, which is ready; the last number is kept for `shutdown`.
fn number_at(tables: &Tables, g: usize) -> u32
    requires { g < length tables.now.lasts.items }
    ensures { (x : Start) → slice_get tables.now.lasts.items g ≡ Some x → x.life.stage ≡ Ready → IsInOrder x.ids → x.ids.limit ≡ tables.now.requests
        → result ≡ x.ids.next }
{
    if tables.can_ask(g) {
        tables.next_number(g)
    } else {
        tables.requests
    }
}

// Whether its program is awaited, or gave no result yet.
fn is_starting(stage: Stage) -> bool
    ensures { result ≡ is_starting stage }
{
    matches!(stage, Stage::Spawning | Stage::Initializing)
}

// The group's last start, which is ready, is sent `shutdown` under its next number (LSP 3.17, Shutdown Request).
fn shut_down(tables: &mut Tables, alloc: Global, outs: &mut Outs, g: usize) -> Result<(), Memory>
    requires group { g < length tables.old.lasts.items }
    requires ready { (x : Start) → slice_get tables.old.lasts.items g ≡ Some x → x.life.stage ≡ Ready }
    ensures requests { tables.new.requests ≡ tables.old.requests }
    ensures versions { tables.new.versions ≡ tables.old.versions }
    ensures does { (settings : Settings) (owed : Owed) (base : List Event) (s : ℕ) → slice_get (map number_in tables.old.lasts.items) g ≡ Some s
        → next_number s (behind base outs.old) ≡ (forwarding_of settings s (behind base outs.old)).next
        → OnOk result (Does (λ k events. AllStand settings k events)
        (end_start s Ready) base (tables.old, owed) outs.old (tables.new, owed) outs.new) }
{
    let n = number_at(tables, g);
    let text = request(alloc, n as u128, "shutdown", None)?;
    tables.shut(outs, g, n, text)?;
    Ok(())
}

// The group's last start ends, by where it stands.
fn end_start(tables: &mut Tables, alloc: Global, outs: &mut Outs, g: usize) -> Result<(), Memory>
    requires { g < length tables.old.lasts.items }
    ensures requests { tables.new.requests ≡ tables.old.requests }
    ensures versions { tables.new.versions ≡ tables.old.versions }
    ensures does { (settings : Settings) (owed : Owed) (base : List Event) (s : ℕ) → slice_get (map number_in tables.old.lasts.items) g ≡ Some s
        → Numbered settings (behind base outs.old)
        → OnOk result (Does (λ k events. AllStand settings k events)
        (look (λ events. end_start s (life_of s events).stage)) base (tables.old, owed) outs.old (tables.new, owed) outs.new) }
{
    let stage = stage_at(tables, g);
    if stage.is_ready() {
        shut_down(tables, alloc, outs, g)?;
        return Ok(());
    }
    if is_starting(stage) {
        tables.end(outs, g)?;
    }
    Ok(())
}

/// E7: this group ends, for another one: its last start is sent `shutdown` where it is ready, and its program is to be ended where it
/// gave no result yet.
pub fn evict(tables: &mut Tables, alloc: Global, outs: &mut Outs, g: u64) -> Result<(), Memory>
    ensures requests { tables.new.requests ≡ tables.old.requests }
    ensures versions { tables.new.versions ≡ tables.old.versions }
    ensures does { (settings : Settings) (owed : Owed) (base : List Event) → Numbered settings (behind base outs.old)
        → OnOk result (Does (λ k events. AllStand settings k events)
        (end_group g) base (tables.old, owed) outs.old (tables.new, owed) outs.new) }
{
    match tables.place_of(g) {
        None => Ok(()),
        Some(place) => {
            end_start(tables, alloc, outs, place)?;
            Ok(())
        }
    }
}

/// E6 and X7: these groups end, one after the other.
pub fn end_groups(
    tables: &mut Tables,
    alloc: Global,
    outs: &mut Outs,
    groups: &[u64],
) -> Result<(), Memory>
    ensures requests { tables.new.requests ≡ tables.old.requests }
    ensures versions { tables.new.versions ≡ tables.old.versions }
    ensures does { (settings : Settings) (owed : Owed) (base : List Event) → Numbered settings (behind base outs.old)
        → OnOk result (Does (λ k events. AllStand settings k events)
        (each end_group groups.now) base (tables.old, owed) outs.old (tables.new, owed) outs.new) }
{
    for g in groups {
        evict(tables, alloc, outs, *g)?;
    }
    Ok(())
}

/// E7: this group ends, and a start is spawned for the new group, which has the next number.
pub fn replace(
    tables: &mut Tables,
    alloc: Global,
    outs: &mut Outs,
    g: u64,
    new: u64,
) -> Result<(), Memory>
    requires limit { 2 ≤ tables.old.requests }
    requires versions { 1 ≤ tables.old.versions }
    ensures requests { tables.new.requests ≡ tables.old.requests }
    ensures versions { tables.new.versions ≡ tables.old.versions }
    ensures does { (settings : Settings) (before base : List Event) (e : ℕ) (body : List ℕ) → IsNext new (behind base outs.old)
        → Numbered settings (behind base outs.old)
        → OnOk result (Does (λ k events. AllStand settings k events)
        (placed_row e body before (Evicts g new)) base (tables.old, nothing_owed) outs.old (tables.new, nothing_owed) outs.new) }
{
    evict(tables, alloc, outs, g)?;
    found(tables, alloc, outs, new)?;
    Ok(())
}
