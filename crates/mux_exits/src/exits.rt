//! X1 to X3: the program of a start ended, or couldn't be run.
ghost use Rattle.std.specs.Prelude.{◌≡◌, ◌<◌, ◌≤◌, ◌^◌, List, [], Some, true, length, map, nat_lt, OnOk, slice_get};
ghost use Rattle.std.specs.List.{All, AllByRecursion};
ghost use Rattle.event_model.specs.Does.{Does, Done};
ghost use Rattle.event_model.specs.Event.{Event, behind, with_cause};
ghost use Rattle.event_model.specs.Settings.{Settings};
ghost use Rattle.event_model.specs.declared.stage.Stage.TheVariants.{Ended};
ghost use Rattle.group_rows.specs.Rows.{row_of};
ghost use Rattle.group_words.specs.declared.kept.Kept.{Kept};
ghost use Rattle.mux_exits.specs.Losses.{IsInside};
ghost use Rattle.mux_exits.specs.Partings.{CanPart, IsOver, parting_row, renewing_row};
ghost use Rattle.mux_history.specs.declared.cause.Cause.{Cause};
ghost use Rattle.mux_starts.specs.Refusing.{IsUnready};
ghost use Rattle.mux_starts.specs.group_facts.specs.Facts.{Known, is_exit};
ghost use Rattle.mux_starts.specs.group_facts.specs.Lively.{lives_at};
ghost use Rattle.mux_starts.specs.group_facts.specs.Settled.{Settled};
ghost use Rattle.mux_model.specs.Fits.{fits_behind};
ghost use Rattle.mux_tables.specs.declared.tables.Start.{Start};
ghost use Rattle.mux_tables.specs.Documents.{AllStand, DocumentsStand, nothing_owed};
ghost use Rattle.mux_tables.specs.Stands.{Stands, number_in};

use crate::partings::{Parting, gather};
use crate::told::tell_losses;
use crate::turned::turn_out_all;
use message_body::Memory;
use mux_history::Outs;
use mux_starts::take_left;
use mux_tables::Tables;
use mux_turns::{lives, stage_at};
use std::alloc::Global;

// More exits of one group aren't counted.
const MOST: u64 = 0x8000_0000_0000_0000;

// Whether one more exit of it can be counted.
fn is_counted(tables: &Tables, h: u64) -> bool
    ensures { (x : Kept) → slice_get tables.now.groups.groups h ≡ Some x → result ≡ nat_lt x.exits (2 ^ 63) }
{
    match tables.groups.get(h) {
        None => true,
        Some(kept) => kept.exits < MOST,
    }
}

// What was gathered is said, and nothing is kept of the group in this place, which has this number.
fn part(
    tables: &mut Tables,
    alloc: Global,
    outs: &mut Outs,
    g: usize,
    group: u64,
    parting: Parting,
) -> Result<(), Memory>
    requires group { g < length tables.old.lasts.items }
    requires members { All (λ e. e < length tables.old.editors) parting.members.items }
    requires inside { AllByRecursion (IsInside (length tables.old.editors)) parting.losses.items }
    ensures requests { tables.new.requests ≡ tables.old.requests }
    ensures versions { tables.new.versions ≡ tables.old.versions }
    ensures does { (settings : Settings) (base : List Event) → IsOver g tables.old.lasts.items → IsUnready group tables.old.lasts.items
        → CanPart settings (behind base outs.old) group parting
        → OnOk result (Does (λ k events. AllStand settings k events)
        (parting_row settings group parting) base (tables.old, nothing_owed) outs.old (tables.new, nothing_owed) outs.new) }
{
    let Parting {
        members,
        losses,
        live,
    } = parting;
    tell_losses(tables, alloc, outs, losses, &live)?;
    turn_out_all(tables, alloc, outs, group, &members)?;
    tables.forget(g);
    Ok(())
}

// What was gathered is said but for who is turned out, and the group goes on with a new start.
fn renew(
    tables: &mut Tables,
    alloc: Global,
    outs: &mut Outs,
    g: usize,
    parting: Parting,
) -> Result<(), Memory>
    requires group { g < length tables.old.lasts.items }
    requires limit { 2 ≤ tables.old.requests }
    requires over { (x : Start) → slice_get tables.old.lasts.items g ≡ Some x → x.life.stage ≡ Ended }
    requires inside { AllByRecursion (IsInside (length tables.old.editors)) parting.losses.items }
    ensures requests { tables.new.requests ≡ tables.old.requests }
    ensures versions { tables.new.versions ≡ tables.old.versions }
    ensures does { (settings : Settings) (base : List Event) (x : Start) → slice_get tables.old.lasts.items g ≡ Some x
        → CanPart settings (behind base outs.old) x.life.group parting
        → OnOk result (Does (λ k events. AllStand settings k events)
        (renewing_row x.life.group parting) base (tables.old, nothing_owed) outs.old (tables.new, nothing_owed) outs.new) }
{
    let Parting { losses, live, .. } = parting;
    tell_losses(tables, alloc, outs, losses, &live)?;
    tables.respawn(alloc, outs, g)?;
    Ok(())
}

// X1 to X3: the group in this place lives, and the program of its last start ended, or couldn't be run.
fn exit_group(
    tables: &mut Tables,
    alloc: Global,
    restarts: u64,
    outs: &mut Outs,
    g: usize,
) -> Result<(), Memory>
    requires limit { 2 ≤ tables.old.requests }
    requires group { g < length tables.old.lasts.items }
    ensures requests { tables.new.requests ≡ tables.old.requests }
    ensures versions { tables.new.versions ≡ tables.old.versions }
    ensures exit { (settings : Settings) (before : List Event) (cause : Cause) (x : Start) → slice_get tables.old.lasts.items g ≡ Some x
        → lives_at x.life.group tables.old.groups.groups ≡ true → settings.limits.restarts ≡ restarts → outs.old ≡ []
        → Known settings before → Settled settings before → is_exit cause x.life.start ≡ true → fits_behind before cause ≡ true
        → Stands settings tables.old before → DocumentsStand settings nothing_owed tables.old before
        → OnOk result (Done (λ k events. AllStand settings k events) (row_of settings before cause)
        (with_cause before cause) [] (tables.new, nothing_owed) outs.new) }
{
    if stage_at(tables, g).is_ended() {
        return Ok(());
    }
    if !is_counted(tables, tables.group_number(g)) {
        return Err(Memory);
    }
    let parting = gather(tables, alloc, g)?;
    tables.hear_exit(alloc, restarts, g)?;
    let group = tables.group_number(g);
    if lives(tables, group) {
        renew(tables, alloc, outs, g, parting)?;
        Ok(())
    } else {
        part(tables, alloc, outs, g, group, parting)?;
        Ok(())
    }
}

// The program of the last start of the group in this place ended, or couldn't be run.
fn exit_at(
    tables: &mut Tables,
    alloc: Global,
    restarts: u64,
    outs: &mut Outs,
    s: u64,
    g: usize,
) -> Result<(), Memory>
    requires limit { 2 ≤ tables.old.requests }
    requires group { g < length tables.old.lasts.items }
    ensures requests { tables.new.requests ≡ tables.old.requests }
    ensures versions { tables.new.versions ≡ tables.old.versions }
    ensures exit { (settings : Settings) (before : List Event) (cause : Cause) → slice_get (map number_in tables.old.lasts.items) g ≡ Some s
        → settings.limits.restarts ≡ restarts → outs.old ≡ [] → Known settings before → Settled settings before
        → is_exit cause s ≡ true → fits_behind before cause ≡ true
        → Stands settings tables.old before → DocumentsStand settings nothing_owed tables.old before
        → OnOk result (Done (λ k events. AllStand settings k events) (row_of settings before cause)
        (with_cause before cause) [] (tables.new, nothing_owed) outs.new) }
{
    if !lives(tables, tables.group_number(g)) {
        take_left(tables, alloc, s);
        return Ok(());
    }
    exit_group(tables, alloc, restarts, outs, g)?;
    Ok(())
}

/// X1 to X3: the program of a start ended, or couldn't be run. Where its group lives, each editor of it is told that its requests fail, and each
/// that runs, where the start is ready, what ends with it; then the group goes on with a new start, or each editor of it is turned out. Else
/// nothing is sent. It takes time n log n in what is sent, and, for each editor that runs, in how many documents the start has lists of.
pub fn take_exit(
    tables: &mut Tables,
    alloc: Global,
    restarts: u64,
    outs: &mut Outs,
    s: u64,
) -> Result<(), Memory>
    requires { 2 ≤ tables.old.requests }
    ensures requests { tables.new.requests ≡ tables.old.requests }
    ensures versions { tables.new.versions ≡ tables.old.versions }
    ensures exit { (settings : Settings) (before : List Event) (cause : Cause) → settings.limits.restarts ≡ restarts → outs.old ≡ []
        → Known settings before → Settled settings before → is_exit cause s ≡ true → fits_behind before cause ≡ true
        → Stands settings tables.old before → DocumentsStand settings nothing_owed tables.old before
        → OnOk result (Done (λ k events. AllStand settings k events) (row_of settings before cause)
        (with_cause before cause) [] (tables.new, nothing_owed) outs.new) }
{
    match tables.last(s) {
        None => Ok(()),
        Some(g) => {
            exit_at(tables, alloc, restarts, outs, s, g)?;
            Ok(())
        }
    }
}
