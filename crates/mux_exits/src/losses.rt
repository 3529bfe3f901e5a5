//! X1 and X2: what the editors of a group lose with the program of its last start.
ghost use Rattle.std.specs.Prelude.{◌≡◌, ◌<◌, ◌++◌, ℕ, List, Some, length, map, IfOk, OnOk, slice_get};
ghost use Rattle.std.specs.List.{All, AllByRecursion, flat_map};
ghost use Rattle.event_model.specs.declared.stage.Stage.TheVariants.{Ready};
ghost use Rattle.event_model.specs.Event.{Event};
ghost use Rattle.event_model.specs.Settings.{Settings};
ghost use Rattle.group_rows.specs.Created.{created_text};
ghost use Rattle.group_rows.specs.ExitRows.{end_text};
ghost use Rattle.group_rows.specs.Lists.{lists_of};
ghost use Rattle.mux_exits.specs.Losses.{IsInside, Runs, cancelled, emptied, emptied_at, ended, lost_sent, lost_start, refused};
ghost use Rattle.mux_tables.specs.declared.tables.Start.{Start};
ghost use Rattle.mux_tables.specs.Stands.{Stands, number_in};

use message_body::{Body, Memory};
use mux_tables::Tables;
use mux_turns::{cancel_request, created_text};
use rpc_message::notification;
use std::alloc::Global;

/// What an editor is told.
#[derive(Drop)]
pub enum Loss {
    /// That its request of this id fails.
    Refused(u64, Body),
    /// This body, a notification that lists no diagnostics.
    Told(u64, Body),
    /// That what the start registered is taken back, where there is any.
    Unregistered(u64),
    /// That of the document of this URI there are no diagnostics.
    Emptied(u64, Body),
}

// The notification that the token of number k, which start s created, ends (LSP 3.17, Work Done Progress).
fn end_token(alloc: Global, s: u64, k: u64) -> Result<Body, Memory>
    ensures { IfOk result (λ body. body ≡ end_text (created_text s k)) }
{
    let token = created_text(alloc, s, k)?;
    let mut params = Vec::new(alloc);
    params.extend_from_slice("{\"token\":".as_bytes())?;
    params.extend_from_slice(&token)?;
    params.extend_from_slice(",\"value\":{\"kind\":\"end\"}}".as_bytes())?;
    notification(alloc, "$/progress", Some(params.as_slice()))
}

// X1: the requests of these ids fail.
fn refuse_each(alloc: Global, losses: &mut Vec<Loss>, e: u64, ids: &[Body]) -> Result<(), Memory>
    ensures { OnOk result (losses.new.items ≡ losses.old.items ++ refused e ids.now) }
{
    for id in ids {
        let own = id.copy(alloc)?;
        losses.push(Loss::Refused(e, own))?;
    }
    Ok(())
}

// X2: these tokens of start s end.
fn end_each(
    alloc: Global,
    losses: &mut Vec<Loss>,
    s: u64,
    e: u64,
    tokens: &[u64],
) -> Result<(), Memory>
    ensures { OnOk result (losses.new.items ≡ losses.old.items ++ ended s e tokens.now) }
{
    for k in tokens {
        let text = end_token(alloc, s, *k)?;
        losses.push(Loss::Told(e, text))?;
    }
    Ok(())
}

// X2: the requests of these numbers are cancelled.
fn cancel_each(
    alloc: Global,
    losses: &mut Vec<Loss>,
    e: u64,
    numbers: &[u128],
) -> Result<(), Memory>
    ensures { OnOk result (losses.new.items ≡ losses.old.items ++ cancelled e numbers.now) }
{
    for n in numbers {
        let text = cancel_request(alloc, *n)?;
        losses.push(Loss::Told(e, text))?;
    }
    Ok(())
}

// X1: an editor loses what the group's last start has to answer it.
fn lose_requests(
    tables: &Tables,
    alloc: Global,
    losses: &mut Vec<Loss>,
    g: usize,
    e: u64,
) -> Result<(), Memory>
    requires { g < length tables.now.lasts.items }
    ensures inside { (n : ℕ) → AllByRecursion (IsInside n) losses.old.items → OnOk result (AllByRecursion (IsInside n) losses.new.items) }
    ensures lost { (settings : Settings) (before : List Event) (s : ℕ) → slice_get (map number_in tables.now.lasts.items) g ≡ Some s
        → Stands settings tables.now before → OnOk result (losses.new.items ≡ losses.old.items ++ lost_sent settings before s e) }
{
    let ids = tables.ids_of(alloc, g, e)?;
    refuse_each(alloc, losses, e, &ids)?;
    Ok(())
}

// X2: the last list of the document of a number at the group's last start, which is ready, is to be empty at an editor that runs, where there
// is one, and it isn't.
fn empty_at(
    tables: &Tables,
    alloc: Global,
    losses: &mut Vec<Loss>,
    g: usize,
    e: u64,
    n: u64,
) -> Result<(), Memory>
    requires group { g < length tables.now.lasts.items }
    requires editor { e < length tables.now.editors }
    ensures inside { (m : ℕ) → e < m → AllByRecursion (IsInside m) losses.old.items → OnOk result (AllByRecursion (IsInside m) losses.new.items) }
    ensures lost { (settings : Settings) (before : List Event) (x : Start) → slice_get tables.now.lasts.items g ≡ Some x → x.life.stage ≡ Ready
        → Runs before e → Stands settings tables.now before
        → OnOk result (losses.new.items ≡ losses.old.items ++ emptied_at before e (slice_get (lists_of x.life.start before) n)) }
{
    let Some(list) = tables.list_at(g, n) else {
        return Ok(());
    };
    if !tables.is_full(e, list.uri.bytes()) {
        return Ok(());
    }
    let uri = list.uri.copy(alloc)?;
    losses.push(Loss::Emptied(e, uri))?;
    Ok(())
}

// The same of each of them, in this order.
fn empty_each(
    tables: &Tables,
    alloc: Global,
    losses: &mut Vec<Loss>,
    g: usize,
    e: u64,
) -> Result<(), Memory>
    requires group { g < length tables.now.lasts.items }
    requires editor { e < length tables.now.editors }
    ensures inside { (n : ℕ) → e < n → AllByRecursion (IsInside n) losses.old.items → OnOk result (AllByRecursion (IsInside n) losses.new.items) }
    ensures lost { (settings : Settings) (before : List Event) (x : Start) → slice_get tables.now.lasts.items g ≡ Some x → x.life.stage ≡ Ready
        → Runs before e → Stands settings tables.now before
        → OnOk result (losses.new.items ≡ losses.old.items ++ emptied before e (lists_of x.life.start before)) }
{
    for n in 0..tables.list_count(g) {
        empty_at(tables, alloc, losses, g, e, n)?;
    }
    Ok(())
}

// X2: an editor that runs loses the tokens of the group's last start, which is ready, what that asked of it, what it registered, and its
// lists of diagnostics.
fn lose_start(
    tables: &Tables,
    alloc: Global,
    losses: &mut Vec<Loss>,
    g: usize,
    e: u64,
) -> Result<(), Memory>
    requires group { g < length tables.now.lasts.items }
    requires editor { e < length tables.now.editors }
    ensures inside { (n : ℕ) → e < n → AllByRecursion (IsInside n) losses.old.items → OnOk result (AllByRecursion (IsInside n) losses.new.items) }
    ensures lost { (settings : Settings) (before : List Event) (x : Start) → slice_get tables.now.lasts.items g ≡ Some x → x.life.stage ≡ Ready
        → Runs before e → Stands settings tables.now before
        → OnOk result (losses.new.items ≡ losses.old.items ++ lost_start settings before x.life.start e) }
{
    let s = tables.start_number(g);
    let tokens = tables.begun(g, e)?;
    end_each(alloc, losses, s, e, &tokens)?;
    let takes = tables.unanswered(g, e)?;
    cancel_each(alloc, losses, e, &takes)?;
    let asks = tables.open_asks(g, e)?;
    cancel_each(alloc, losses, e, &asks)?;
    losses.push(Loss::Unregistered(e))?;
    empty_each(tables, alloc, losses, g, e)?;
    Ok(())
}

/// X1: each of these editors loses what the group's last start has to answer it.
pub fn lose_all_requests(
    tables: &Tables,
    alloc: Global,
    losses: &mut Vec<Loss>,
    g: usize,
    editors: &[u64],
) -> Result<(), Memory>
    requires { g < length tables.now.lasts.items }
    ensures inside { (n : ℕ) → AllByRecursion (IsInside n) losses.old.items → OnOk result (AllByRecursion (IsInside n) losses.new.items) }
    ensures lost { (settings : Settings) (before : List Event) (s : ℕ) → slice_get (map number_in tables.now.lasts.items) g ≡ Some s
        → Stands settings tables.now before → OnOk result (losses.new.items ≡ losses.old.items ++ flat_map (lost_sent settings before s) editors.now) }
{
    for e in editors {
        lose_requests(tables, alloc, losses, g, *e)?;
    }
    Ok(())
}

/// X2: each of these editors, which run, loses the group's last start, which is ready.
pub fn lose_all_starts(
    tables: &Tables,
    alloc: Global,
    losses: &mut Vec<Loss>,
    g: usize,
    editors: &[u64],
) -> Result<(), Memory>
    requires group { g < length tables.now.lasts.items }
    requires editors { All (λ e. e < length tables.now.editors) editors.now }
    ensures inside { AllByRecursion (IsInside (length tables.now.editors)) losses.old.items
        → OnOk result (AllByRecursion (IsInside (length tables.now.editors)) losses.new.items) }
    ensures lost { (settings : Settings) (before : List Event) (x : Start) → slice_get tables.now.lasts.items g ≡ Some x → x.life.stage ≡ Ready
        → All (Runs before) editors.now → Stands settings tables.now before
        → OnOk result (losses.new.items ≡ losses.old.items ++ flat_map (lost_start settings before x.life.start) editors.now) }
{
    for e in editors {
        lose_start(tables, alloc, losses, g, *e)?;
    }
    Ok(())
}
