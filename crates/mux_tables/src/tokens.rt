// The open request that a token for progress is of (S13 and E11).
ghost use Rattle.std.specs.Prelude.{◌≡◌, ◌<◌, ◌≤◌, ◌^◌, ◌/◌, ℕ, List, Option, Some, None, find, length, map, option_copied, option_map, IfOk, IfSome, MatchOption, slice_get};
ghost use Rattle.std.specs.Option.{option_and_then};
ghost use Rattle.event_model.specs.Event.{Event};
ghost use Rattle.event_model.specs.Settings.{Settings};
ghost use Rattle.group_laws.specs.group_rows.specs.Forwarded.{Forwarded, forwarding_of};
ghost use Rattle.group_laws.specs.group_rows.specs.Tokens.{is_told, is_worked, listens};
ghost use Rattle.id_rewrite.specs.Tables.{numbers_of, pending_of};
ghost use Rattle.json_text.specs.Json.{Json};
ghost use Rattle.rpc_message.specs.Message.{Id, id_of};
ghost use Rattle.rpc_message.specs.ValueTexts.{IsIdText};
ghost use Rattle.mux_tables.specs.Stands.{Stands, number_in};
ghost use Rattle.mux_tables.specs.Tokens.{IsTold, MarksAt, is_work, own_of, works};

use crate::tables::Tables;
use event_model::Phase;
use id_rewrite::{IdTable, Pending, same_form};
use message_body::{Body, Memory};

/// What a start's token for progress stands for: the editor whose open request it is of, and that editor's own token.
#[derive(Clone, Copy, Debug)]
pub struct Told<'a> {
    pub editor: u64,
    pub token: &'a Body,
}

// The number of the request that the daemon's token of a number is of, where it is one of 32 bits.
fn owner(k: u64) -> Option<u32>
    ensures { MatchOption result (2 ^ 32 ≤ k / 2) (λ n. n ≡ k / 2) }
{
    match u32::try_from(k / 2) {
        Ok(n) => Some(n),
        Err(_) => None,
    }
}

// The editor's own token that the daemon's token of a number stands for.
fn own_of(pending: &Pending, k: u64) -> Option<&Body>
    ensures { option_copied result ≡ own_of k pending.now }
{
    if k % 2 == 0 {
        pending.work.as_ref()
    } else {
        pending.partial.as_ref()
    }
}

// Whether a work token stands for what these bytes do.
fn is_work(work: &Option<Body>, token: &[u8]) -> bool
    ensures { result ≡ is_work token.now work.now }
{
    match work {
        Some(text) => same_form(token, text.bytes()),
        None => false,
    }
}

// Whether the request of this number is open, and has this work token.
fn works(ids: &IdTable, n: u32, token: &[u8]) -> bool
    ensures { result ≡ works token.now (pending_of n ids.now.requests) }
{
    match ids.get(n) {
        Some(pending) => is_work(&pending.work, token),
        None => false,
    }
}

// An editor runs, or sent `shutdown` since.
fn listens(phase: Phase) -> bool
    ensures { result ≡ listens phase }
{
    matches!(phase, Phase::Running | Phase::Down)
}

// The first of these numbers whose request has this work token.
fn first_among(ids: &IdTable, numbers: &[u32], token: &[u8]) -> Option<u32>
    ensures { result ≡ find (λ n. works token.now (pending_of n ids.now.requests)) numbers.now }
{
    for i in 0..numbers.len() {
        if works(ids, numbers[i], token) {
            return Some(numbers[i]);
        }
    }
    None
}

// The first of an editor's open requests that has this work token.
fn first_worked(ids: &IdTable, e: u64, token: &[u8]) -> Result<Option<u32>, Memory>
    ensures { IfOk result (λ n. n ≡ find (λ k. works token.now (pending_of k ids.now.requests)) (numbers_of e ids.now.requests)) }
{
    let numbers = ids.of_editor(e)?;
    Ok(first_among(ids, &numbers, token))
}

impl Tables {
    /// S13: what a token of the group's last start stands for, where its request is open, had a token of that sort, and its editor runs
    /// or is down. `k` is the number of the daemon's token that it is, where it is one.
    pub fn told_of(&self, g: usize, k: Option<u64>) -> Option<Told<'_>>
        requires { g < length self.now.lasts.items }
        ensures inside { IfSome result (λ x. x.editor < length self.now.editors) }
        ensures told { (settings : Settings) (before : List Event) (s : ℕ) (token : Option Json)
            → slice_get (map number_in self.now.lasts.items) g ≡ Some s → MarksAt token k → Stands settings self.now before
            → MatchOption result (find (is_told before token) (forwarding_of settings s before).open_requests ≡ None)
            (λ x. IsTold before token (forwarding_of settings s before).open_requests x.editor x.token.now) }
    {
        let k = k?;
        let n = owner(k)?;
        let pending = self.lasts[g].ids.get(n)?;
        let token = own_of(pending, k)?;
        let editor = pending.editor;
        if editor >= self.editors.count() {
            return None;
        }
        if !listens(self.editors.phase(editor)) {
            return None;
        }
        Some(Told { editor, token })
    }

    /// E11: the number of the first of an editor's open requests at the group's last start that has this work token. `token` is the text
    /// of an integer or a string. It walks over the open requests there, and looks each of the editor's up.
    pub fn worked(&self, g: usize, e: u64, token: &[u8]) -> Result<Option<u32>, Memory>
        requires { g < length self.now.lasts.items }
        ensures { (settings : Settings) (events : List Event) (s : ℕ) (id : Id) (named : Option Json)
            → slice_get (map number_in self.now.lasts.items) g ≡ Some s → IsIdText id token.now → option_and_then id_of named ≡ Some id
            → Stands settings self.now events
            → IfOk result (λ n. n ≡ option_map (λ (f : Forwarded). f.number) (find (is_worked e named) (forwarding_of settings s events).open_requests)) }
    {
        first_worked(&self.lasts[g].ids, e, token)
    }
}
