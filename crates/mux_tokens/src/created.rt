//! The progress tokens that starts created, by the numbers of starts.
ghost use Rattle.std.specs.Prelude.{◌≡◌, [], ℕ, is_some, option_copied, option_map, IfOk, OnOk};
ghost use Rattle.std.specs.Map.{keys_of};
ghost use Rattle.std.specs.List.Sorted.{IsStrictlySortedBy};
ghost use Rattle.std.specs.Ordering.{nat_cmp};
ghost use Rattle.progress_route.specs.Tables.{accepted_in, all_of, answered, at, begun_at, created, due, given, left, less, number_in, numbers_in, put_to, taken};
ghost use Rattle.mux_tokens.specs.Rows.{changed, edited, left_each, table_of};

use message_body::{Body, Memory};
use progress_route::{Due, Handed, Kind, Tokens};
use std::alloc::Global;
use std::collections::BTreeMap;
use std::marker::Model;

/// The progress tokens of each start that created one, until its program ends.
///
/// A call looks up a start in time logarithmic in how many of these there are; what follows is as `Tokens` says. Where a call answers
/// `Memory` nothing is said of the tables.
#[derive(Drop)]
pub struct Created {
    alloc: Global,
    starts: BTreeMap<u64, Tokens>,
}

impl Model for Created {
    ghost use Rattle.mux_tokens.specs.Rows.{Rows};

    ghost Value = { Rows };

    ghost view = { λ c. c.starts.entries };
}

// A token is created at a start, which may not be there yet.
fn create(
    alloc: Global,
    starts: &mut BTreeMap<u64, Tokens>,
    s: u64,
    token: Body,
) -> Result<u64, Memory>
    ensures number { IfOk result (λ number. number ≡ (table_of s starts.old.entries).next) }
    ensures table { OnOk result (starts.new.entries ≡ changed s (created token) starts.old.entries) }
{
    match starts.get_mut(&s) {
        Some(tokens) => tokens.create(token),
        None => {
            let mut tokens = Tokens::new(alloc);
            let number = tokens.create(token)?;
            starts.insert(s, tokens)?;
            Ok(number)
        }
    }
}

// An editor is asked to take a token of a start, which may not be there yet.
fn ask(
    alloc: Global,
    starts: &mut BTreeMap<u64, Tokens>,
    s: u64,
    token: u64,
    editor: u64,
    number: u128,
) -> Result<(), Memory>
    ensures { OnOk result (starts.new.entries ≡ changed s (put_to token editor number) starts.old.entries) }
{
    match starts.get_mut(&s) {
        Some(tokens) => tokens.ask(token, editor, number),
        None => {
            let mut tokens = Tokens::new(alloc);
            tokens.ask(token, editor, number)?;
            starts.insert(s, tokens)?;
            Ok(())
        }
    }
}

// An editor answers whether it takes a token.
fn answer(
    starts: &mut BTreeMap<u64, Tokens>,
    s: u64,
    editor: u64,
    number: u128,
    accepts: bool,
) -> Result<Option<Handed>, Memory>
    ensures handed { IfOk result (λ handed. option_map (λ h. (h.token, h.bodies.items)) handed ≡ given editor number accepts (table_of s starts.old.entries)) }
    ensures table { OnOk result (starts.new.entries ≡ edited s (answered editor number accepts) starts.old.entries) }
{
    match starts.get_mut(&s) {
        Some(tokens) => tokens.answer(editor, number, accepts),
        None => Ok(None),
    }
}

// A progress message comes from a start.
fn take(
    starts: &mut BTreeMap<u64, Tokens>,
    s: u64,
    token: &[u8],
    body: &Body,
    kind: Kind,
) -> Result<Option<Due>, Memory>
    ensures due { IfOk result (λ found. option_map (λ d. (d.token, d.editors.items)) found ≡ due token.now (table_of s starts.old.entries)) }
    ensures table { OnOk result (starts.new.entries ≡ edited s (taken token.now body.now kind) starts.old.entries) }
{
    match starts.get_mut(&s) {
        Some(tokens) => tokens.take(token, body, kind),
        None => Ok(None),
    }
}

// An editor leaves a start.
fn leave(starts: &mut BTreeMap<u64, Tokens>, s: u64, editor: u64)
    ensures { starts.new.entries ≡ edited s (left editor) starts.old.entries }
{
    match starts.get_mut(&s) {
        Some(tokens) => tokens.leave(editor),
        None => {}
    }
}

// The numbers of all starts that are there, rising.
fn all_starts(alloc: Global, starts: &BTreeMap<u64, Tokens>) -> Result<Vec<u64>, Memory>
    ensures all { IfOk result (λ all. all.items ≡ keys_of starts.now.entries) }
    ensures rising { IsStrictlySortedBy nat_cmp (keys_of starts.now.entries) }
{
    let mut all = Vec::new(alloc);
    for s in starts.keys() {
        all.push(*s)?;
    }
    Ok(all)
}

// An editor leaves these starts, one after the other.
fn leave_each(starts: &mut BTreeMap<u64, Tokens>, all: &[u64], editor: u64)
    ensures { starts.new.entries ≡ left_each editor all.now starts.old.entries }
{
    for s in all {
        leave(starts, *s, editor);
    }
}

impl Created {
    /// No start created anything. It takes no memory.
    pub fn new(alloc: Global) -> Created
        ensures { result ≡ [] }
    {
        Created {
            alloc,
            starts: BTreeMap::new(alloc),
        }
    }

    /// S8: a start creates a token, and it gets the start's next number. The caller has seen that none lives that is the same.
    pub fn create(&mut self, s: u64, token: Body) -> Result<u64, Memory>
        ensures number { IfOk result (λ number. number ≡ (table_of s self.old).next) }
        ensures table { OnOk result (self.new ≡ changed s (created token) self.old) }
    {
        create(self.alloc, &mut self.starts, s, token)
    }

    /// S8 and L2: an editor is asked under a number of its own to take a start's token.
    pub fn ask(&mut self, s: u64, token: u64, editor: u64, number: u128) -> Result<(), Memory>
        ensures { OnOk result (self.new ≡ changed s (put_to token editor number) self.old) }
    {
        ask(self.alloc, &mut self.starts, s, token, editor, number)
    }

    /// E19: an editor answers what it was asked under a number for a start. Where it accepts, what was held for it is handed out; None
    /// where it was asked nothing there, and then nothing changes.
    pub fn answer(
        &mut self,
        s: u64,
        editor: u64,
        number: u128,
        accepts: bool,
    ) -> Result<Option<Handed>, Memory>
        ensures handed { IfOk result (λ handed. option_map (λ h. (h.token, h.bodies.items)) handed ≡ given editor number accepts (table_of s self.old)) }
        ensures table { OnOk result (self.new ≡ edited s (answered editor number accepts) self.old) }
    {
        answer(&mut self.starts, s, editor, number, accepts)
    }

    /// S13: a progress message comes from a start for its token. None where no such token lives, and then nothing changes.
    pub fn take(
        &mut self,
        s: u64,
        token: &[u8],
        body: &Body,
        kind: Kind,
    ) -> Result<Option<Due>, Memory>
        ensures due { IfOk result (λ found. option_map (λ d. (d.token, d.editors.items)) found ≡ due token.now (table_of s self.old)) }
        ensures table { OnOk result (self.new ≡ edited s (taken token.now body.now kind) self.old) }
    {
        take(&mut self.starts, s, token, body, kind)
    }

    /// L1: an editor leaves: what it was asked for any start goes, and what it accepted. It walks over the starts that are there.
    pub fn forget_editor(&mut self, editor: u64) -> Result<(), Memory>
        ensures table { OnOk result (self.new ≡ left_each editor (keys_of self.old) self.old) }
        ensures rising { IsStrictlySortedBy nat_cmp (keys_of self.old) }
    {
        let all = all_starts(self.alloc, &self.starts)?;
        leave_each(&mut self.starts, &all, editor);
        Ok(())
    }

    /// The program of a start ended: its tokens do. It takes no memory.
    pub fn end_start(&mut self, s: u64)
        ensures { self.new ≡ less s self.old }
    {
        let _tokens = self.starts.remove(&s);
    }

    /// S8 and S13: the number of a start's live token that these bytes stand for. It takes no memory.
    pub fn number_of(&self, s: u64, token: &[u8]) -> Option<u64>
        ensures { result ≡ number_in token.now (table_of s self.now).names }
    {
        match self.starts.get(&s) {
            Some(tokens) => tokens.number_of(token),
            None => None,
        }
    }

    /// E11: the text of a start's live token, as the start wrote it.
    pub fn text_of(&self, s: u64, token: u64) -> Option<&Body>
        ensures { option_copied result ≡ at token (table_of s self.now).names }
    {
        match self.starts.get(&s) {
            Some(tokens) => tokens.text_of(token),
            None => None,
        }
    }

    /// L2: a start's live tokens in the order of their creation, each with whether it has begun.
    pub fn all(&self, s: u64) -> Result<Vec<(u64, bool)>, Memory>
        ensures { IfOk result (λ all. all.items ≡ all_of (table_of s self.now)) }
    {
        match self.starts.get(&s) {
            Some(tokens) => tokens.all(),
            None => Ok(Vec::new(self.alloc)),
        }
    }

    /// S13 and E11: whether an editor accepted a start's token that lives.
    pub fn has_accepted(&self, s: u64, token: u64, editor: u64) -> bool
        ensures { result ≡ accepted_in token (at editor (table_of s self.now).parts) }
    {
        match self.starts.get(&s) {
            Some(tokens) => tokens.has_accepted(token, editor),
            None => false,
        }
    }

    /// X2: a start's live tokens, in the order of their creation, that an editor accepted and of which it was sent a `begin`.
    pub fn begun(&self, s: u64, editor: u64) -> Result<Vec<u64>, Memory>
        ensures { IfOk result (λ found. found.items ≡ begun_at editor (table_of s self.now)) }
    {
        match self.starts.get(&s) {
            Some(tokens) => tokens.begun(editor),
            None => Ok(Vec::new(self.alloc)),
        }
    }

    /// X2: the numbers, rising, under which an editor was asked whether it takes a start's tokens, and didn't answer.
    pub fn unanswered(&self, s: u64, editor: u64) -> Result<Vec<u128>, Memory>
        ensures { IfOk result (λ numbers. numbers.items ≡ numbers_in (at editor (table_of s self.now).parts)) }
    {
        match self.starts.get(&s) {
            Some(tokens) => tokens.numbers_of(editor),
            None => Ok(Vec::new(self.alloc)),
        }
    }
}
