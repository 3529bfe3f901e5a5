//! The progress tokens that one start of a server created.
ghost use Rattle.std.specs.Prelude.{◌≡◌, Some, false, is_some, option_copied, option_map, IfOk, OnOk};
ghost use Rattle.std.specs.Map.{keys_of};
ghost use Rattle.std.specs.List.Sorted.{IsStrictlySortedBy};
ghost use Rattle.std.specs.Ordering.{nat_cmp};
ghost use Rattle.rpc_message.specs.Message.{Id};
ghost use Rattle.rpc_message.specs.ValueTexts.{IsIdText};
ghost use Rattle.progress_route.specs.Tables.{AreIds, accepted_in, accepting, all_in, all_of, answered, asked, at, begins_after, begun_among, begun_at, begun_in, bodies_of, changed, created, due, edited, given, held_in, left, nothing, number_as, number_in, numbers_in, put_to, settled, taken, token_at, told, told_all};
ghost use Rattle.progress_route.specs.Tells.{told_each};

use crate::editor::Editor;
use crate::kind::Kind;
use crate::names::Names;
use crate::waiting::Waiting;
use message_body::{Body, Memory};
use std::alloc::Global;
use std::collections::BTreeMap;
use std::marker::Model;

/// Who gets a progress message at once: the editors that accepted the create of its token, rising, and the token's number.
#[derive(Debug, Drop)]
pub struct Due {
    pub token: u64,
    pub editors: Vec<u64>,
}

/// What an editor's answer hands out: the token's number, and the bodies that were held for the editor, in order.
#[derive(Debug, Drop)]
pub struct Handed {
    pub token: u64,
    pub bodies: Vec<Body>,
}

/// The progress tokens that one start of a server created and that haven't ended, in the order of their creation, and of
/// each editor what it accepted and what it hasn't answered.
///
/// A token has the number of its create among all accepted ones of the start, from 1; numbers are never given again. A
/// token that ends is live no more, and may be created again, under a new number. Creates that an editor hasn't answered
/// stay, with what is held for them, until it answers or leaves, also where the token has ended meanwhile.
///
/// By a token's bytes a call's time is linear in them, beside the logarithm of how many tokens live; by a number it is the
/// logarithm of how many there are. A progress message is copied for each editor that holds it, and looked up at each
/// editor that was asked a create and hasn't left. Where a call answers `Memory` nothing is said of the table, which may
/// only be dropped then, except where the call says more.
#[derive(Drop)]
pub struct Tokens {
    alloc: Global,
    names: Names,
    begins: BTreeMap<u64, Body>,
    editors: BTreeMap<u64, Editor>,
}

impl Model for Tokens {
    ghost use Rattle.progress_route.specs.Tables.{Table};

    ghost Value = { Table };

    ghost view = { λ t. record { names = t.names.rows; next = t.names.next; begins = t.begins.entries; parts = t.editors.entries } };
}

// The bodies of what may be held.
fn bodies_of(alloc: Global, waiting: Option<Waiting>) -> Vec<Body>
    ensures { result.items ≡ bodies_of waiting }
{
    match waiting {
        Some(waiting) => waiting.into_bodies(),
        None => Vec::new(alloc),
    }
}

// A create of a token was asked of an editor, which may not be there yet.
fn ask(
    alloc: Global,
    editors: &mut BTreeMap<u64, Editor>,
    editor: u64,
    token: u64,
    number: u128,
    begin: Option<&Body>,
) -> Result<(), Memory>
    ensures { OnOk result (editors.new.entries ≡ changed editor (asked token number (option_copied begin.entry)) editors.old.entries) }
{
    match editors.get_mut(&editor) {
        Some(part) => part.ask(alloc, token, number, begin),
        None => {
            let mut part = Editor::new(alloc);
            part.ask(alloc, token, number, begin)?;
            editors.insert(editor, part)?;
            Ok(())
        }
    }
}

// An editor has answered a create, and gives what was held for it.
fn settle(
    alloc: Global,
    editors: &mut BTreeMap<u64, Editor>,
    editor: u64,
    number: u128,
    token: u64,
    holds: bool,
) -> Result<Vec<Body>, Memory>
    ensures held { IfOk result (λ bodies. bodies.items ≡ held_in token (at editor editors.old.entries)) }
    ensures parts { OnOk result (editors.new.entries ≡ edited editor (settled number token holds) editors.old.entries) }
{
    match editors.get_mut(&editor) {
        Some(part) => Ok(bodies_of(alloc, part.settle(number, token, holds)?)),
        None => Ok(Vec::new(alloc)),
    }
}

// A body comes for a token, at one editor.
fn tell(
    alloc: Global,
    editors: &mut BTreeMap<u64, Editor>,
    editor: u64,
    token: u64,
    body: &Body,
    kind: Kind,
) -> Result<(), Memory>
    ensures { OnOk result (editors.new.entries ≡ edited editor (told token body.now kind) editors.old.entries) }
{
    match editors.get_mut(&editor) {
        Some(part) => part.tell(alloc, token, body, kind),
        None => Ok(()),
    }
}

// The numbers of all editors, rising.
fn all_editors(alloc: Global, editors: &BTreeMap<u64, Editor>) -> Result<Vec<u64>, Memory>
    ensures all { IfOk result (λ all. all.items ≡ keys_of editors.now.entries) }
    ensures rising { IsStrictlySortedBy nat_cmp (keys_of editors.now.entries) }
{
    let mut all = Vec::new(alloc);
    for editor in editors.keys() {
        all.push(*editor)?;
    }
    Ok(all)
}

// A body comes for a token, at these editors in turn.
fn tell_each(
    alloc: Global,
    editors: &mut BTreeMap<u64, Editor>,
    all: &[u64],
    token: u64,
    body: &Body,
    kind: Kind,
) -> Result<(), Memory>
    ensures { OnOk result (editors.new.entries ≡ told_each token body.now kind all.now editors.old.entries) }
{
    for editor in all {
        tell(alloc, editors, *editor, token, body, kind)?;
    }
    Ok(())
}

// A body comes for a token, at all editors.
fn tell_all(
    alloc: Global,
    editors: &mut BTreeMap<u64, Editor>,
    token: u64,
    body: &Body,
    kind: Kind,
) -> Result<(), Memory>
    ensures { OnOk result (editors.new.entries ≡ told_all token body.now kind editors.old.entries) }
{
    let all = all_editors(alloc, editors)?;
    tell_each(alloc, editors, &all, token, body, kind)
}

// The editors that accepted a token, rising.
fn accepting(alloc: Global, editors: &BTreeMap<u64, Editor>, token: u64) -> Result<Vec<u64>, Memory>
    ensures { IfOk result (λ found. found.items ≡ accepting token editors.now.entries) }
{
    let mut found = Vec::new(alloc);
    for (editor, part) in editors {
        if part.has_accepted(token) {
            found.push(*editor)?;
        }
    }
    Ok(found)
}

// The first `begin` of each token, after a body.
fn note_begin(
    alloc: Global,
    begins: &mut BTreeMap<u64, Body>,
    token: u64,
    body: &Body,
    kind: Kind,
) -> Result<(), Memory>
    ensures { OnOk result (begins.new.entries ≡ begins_after token body.now kind begins.old.entries) }
{
    match kind {
        Kind::Begin => {
            if !begins.contains_key(&token) {
                begins.insert(token, body.copy(alloc)?)?;
            }
        }
        Kind::End => {
            let _begin = begins.remove(&token);
        }
        Kind::Other => {}
    }
    Ok(())
}

// The live tokens, each with whether it has begun.
fn all_in(
    alloc: Global,
    names: &BTreeMap<u64, Body>,
    begins: &BTreeMap<u64, Body>,
) -> Result<Vec<(u64, bool)>, Memory>
    ensures { IfOk result (λ all. all.items ≡ all_in names.now.entries begins.now.entries) }
{
    let mut all = Vec::new(alloc);
    for number in names.keys() {
        all.push((*number, begins.contains_key(number)))?;
    }
    Ok(all)
}

// Those of these tokens that an editor accepted and of which it was sent a `begin`.
fn begun_among(
    alloc: Global,
    names: &BTreeMap<u64, Body>,
    part: &Editor,
) -> Result<Vec<u64>, Memory>
    ensures { IfOk result (λ found. found.items ≡ begun_among (keys_of names.now.entries) (Some part.now)) }
{
    let mut found = Vec::new(alloc);
    for number in names.keys() {
        if part.has_begun(*number) {
            found.push(*number)?;
        }
    }
    Ok(found)
}

impl Tokens {
    /// No tokens. It takes no memory.
    pub fn new(alloc: Global) -> Tokens
        ensures { result ≡ nothing }
    {
        Tokens {
            alloc,
            names: Names::new(alloc),
            begins: BTreeMap::new(alloc),
            editors: BTreeMap::new(alloc),
        }
    }

    /// The number of the live token that these bytes stand for. It takes no memory.
    ///
    /// `token` is the text of an id, as the kept ones are. Other bytes that begin with a quotation mark count as a string, by
    /// the characters that are read of them; all others count by themselves.
    pub fn number_of(&self, token: &[u8]) -> Option<u64>
        ensures exact { result ≡ number_in token.now self.now.names }
        ensures same { (meaning : _) (i : Id) → IsIdText i token.now → AreIds meaning self.now.names → result ≡ number_as meaning i self.now.names }
    {
        self.found(token)
    }

    // The number of the live token.
    fn found(&self, token: &[u8]) -> Option<u64>
        ensures { result ≡ number_in token.now self.now.names }
    {
        self.names.number_of(token)
    }

    /// Whether a token lives: it was created and hasn't ended. `token` is as in `number_of`. It takes no memory.
    pub fn is_live(&self, token: &[u8]) -> bool
        ensures exact { result ≡ is_some (number_in token.now self.now.names) }
        ensures same { (meaning : _) (i : Id) → IsIdText i token.now → AreIds meaning self.now.names → result ≡ is_some (number_as meaning i self.now.names) }
    {
        self.number_of(token).is_some()
    }

    /// The text of a live token, as the server wrote it.
    pub fn text_of(&self, token: u64) -> Option<&Body>
        ensures { option_copied result ≡ at token self.now.names }
    {
        self.names.get(token)
    }

    /// A token is created, and gets the next number. The caller has seen that none lives that is the same: of two, the
    /// first would be found. At the end of the numbers it is `Memory`.
    pub fn create(&mut self, token: Body) -> Result<u64, Memory>
        ensures number { IfOk result (λ number. number ≡ self.old.next) }
        ensures table { OnOk result (self.new ≡ created token self.old) }
    {
        self.names.push(token)
    }

    /// The create of a token was asked of an editor under a number. What is held there begins with the token's first
    /// `begin`, where one came before.
    pub fn ask(&mut self, token: u64, editor: u64, number: u128) -> Result<(), Memory>
        ensures { OnOk result (self.new ≡ put_to token editor number self.old) }
    {
        ask(
            self.alloc,
            &mut self.editors,
            editor,
            token,
            number,
            self.begins.get(&token),
        )
    }

    // The token of the create that an editor was asked under a number.
    fn token_at(&self, editor: u64, number: u128) -> Option<u64>
        ensures { result ≡ token_at editor number self.now.parts }
    {
        match self.editors.get(&editor) {
            Some(part) => part.token_at(number),
            None => None,
        }
    }

    /// An editor answers the create that it was asked under a number. Where it accepts, what was held for it is handed
    /// out, and it has accepted the token from now on, while that lives; where it refuses, what was held is dropped. None
    /// where the editor has no such create to answer, and then nothing changes.
    pub fn answer(
        &mut self,
        editor: u64,
        number: u128,
        accepts: bool,
    ) -> Result<Option<Handed>, Memory>
        ensures handed { IfOk result (λ handed. option_map (λ h. (h.token, h.bodies.items)) handed ≡ given editor number accepts self.old) }
        ensures table { OnOk result (self.new ≡ answered editor number accepts self.old) }
    {
        let Some(token) = self.token_at(editor, number) else {
            return Ok(None);
        };
        let holds = accepts && self.names.get(token).is_some();
        let held = settle(self.alloc, &mut self.editors, editor, number, token, holds)?;
        let bodies = if accepts { held } else { Vec::new(self.alloc) };
        Ok(Some(Handed { token, bodies }))
    }

    /// A progress message comes for a token. The editors that accepted the token are due to get it at once; it is held
    /// for each editor that hasn't answered the token's create, behind fewer than 1,024 others, an end always. An end ends
    /// the token. None where no such token lives, and then nothing changes.
    pub fn take(&mut self, token: &[u8], body: &Body, kind: Kind) -> Result<Option<Due>, Memory>
        ensures due { IfOk result (λ found. option_map (λ d. (d.token, d.editors.items)) found ≡ due token.now self.old) }
        ensures table { OnOk result (self.new ≡ taken token.now body.now kind self.old) }
    {
        let Some(number) = self.names.number_of(token) else {
            return Ok(None);
        };
        let editors = accepting(self.alloc, &self.editors, number)?;
        tell_all(self.alloc, &mut self.editors, number, body, kind)?;
        note_begin(self.alloc, &mut self.begins, number, body, kind)?;
        if kind == Kind::End {
            self.names.remove(number);
        }
        Ok(Some(Due {
            token: number,
            editors,
        }))
    }

    /// An editor leaves: its creates and what it accepted go. It takes no memory.
    pub fn leave(&mut self, editor: u64)
        ensures { self.new ≡ left editor self.old }
    {
        let _part = self.editors.remove(&editor);
    }

    /// The live tokens in the order of their creation, each with whether it has begun.
    pub fn all(&self) -> Result<Vec<(u64, bool)>, Memory>
        ensures { IfOk result (λ all. all.items ≡ all_of self.now) }
    {
        all_in(self.alloc, self.names.rows(), &self.begins)
    }

    /// Whether an editor accepted a token that lives.
    pub fn has_accepted(&self, token: u64, editor: u64) -> bool
        ensures { result ≡ accepted_in token (at editor self.now.parts) }
    {
        match self.editors.get(&editor) {
            Some(part) => part.has_accepted(token),
            None => false,
        }
    }

    /// Whether an editor accepted a token that lives and was sent a `begin` of it, at once or with what was held.
    pub fn has_begun(&self, token: u64, editor: u64) -> bool
        ensures { result ≡ begun_in token (at editor self.now.parts) }
    {
        match self.editors.get(&editor) {
            Some(part) => part.has_begun(token),
            None => false,
        }
    }

    /// X2: the live tokens, in the order of their creation, that an editor accepted and of which it was sent a `begin`.
    pub fn begun(&self, editor: u64) -> Result<Vec<u64>, Memory>
        ensures { IfOk result (λ found. found.items ≡ begun_at editor self.now) }
    {
        match self.editors.get(&editor) {
            Some(part) => begun_among(self.alloc, self.names.rows(), part),
            None => Ok(Vec::new(self.alloc)),
        }
    }

    /// The numbers of the creates that an editor hasn't answered, rising.
    pub fn numbers_of(&self, editor: u64) -> Result<Vec<u128>, Memory>
        ensures { IfOk result (λ numbers. numbers.items ≡ numbers_in (at editor self.now.parts)) }
    {
        match self.editors.get(&editor) {
            Some(part) => part.numbers(self.alloc),
            None => Ok(Vec::new(self.alloc)),
        }
    }

    /// The start is gone: all ends, and numbers begin anew at 1. It takes no memory.
    pub fn over(&mut self)
        ensures { self.new ≡ nothing }
    {
        *self = Tokens::new(self.alloc);
    }
}
