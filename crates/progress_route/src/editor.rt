//! What is kept of one editor.
ghost use Rattle.std.specs.Prelude.{◌≡◌, option_copied, IfOk, OnOk};
ghost use Rattle.std.specs.Map.{keys_of};
ghost use Rattle.progress_route.specs.Tables.{asked, at, begun_of, has_accepted, hear, hold, is_noted, no_part, settled, told};

use crate::kind::Kind;
use crate::waiting::Waiting;
use message_body::{Body, Memory};
use std::alloc::Global;
use std::collections::BTreeMap;
use std::marker::Model;

/// The creates that an editor hasn't answered, what is held for these, and the tokens that it accepted.
#[derive(Drop)]
pub struct Editor {
    creates: BTreeMap<u128, u64>,
    waits: BTreeMap<u64, Waiting>,
    accepted: BTreeMap<u64, bool>,
}

impl Model for Editor {
    ghost use Rattle.progress_route.specs.Tables.{Part};

    ghost Value = { Part };

    ghost view = { λ e. record { creates = e.creates.entries; waits = e.waits.entries; accepted = e.accepted.entries } };
}

// A body is held for a token, where a create of it waits.
fn hold(
    alloc: Global,
    waits: &mut BTreeMap<u64, Waiting>,
    token: u64,
    body: &Body,
    kind: Kind,
) -> Result<(), Memory>
    ensures { OnOk result (waits.new.entries ≡ hold token body.now kind (at token waits.old.entries) waits.old.entries) }
{
    match waits.get_mut(&token) {
        Some(waiting) => waiting.hold(alloc, body, kind),
        None => Ok(()),
    }
}

// A `begin` is noted where its token was accepted.
fn note(accepted: &mut BTreeMap<u64, bool>, token: u64)
    ensures { accepted.new.entries ≡ hear token Kind.Begin accepted.old.entries }
{
    if let Some(begun) = accepted.get_mut(&token) {
        *begun = true;
    }
}

// What a body is to a token that was accepted.
fn hear(accepted: &mut BTreeMap<u64, bool>, token: u64, kind: Kind)
    ensures { accepted.new.entries ≡ hear token kind accepted.old.entries }
{
    match kind {
        Kind::Begin => note(accepted, token),
        Kind::End => {
            let _gone = accepted.remove(&token);
        }
        Kind::Other => {}
    }
}

// Whether a `begin` is among what may be held.
fn has_begun(waiting: Option<&Waiting>) -> bool
    ensures { result ≡ begun_of (option_copied waiting.entry) }
{
    match waiting {
        Some(waiting) => waiting.has_begun(),
        None => false,
    }
}

impl Editor {
    /// Nothing. It takes no memory.
    pub fn new(alloc: Global) -> Editor
        ensures { result ≡ no_part }
    {
        Editor {
            creates: BTreeMap::new(alloc),
            waits: BTreeMap::new(alloc),
            accepted: BTreeMap::new(alloc),
        }
    }

    /// A create of a token was asked of it under a number.
    pub fn ask(
        &mut self,
        alloc: Global,
        token: u64,
        number: u128,
        begin: Option<&Body>,
    ) -> Result<(), Memory>
        ensures { OnOk result (self.new ≡ asked token number (option_copied begin.entry) self.old) }
    {
        let waiting = Waiting::new(alloc, begin)?;
        self.waits.insert(token, waiting)?;
        self.creates.insert(number, token)?;
        Ok(())
    }

    /// The token of the create that it was asked under a number.
    pub fn token_at(&self, number: u128) -> Option<u64>
        ensures { result ≡ at number self.now.creates }
    {
        match self.creates.get(&number) {
            Some(token) => Some(*token),
            None => None,
        }
    }

    /// It has answered a create, and holds the token from now on or doesn't. It gives what was held.
    pub fn settle(
        &mut self,
        number: u128,
        token: u64,
        holds: bool,
    ) -> Result<Option<Waiting>, Memory>
        ensures held { IfOk result (λ held. held ≡ at token self.old.waits) }
        ensures part { OnOk result (self.new ≡ settled number token holds self.old) }
    {
        let _token = self.creates.remove(&number);
        let held = self.waits.remove(&token);
        if holds {
            let begun = has_begun(held.as_ref());
            self.accepted.insert(token, begun)?;
        }
        Ok(held)
    }

    /// A body comes for a token.
    pub fn tell(&mut self, alloc: Global, token: u64, body: &Body, kind: Kind) -> Result<(), Memory>
        ensures { OnOk result (self.new ≡ told token body.now kind self.old) }
    {
        hold(alloc, &mut self.waits, token, body, kind)?;
        hear(&mut self.accepted, token, kind);
        Ok(())
    }

    /// Whether it accepted a token.
    pub fn has_accepted(&self, token: u64) -> bool
        ensures { result ≡ has_accepted token self.now }
    {
        self.accepted.contains_key(&token)
    }

    /// Whether it accepted a token and a `begin` of it was sent there.
    pub fn has_begun(&self, token: u64) -> bool
        ensures { result ≡ is_noted (at token self.now.accepted) }
    {
        match self.accepted.get(&token) {
            Some(begun) => *begun,
            None => false,
        }
    }

    /// The numbers of the creates that it hasn't answered, rising.
    pub fn numbers(&self, alloc: Global) -> Result<Vec<u128>, Memory>
        ensures { IfOk result (λ numbers. numbers.items ≡ keys_of self.now.creates) }
    {
        let mut numbers = Vec::new(alloc);
        for number in self.creates.keys() {
            numbers.push(*number)?;
        }
        Ok(numbers)
    }
}
