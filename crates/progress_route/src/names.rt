//! The texts of the live tokens by their numbers, which rise in the order in which they are created.
ghost use Rattle.std.specs.Prelude.{◌≡◌, Some, None, ◌+◌, ◌++◌, [], ◌∷◌, option_copied, IfOk, OnErr, OnOk};
ghost use Rattle.std.specs.BTreeMap.{is_at};
ghost use Rattle.std.specs.Map.{remove_entry};
ghost use Rattle.std.specs.Ordering.{nat_cmp};
ghost use Rattle.id_rewrite.specs.Forms.{same_form};
ghost use Rattle.number_index.specs.Numbers.{Changes, Same, listed, numbers_under, with_number, without_number};
ghost use Rattle.progress_route.specs.Names.{first_number, first_with, passes, print_key, row_at};

use id_rewrite::{fingerprint, same_form};
use message_body::{Body, Memory};
use number_index::Index;
use std::alloc::Global;
use std::collections::{BTreeMap, BTreeSet};
use std::marker::Model;

/// Texts by their numbers, and an index of these by their fingerprints.
#[derive(Drop)]
pub struct Names {
    alloc: Global,
    rows: BTreeMap<u64, Body>,
    next: u64,
    index: Index,
}

impl Model for Names {
    ghost use Rattle.progress_route.specs.Names.{IsKept, Numbered};

    ghost Value = { Numbered };

    ghost view = { λ n. record { rows = n.rows.entries; next = n.next } };

    ghost invariant = { λ n. IsKept n.rows.entries n.next n.index };
}

// The key of a text: all tokens have one giver, so all have one editor's number in their fingerprints.
fn print_key(text: &[u8]) -> [u8; 16]
    ensures { result ≡ print_key text.now }
{
    fingerprint(0, text).to_be_bytes()
}

// Puts a number under a text.
fn add_text(alloc: Global, index: &mut Index, text: &Body, n: u64) -> Result<(), Memory>
    ensures ok { OnOk result (Changes (print_key text.now) (with_number n) index.old index.new) }
    ensures err { OnErr result (Same index.old index.new) }
{
    index.add(alloc, &print_key(text.bytes()), n)
}

// Takes a number from under a text.
fn remove_text(index: &mut Index, text: &Body, n: u64)
    ensures { Changes (print_key text.now) (without_number n) index.old index.new }
{
    index.remove(&print_key(text.bytes()), n);
}

// Whether the text of a number stands for what these bytes do.
fn is_row_under(rows: &BTreeMap<u64, Body>, number: u64, text: &[u8]) -> bool
    ensures { result ≡ passes (same_form text.now) (row_at number rows.now.entries) }
{
    match rows.get(&number) {
        Some(body) => same_form(text, body.bytes()),
        None => false,
    }
}

// The numbers of the texts that have the fingerprint of this one.
fn numbers_like<'a>(index: &'a Index, text: &[u8]) -> Option<&'a BTreeSet<u64>>
    ensures { listed result ≡ numbers_under (print_key text.now) index.now }
{
    index.get(&print_key(text))
}

// The first of these numbers whose text stands for what these bytes do.
fn first_under(rows: &BTreeMap<u64, Body>, numbers: &BTreeSet<u64>, text: &[u8]) -> Option<u64>
    ensures { result ≡ first_number (same_form text.now) rows.now.entries numbers.now.keys }
{
    for number in numbers {
        if is_row_under(rows, *number, text) {
            return Some(*number);
        }
    }
    None
}

impl Names {
    /// No texts, and 1 as the next number. It takes no memory.
    pub fn new(alloc: Global) -> Names
        ensures rows { result.rows ≡ [] }
        ensures next { result.next ≡ 1 }
    {
        Names {
            alloc,
            rows: BTreeMap::new(alloc),
            next: 1,
            index: Index::new(alloc),
        }
    }

    /// The number of the first text that stands for what these bytes do.
    pub fn number_of(&self, text: &[u8]) -> Option<u64>
        ensures { result ≡ first_with (same_form text.now) self.now.rows }
    {
        match numbers_like(&self.index, text) {
            Some(numbers) => first_under(&self.rows, numbers, text),
            None => None,
        }
    }

    /// The text of a number.
    pub fn get(&self, number: u64) -> Option<&Body>
        ensures { option_copied result ≡ row_at number self.now.rows }
    {
        self.rows.get(&number)
    }

    /// The texts by their numbers.
    pub fn rows(&self) -> &BTreeMap<u64, Body>
        ensures { result.now.entries ≡ self.now.rows }
    {
        &self.rows
    }

    /// A text comes, behind all others, and gets the next number. Where memory or numbers run out nothing changes.
    pub fn push(&mut self, text: Body) -> Result<u64, Memory>
        ensures number { IfOk result (λ number. number ≡ self.old.next) }
        ensures rows { OnOk result (self.new.rows ≡ self.old.rows ++ (self.old.next, text) ∷ []) }
        ensures next { OnOk result (self.new.next ≡ self.old.next + 1) }
        ensures err { OnErr result (self.new ≡ self.old) }
    {
        let number = self.next;
        let Some(next) = number.checked_add(1) else {
            return Err(Memory);
        };
        add_text(self.alloc, &mut self.index, &text, number)?;
        match self.rows.insert(number, text) {
            Ok(_) => {
                self.next = next;
                Ok(number)
            }
            Err(refused) => {
                let (_, text) = refused.value;
                remove_text(&mut self.index, &text, number);
                Err(Memory)
            }
        }
    }

    /// The text of a number goes.
    pub fn remove(&mut self, number: u64)
        ensures rows { self.new.rows ≡ remove_entry (is_at (nat_cmp number)) self.old.rows }
        ensures next { self.new.next ≡ self.old.next }
    {
        if let Some(text) = self.rows.remove(&number) {
            remove_text(&mut self.index, &text, number);
        }
    }
}
