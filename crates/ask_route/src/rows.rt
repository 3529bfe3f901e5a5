//! Asks by numbers, which rise in the order in which they are put: what is looked up, put and taken.
ghost use Rattle.std.specs.Prelude.{◌≡◌, Some, None, ◌+◌, ◌++◌, [], ◌∷◌, filter, find, not, option_copied, IfOk, OnErr, OnOk};
ghost use Rattle.std.specs.BTreeMap.{is_at};
ghost use Rattle.std.specs.Map.{remove_entry, values_of};
ghost use Rattle.std.specs.Ordering.{nat_cmp};
ghost use Rattle.ask_route.specs.Tables.{is_seated, is_under, is_with, less, numbers_of};
ghost use Rattle.ask_route.specs.Rows.{Rise, chosen, first_number, first_with, number_with, numbers_among, numbers_with, passes, row_at};

use crate::ask::{Ask, is_seated, is_under, is_with, seat_of};
use crate::numbers::Numbers;
use message_body::Memory;
use std::alloc::Global;
use std::collections::{BTreeMap, BTreeSet};
use std::marker::Model;

/// Asks by their numbers, and the indexes of these.
#[derive(Drop)]
pub struct Rows {
    alloc: Global,
    rows: BTreeMap<u64, Ask>,
    next: u64,
    numbers: Numbers,
}

impl Model for Rows {
    ghost use Rattle.ask_route.specs.Rows.{IsKept, Numbered};

    ghost Value = { Numbered };

    ghost view = { λ r. record { rows = r.rows.entries; next = r.next } };

    ghost invariant = { λ r. IsKept r.rows.entries r.next r.numbers.by_id r.numbers.by_number r.numbers.by_editor };
}

// Whether the ask of a number has an id.
fn is_row_under(rows: &BTreeMap<u64, Ask>, number: u64, id: &[u8]) -> bool
    ensures { result ≡ passes (is_under id.now) (row_at number rows.now.entries) }
{
    match rows.get(&number) {
        Some(ask) => is_under(ask, id),
        None => false,
    }
}

// Whether the ask of a number is one that an editor has under a number.
fn is_row_seated(rows: &BTreeMap<u64, Ask>, at: u64, editor: u64, number: u128) -> bool
    ensures { result ≡ passes (is_seated editor number) (row_at at rows.now.entries) }
{
    match rows.get(&at) {
        Some(ask) => is_seated(ask, editor, number),
        None => false,
    }
}

// Whether the ask of a number is an editor's; of None, whether it is parked.
fn is_row_with(rows: &BTreeMap<u64, Ask>, number: u64, holder: Option<u64>) -> bool
    ensures { result ≡ passes (is_with holder) (row_at number rows.now.entries) }
{
    match rows.get(&number) {
        Some(ask) => is_with(ask, holder),
        None => false,
    }
}

// The first of these numbers whose ask has an id.
fn first_under(rows: &BTreeMap<u64, Ask>, numbers: &BTreeSet<u64>, id: &[u8]) -> Option<u64>
    ensures { result ≡ first_number (is_under id.now) rows.now.entries numbers.now.keys }
{
    for number in numbers {
        if is_row_under(rows, *number, id) {
            return Some(*number);
        }
    }
    None
}

// The first of these numbers whose ask an editor has under a number.
fn first_seated(
    rows: &BTreeMap<u64, Ask>,
    numbers: &BTreeSet<u64>,
    editor: u64,
    number: u128,
) -> Option<u64>
    ensures { result ≡ first_number (is_seated editor number) rows.now.entries numbers.now.keys }
{
    for at in numbers {
        if is_row_seated(rows, *at, editor, number) {
            return Some(*at);
        }
    }
    None
}

// Those of these numbers whose asks an editor has; of None, those of the parked ones.
fn all_with(
    alloc: Global,
    rows: &BTreeMap<u64, Ask>,
    numbers: &BTreeSet<u64>,
    holder: Option<u64>,
) -> Result<Vec<u64>, Memory>
    ensures { IfOk result (λ found. found.items ≡ chosen (is_with holder) rows.now.entries numbers.now.keys) }
{
    let mut found = Vec::new(alloc);
    for number in numbers {
        if is_row_with(rows, *number, holder) {
            found.push(*number)?;
        }
    }
    Ok(found)
}

// Puts the number under which an editor was asked behind others, where there is one.
fn add_number(numbers: &mut Vec<u128>, ask: Option<&Ask>, editor: u64) -> Result<(), Memory>
    ensures { OnOk result (numbers.new.items ≡ numbers.old.items ++ number_with editor (option_copied ask.entry)) }
{
    if let Some(ask) = ask {
        if is_with(ask, Some(editor)) {
            if let Some(seat) = seat_of(ask) {
                numbers.push(seat.number)?;
            }
        }
    }
    Ok(())
}

// Of these numbers, those that an editor has under them.
fn all_numbers(
    alloc: Global,
    rows: &BTreeMap<u64, Ask>,
    among: &BTreeSet<u64>,
    editor: u64,
) -> Result<Vec<u128>, Memory>
    ensures { IfOk result (λ numbers. numbers.items ≡ numbers_among editor rows.now.entries among.now.keys) }
{
    let mut numbers = Vec::new(alloc);
    for at in among {
        add_number(&mut numbers, rows.get(at), editor)?;
    }
    Ok(numbers)
}

impl Rows {
    /// No asks. It takes no memory.
    pub fn new(alloc: Global) -> Rows
        ensures rows { result.rows ≡ [] }
    {
        Rows {
            alloc,
            rows: BTreeMap::new(alloc),
            next: 0,
            numbers: Numbers::new(alloc),
        }
    }

    // The number of the first ask with an id.
    fn under(&self, id: &[u8]) -> Option<u64>
        ensures first { result ≡ first_with (is_under id.now) self.now.rows }
        ensures rise { Rise 0 self.now.next self.now.rows }
    {
        match self.numbers.of_id(id) {
            Some(numbers) => first_under(&self.rows, numbers, id),
            None => None,
        }
    }

    /// The first ask with an id.
    pub fn find_under(&self, id: &[u8]) -> Option<&Ask>
        ensures { option_copied result ≡ find (is_under id.now) (values_of self.now.rows) }
    {
        match self.under(id) {
            Some(number) => self.rows.get(&number),
            None => None,
        }
    }

    // The number of the first ask that an editor has under a number.
    fn seated(&self, editor: u64, number: u128) -> Option<u64>
        ensures first { result ≡ first_with (is_seated editor number) self.now.rows }
        ensures rise { Rise 0 self.now.next self.now.rows }
    {
        match self.numbers.of_number(number) {
            Some(numbers) => first_seated(&self.rows, numbers, editor, number),
            None => None,
        }
    }

    /// The first ask that an editor has under a number is taken out.
    pub fn take_seated(&mut self, editor: u64, number: u128) -> Option<Ask>
        ensures ask { result ≡ find (is_seated editor number) (values_of self.old.rows) }
        ensures left { values_of self.new.rows ≡ less (is_seated editor number) (values_of self.old.rows) }
    {
        match self.seated(editor, number) {
            Some(at) => self.take(at),
            None => None,
        }
    }

    // The numbers of an editor's asks; of None, those of the parked ones.
    fn with(&self, holder: Option<u64>) -> Result<Vec<u64>, Memory>
        ensures all { IfOk result (λ found. found.items ≡ numbers_with (is_with holder) self.now.rows) }
        ensures rise { Rise 0 self.now.next self.now.rows }
    {
        match self.numbers.of_holder(holder) {
            Some(numbers) => all_with(self.alloc, &self.rows, numbers, holder),
            None => Ok(Vec::new(self.alloc)),
        }
    }

    /// The numbers under which an editor was asked.
    pub fn numbers_of(&self, editor: u64) -> Result<Vec<u128>, Memory>
        ensures { IfOk result (λ numbers. numbers.items ≡ numbers_of editor (values_of self.now.rows)) }
    {
        match self.numbers.of_holder(Some(editor)) {
            Some(numbers) => all_numbers(self.alloc, &self.rows, numbers, editor),
            None => Ok(Vec::new(self.alloc)),
        }
    }

    /// An ask comes, behind all others. Where memory runs out nothing changes.
    pub fn push(&mut self, ask: Ask) -> Result<(), Memory>
        ensures ok { OnOk result (self.new.rows ≡ self.old.rows ++ (self.old.next, ask) ∷ []) }
        ensures err { OnErr result (self.new ≡ self.old) }
    {
        let number = self.next;
        let Some(next) = number.checked_add(1) else {
            return Err(Memory);
        };
        self.numbers.add(self.alloc, &ask, number)?;
        match self.rows.insert(number, ask) {
            Ok(_) => {
                self.next = next;
                Ok(())
            }
            Err(refused) => {
                let (_, ask) = refused.value;
                self.numbers.remove(&ask, number);
                Err(Memory)
            }
        }
    }

    // The ask of a number is taken out.
    fn take(&mut self, number: u64) -> Option<Ask>
        ensures value { result ≡ row_at number self.old.rows }
        ensures rows { self.new.rows ≡ remove_entry (is_at (nat_cmp number)) self.old.rows }
        ensures next { self.new.next ≡ self.old.next }
        ensures rise { Rise 0 self.new.next self.new.rows }
    {
        let ask = self.rows.remove(&number)?;
        self.numbers.remove(&ask, number);
        Some(ask)
    }

    /// An editor's asks are taken out; of None, the parked ones. Where memory runs out nothing changes.
    pub fn take_with(&mut self, holder: Option<u64>) -> Result<Vec<Ask>, Memory>
        ensures asks { IfOk result (λ asks. asks.items ≡ filter (is_with holder) (values_of self.old.rows)) }
        ensures left { OnOk result (values_of self.new.rows ≡ filter (λ ask. not (is_with holder ask)) (values_of self.old.rows)) }
        ensures err { OnErr result (self.new ≡ self.old) }
    {
        let numbers = self.with(holder)?;
        let mut asks = Vec::with_capacity(self.alloc, numbers.len())?;
        for number in &numbers {
            if let Some(ask) = self.take(*number) {
                asks.push_reserved(ask);
            }
        }
        Ok(asks)
    }
}
