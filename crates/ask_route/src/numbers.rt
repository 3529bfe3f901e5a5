//! The numbers of asks, by the fingerprints of their ids, by the numbers that editors have, and by the editors.
ghost use Rattle.std.specs.Prelude.{◌≡◌, ◌<◌, [], OnErr, OnOk};
ghost use Rattle.std.specs.List.{AllByRecursion};
ghost use Rattle.std.specs.Int.{to_be_bytes, w128};
ghost use Rattle.number_index.specs.Numbers.{Changes, Same, listed, numbers_under, with_number, without_number};
ghost use Rattle.ask_route.specs.Tables.{seat_of};
ghost use Rattle.ask_route.specs.Rows.{editor_key, holder_key, id_key, number_key, print_key};

use crate::ask::{Ask, Place};
use id_rewrite::fingerprint;
use message_body::Memory;
use number_index::Index;
use std::alloc::Global;
use std::collections::BTreeSet;

/// The numbers of asks. A parked one stands under no bytes, in place of those of a number and of an editor.
#[derive(Drop)]
pub struct Numbers {
    pub by_id: Index,
    pub by_number: Index,
    pub by_editor: Index,
}

// The key of an id: the server's ids have one giver, so all have one editor's number in their fingerprints.
fn print_key(id: &[u8]) -> [u8; 16]
    ensures { result ≡ print_key id.now }
{
    fingerprint(0, id).to_be_bytes()
}

// Puts a number under an ask's id.
fn add_id(alloc: Global, index: &mut Index, ask: &Ask, n: u64) -> Result<(), Memory>
    ensures ok { OnOk result (Changes (id_key ask.now) (with_number n) index.old index.new) }
    ensures err { OnErr result (Same index.old index.new) }
{
    index.add(alloc, &print_key(ask.id.bytes()), n)
}

// Takes a number from under an ask's id.
fn remove_id(index: &mut Index, ask: &Ask, n: u64)
    ensures { Changes (id_key ask.now) (without_number n) index.old index.new }
{
    index.remove(&print_key(ask.id.bytes()), n);
}

// Puts a number under the number that an ask's editor has.
fn add_number(alloc: Global, index: &mut Index, ask: &Ask, n: u64) -> Result<(), Memory>
    ensures ok { OnOk result (Changes (number_key ask.now) (with_number n) index.old index.new) }
    ensures err { OnErr result (Same index.old index.new) }
{
    match &ask.place {
        Place::Asked(seat) => index.add(alloc, &seat.number.to_be_bytes(), n),
        Place::Parked(_) => index.add(alloc, &[], n),
    }
}

// Takes a number from under the number that an ask's editor has.
fn remove_number(index: &mut Index, ask: &Ask, n: u64)
    ensures { Changes (number_key ask.now) (without_number n) index.old index.new }
{
    match &ask.place {
        Place::Asked(seat) => index.remove(&seat.number.to_be_bytes(), n),
        Place::Parked(_) => index.remove(&[], n),
    }
}

// Puts a number under an ask's editor.
fn add_editor(alloc: Global, index: &mut Index, ask: &Ask, n: u64) -> Result<(), Memory>
    ensures ok { OnOk result (Changes (editor_key ask.now) (with_number n) index.old index.new) }
    ensures err { OnErr result (Same index.old index.new) }
{
    match &ask.place {
        Place::Asked(seat) => index.add(alloc, &seat.editor.to_be_bytes(), n),
        Place::Parked(_) => index.add(alloc, &[], n),
    }
}

// Takes a number from under an ask's editor.
fn remove_editor(index: &mut Index, ask: &Ask, n: u64)
    ensures { Changes (editor_key ask.now) (without_number n) index.old index.new }
{
    match &ask.place {
        Place::Asked(seat) => index.remove(&seat.editor.to_be_bytes(), n),
        Place::Parked(_) => index.remove(&[], n),
    }
}

impl Numbers {
    /// No numbers. It takes no memory.
    pub fn new(alloc: Global) -> Numbers
        ensures ids { result.by_id ≡ [] }
        ensures numbers { result.by_number ≡ [] }
        ensures editors { result.by_editor ≡ [] }
    {
        Numbers {
            by_id: Index::new(alloc),
            by_number: Index::new(alloc),
            by_editor: Index::new(alloc),
        }
    }

    /// The numbers of the asks whose ids have the fingerprint of this one.
    pub fn of_id(&self, id: &[u8]) -> Option<&BTreeSet<u64>>
        ensures { listed result ≡ numbers_under (print_key id.now) self.now.by_id }
    {
        self.by_id.get(&print_key(id))
    }

    /// The numbers of the asks that editors have under a number.
    pub fn of_number(&self, number: u128) -> Option<&BTreeSet<u64>>
        ensures { listed result ≡ numbers_under (to_be_bytes w128 number) self.now.by_number }
    {
        self.by_number.get(&number.to_be_bytes())
    }

    /// The numbers of an editor's asks; of None, those of the parked ones.
    pub fn of_holder(&self, holder: Option<u64>) -> Option<&BTreeSet<u64>>
        ensures { listed result ≡ numbers_under (holder_key holder) self.now.by_editor }
    {
        match holder {
            Some(editor) => self.by_editor.get(&editor.to_be_bytes()),
            None => self.by_editor.get(&[]),
        }
    }

    // A number comes into the first two.
    fn add_two(&mut self, alloc: Global, ask: &Ask, n: u64) -> Result<(), Memory>
        requires { AllByRecursion (λ m. m < n) (numbers_under (id_key ask.now) self.old.by_id) }
        ensures ids { OnOk result (Changes (id_key ask.now) (with_number n) self.old.by_id self.new.by_id) }
        ensures numbers { OnOk result (Changes (number_key ask.now) (with_number n) self.old.by_number self.new.by_number) }
        ensures editors { self.new.by_editor ≡ self.old.by_editor }
        ensures err_ids { OnErr result (Same self.old.by_id self.new.by_id) }
        ensures err_numbers { OnErr result (Same self.old.by_number self.new.by_number) }
    {
        add_id(alloc, &mut self.by_id, ask, n)?;
        match add_number(alloc, &mut self.by_number, ask, n) {
            Ok(()) => Ok(()),
            Err(refused) => {
                remove_id(&mut self.by_id, ask, n);
                Err(refused)
            }
        }
    }

    /// A number comes, which is above those under the ask's keys. Where memory runs out nothing changes.
    pub fn add(&mut self, alloc: Global, ask: &Ask, n: u64) -> Result<(), Memory>
        requires ids { AllByRecursion (λ m. m < n) (numbers_under (id_key ask.now) self.old.by_id) }
        requires numbers { AllByRecursion (λ m. m < n) (numbers_under (number_key ask.now) self.old.by_number) }
        ensures ids { OnOk result (Changes (id_key ask.now) (with_number n) self.old.by_id self.new.by_id) }
        ensures numbers { OnOk result (Changes (number_key ask.now) (with_number n) self.old.by_number self.new.by_number) }
        ensures editors { OnOk result (Changes (editor_key ask.now) (with_number n) self.old.by_editor self.new.by_editor) }
        ensures err_ids { OnErr result (Same self.old.by_id self.new.by_id) }
        ensures err_numbers { OnErr result (Same self.old.by_number self.new.by_number) }
        ensures err_editors { OnErr result (Same self.old.by_editor self.new.by_editor) }
    {
        self.add_two(alloc, ask, n)?;
        match add_editor(alloc, &mut self.by_editor, ask, n) {
            Ok(()) => Ok(()),
            Err(refused) => {
                remove_id(&mut self.by_id, ask, n);
                remove_number(&mut self.by_number, ask, n);
                Err(refused)
            }
        }
    }

    /// A number goes.
    pub fn remove(&mut self, ask: &Ask, n: u64)
        ensures ids { Changes (id_key ask.now) (without_number n) self.old.by_id self.new.by_id }
        ensures numbers { Changes (number_key ask.now) (without_number n) self.old.by_number self.new.by_number }
        ensures editors { Changes (editor_key ask.now) (without_number n) self.old.by_editor self.new.by_editor }
    {
        remove_id(&mut self.by_id, ask, n);
        remove_number(&mut self.by_number, ask, n);
        remove_editor(&mut self.by_editor, ask, n);
    }
}
