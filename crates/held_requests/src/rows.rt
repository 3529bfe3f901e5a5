//! Waiting requests by numbers, which rise in the order in which they come: what is looked up, put and taken.
ghost use Rattle.std.specs.Prelude.{◌≡◌, ◌++◌, [], ◌∷◌, drop, filter, find, not, option_copied, slice_get, IfOk, OnErr, OnOk};
ghost use Rattle.std.specs.List.{list_any};
ghost use Rattle.std.specs.BTreeMap.{is_at};
ghost use Rattle.std.specs.Map.{remove_entry, values_of};
ghost use Rattle.std.specs.Ordering.{nat_cmp};
ghost use Rattle.numbered_rows.specs.Rows.{Rise, first_number, first_with, less, passes, row_at, rows_among};
ghost use Rattle.held_requests.specs.Tables.{bytes_most, fits, ids_of, is_of, is_under, of_editor, requests_most};
ghost use Rattle.number_index.specs.Numbers.{Changes, Same, listed, numbers_under, with_number, without_number};
ghost use Rattle.held_requests.specs.Rows.{editor_bytes, has_room};

use crate::request::{Request, is_of, is_under};
use message_body::{Body, Memory};
use number_index::Index;
use std::alloc::Global;
use std::collections::{BTreeMap, BTreeSet};
use std::marker::Model;

/// Requests by their numbers, and the index of these.
#[derive(Drop)]
pub struct Rows {
    alloc: Global,
    rows: BTreeMap<u64, Request>,
    next: u64,
    editors: Index,
}

impl Model for Rows {
    ghost use Rattle.held_requests.specs.Rows.{IsKept, Numbered};

    ghost Value = { Numbered };

    ghost view = { λ r. record { rows = r.rows.entries; next = r.next } };

    ghost invariant = { λ r. IsKept r.rows.entries r.next r.editors };
}

// The numbers of an editor's requests, where there are some.
fn numbers_of(index: &Index, editor: u64) -> Option<&BTreeSet<u64>>
    ensures { listed result ≡ numbers_under (editor_bytes editor) index.now }
{
    index.get(&editor.to_be_bytes())
}

// A request of an editor gets a number. Where memory runs out nothing changes.
fn add(alloc: Global, index: &mut Index, editor: u64, number: u64) -> Result<(), Memory>
    ensures ok { OnOk result (Changes (editor_bytes editor) (with_number number) index.old index.new) }
    ensures err { OnErr result (Same index.old index.new) }
{
    index.add(alloc, &editor.to_be_bytes(), number)
}

// A number of an editor's request goes.
fn remove(index: &mut Index, editor: u64, number: u64)
    ensures { Changes (editor_bytes editor) (without_number number) index.old index.new }
{
    index.remove(&editor.to_be_bytes(), number);
}

// Whether the request of a number is an editor's, under an id.
fn is_row_under(rows: &BTreeMap<u64, Request>, number: u64, editor: u64, id: &[u8]) -> bool
    ensures { result ≡ passes (is_under editor id.now) (row_at number rows.now.entries) }
{
    match rows.get(&number) {
        Some(request) => is_under(request, editor, id),
        None => false,
    }
}

// Whether the request of a number is an editor's.
fn is_row_of(rows: &BTreeMap<u64, Request>, number: u64, editor: u64) -> bool
    ensures { result ≡ passes (is_of editor) (row_at number rows.now.entries) }
{
    match rows.get(&number) {
        Some(request) => is_of(request, editor),
        None => false,
    }
}

// The first of these numbers whose request is an editor's, under an id.
fn first_under(
    rows: &BTreeMap<u64, Request>,
    numbers: &BTreeSet<u64>,
    editor: u64,
    id: &[u8],
) -> Option<u64>
    ensures { result ≡ first_number (is_under editor id.now) rows.now.entries numbers.now.keys }
{
    for number in numbers {
        if is_row_under(rows, *number, editor, id) {
            return Some(*number);
        }
    }
    None
}

// The first of these numbers whose request is an editor's.
fn first_of(rows: &BTreeMap<u64, Request>, numbers: &BTreeSet<u64>, editor: u64) -> Option<u64>
    ensures { result ≡ first_number (is_of editor) rows.now.entries numbers.now.keys }
{
    for number in numbers {
        if is_row_of(rows, *number, editor) {
            return Some(*number);
        }
    }
    None
}

// The ids of those of these numbers whose requests are an editor's.
fn all_ids(
    alloc: Global,
    rows: &BTreeMap<u64, Request>,
    numbers: &BTreeSet<u64>,
    editor: u64,
) -> Result<Vec<Body>, Memory>
    ensures { IfOk result (λ ids. ids.items ≡ ids_of (rows_among (is_of editor) rows.now.entries numbers.now.keys)) }
{
    let mut ids = Vec::new(alloc);
    for number in numbers {
        if let Some(request) = rows.get(number) {
            if is_of(request, editor) {
                ids.push(Body::new(Vec::from_slice(alloc, request.id.bytes())?))?;
            }
        }
    }
    Ok(ids)
}

// Whether one more request of an editor may wait, of so many bytes, beside those of these numbers that are its own.
fn room_among(
    rows: &BTreeMap<u64, Request>,
    numbers: &BTreeSet<u64>,
    editor: u64,
    bytes: usize,
) -> bool
    ensures { result ≡ has_room bytes requests_most bytes_most (rows_among (is_of editor) rows.now.entries numbers.now.keys) }
{
    let mut count: u32 = 256;
    let mut left: usize = 16_777_216;
    for number in numbers {
        if let Some(request) = rows.get(number) {
            if is_of(request, editor) {
                let length = request.body.bytes().len();
                if count == 0 || length > left {
                    return false;
                }
                count -= 1;
                left -= length;
            }
        }
    }
    count > 0 && bytes <= left
}

impl Rows {
    /// No requests. It takes no memory.
    pub fn new(alloc: Global) -> Rows
        ensures { result.rows ≡ [] }
    {
        Rows {
            alloc,
            rows: BTreeMap::new(alloc),
            next: 0,
            editors: Index::new(alloc),
        }
    }

    // The number of the first request of an editor under an id.
    fn under(&self, editor: u64, id: &[u8]) -> Option<u64>
        ensures first { result ≡ first_with (is_under editor id.now) self.now.rows }
        ensures rise { Rise 0 self.now.next self.now.rows }
    {
        match numbers_of(&self.editors, editor) {
            Some(numbers) => first_under(&self.rows, numbers, editor, id),
            None => None,
        }
    }

    // The number of an editor's first request.
    fn first(&self, editor: u64) -> Option<u64>
        ensures first { result ≡ first_with (is_of editor) self.now.rows }
        ensures rise { Rise 0 self.now.next self.now.rows }
    {
        match numbers_of(&self.editors, editor) {
            Some(numbers) => first_of(&self.rows, numbers, editor),
            None => None,
        }
    }

    /// The first request.
    pub fn first_request(&self) -> Option<&Request>
        ensures { option_copied result ≡ slice_get (values_of self.now.rows) 0 }
    {
        let (_, request) = self.rows.first_key_value()?;
        Some(request)
    }

    /// The first request of an editor under an id.
    pub fn find(&self, editor: u64, id: &[u8]) -> Option<&Request>
        ensures { option_copied result ≡ find (is_under editor id.now) (values_of self.now.rows) }
    {
        match self.under(editor, id) {
            Some(number) => self.rows.get(&number),
            None => None,
        }
    }

    /// The ids of an editor's requests.
    pub fn ids_of(&self, editor: u64) -> Result<Vec<Body>, Memory>
        ensures { IfOk result (λ ids. ids.items ≡ ids_of (of_editor editor (values_of self.now.rows))) }
    {
        match numbers_of(&self.editors, editor) {
            Some(numbers) => all_ids(self.alloc, &self.rows, numbers, editor),
            None => Ok(Vec::new(self.alloc)),
        }
    }

    /// Whether one more request of an editor may wait, of so many bytes.
    pub fn has_room(&self, editor: u64, bytes: usize) -> bool
        ensures { result ≡ fits bytes (of_editor editor (values_of self.now.rows)) }
    {
        match numbers_of(&self.editors, editor) {
            Some(numbers) => room_among(&self.rows, numbers, editor, bytes),
            None => bytes <= 16_777_216,
        }
    }

    /// A request comes, behind all others. Where memory runs out nothing changes.
    pub fn push(&mut self, request: Request) -> Result<(), Memory>
        ensures ok { OnOk result (self.new.rows ≡ self.old.rows ++ (self.old.next, request) ∷ []) }
        ensures err { OnErr result (self.new ≡ self.old) }
    {
        let number = self.next;
        let Some(next) = number.checked_add(1) else {
            return Err(Memory);
        };
        let editor = request.editor;
        add(self.alloc, &mut self.editors, editor, number)?;
        match self.rows.insert(number, request) {
            Ok(_) => {
                self.next = next;
                Ok(())
            }
            Err(_) => {
                remove(&mut self.editors, editor, number);
                Err(Memory)
            }
        }
    }

    // The request of a number is taken out.
    fn take(&mut self, number: u64) -> Option<Request>
        ensures value { result ≡ row_at number self.old.rows }
        ensures rows { self.new.rows ≡ remove_entry (is_at (nat_cmp number)) self.old.rows }
        ensures next { self.new.next ≡ self.old.next }
        ensures rise { Rise 0 self.new.next self.new.rows }
    {
        let request = self.rows.remove(&number)?;
        remove(&mut self.editors, request.editor, number);
        Some(request)
    }

    /// The first request is taken out.
    pub fn take_first(&mut self) -> Option<Request>
        ensures request { result ≡ slice_get (values_of self.old.rows) 0 }
        ensures left { values_of self.new.rows ≡ drop 1 (values_of self.old.rows) }
    {
        let (number, request) = self.rows.pop_first()?;
        remove(&mut self.editors, request.editor, number);
        Some(request)
    }

    /// The first request of an editor under an id is taken out; it says whether there was one.
    pub fn take_under(&mut self, editor: u64, id: &[u8]) -> bool
        ensures found { result ≡ list_any (is_under editor id.now) (values_of self.old.rows) }
        ensures left { values_of self.new.rows ≡ less (is_under editor id.now) (values_of self.old.rows) }
    {
        match self.under(editor, id) {
            Some(number) => {
                let _request = self.take(number);
                true
            }
            None => false,
        }
    }

    /// An editor's requests are taken out.
    pub fn take_all(&mut self, editor: u64)
        ensures { values_of self.new.rows ≡ filter (λ r. not (is_of editor r)) (values_of self.old.rows) }
    {
        while let Some(number) = self.first(editor) {
            let _request = self.take(number);
        }
    }
}
