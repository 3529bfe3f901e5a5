//! The last lists of diagnostics of one start of a server: one behind the other, and an index of their numbers by URIs.
ghost use Rattle.std.specs.Prelude.{◌≡◌, [], None, Some, slice_get, length, option_copied, IfOk, OnOk};
ghost use Rattle.diagnostics_route.specs.Lists.{nonempty};
ghost use Rattle.diagnostics_route.specs.Rows.{first_of, number_for, number_in, with_list};

use crate::last_list::LastList;
use message_body::Memory;
use number_index::Index;
use std::alloc::Global;
use std::collections::BTreeSet;
use std::marker::Model;

/// The last lists of diagnostics of one start of a server, in the order in which their documents got the first one.
///
/// A document has the number of its place in that order, from 0. It keeps it, with its list, until the start is gone, also where that
/// list is empty.
///
/// A look-up by a URI compares URIs as often as the logarithm of how many documents have a list; one by a number costs the same
/// whatever is kept. Where a call answers `Memory` nothing is said of the table, which may only be dropped then.
#[derive(Drop)]
pub struct Lists {
    alloc: Global,
    lists: Vec<LastList>,
    index: Index,
}

impl Model for Lists {
    ghost use Rattle.std.specs.Prelude.{List};
    ghost use Rattle.diagnostics_route.specs.declared.last_list.LastList.{LastList};
    ghost use Rattle.diagnostics_route.specs.Rows.{Indexes};

    ghost Value = { List LastList };

    ghost view = { λ l. l.lists.items };

    ghost invariant = { λ l. Indexes l.lists.items l.index };
}

// The first of some numbers.
fn first_of(numbers: &BTreeSet<u64>) -> Option<u64>
    ensures { result ≡ first_of numbers.now.keys }
{
    for number in numbers {
        return Some(*number);
    }
    None
}

// The numbers of the lists that aren't empty.
fn nonempty_in(alloc: Global, lists: &[LastList]) -> Result<Vec<u64>, Memory>
    ensures { IfOk result (λ numbers. numbers.items ≡ nonempty lists.now) }
{
    let mut numbers = Vec::new(alloc);
    for number in 0..lists.len() {
        if !lists[number].empty {
            numbers.push(number as u64)?;
        }
    }
    Ok(numbers)
}

impl Lists {
    /// No lists. It takes no memory.
    pub fn new(alloc: Global) -> Lists
        ensures { result ≡ [] }
    {
        Lists {
            alloc,
            lists: Vec::new(alloc),
            index: Index::new(alloc),
        }
    }

    /// X2: how many documents have a list. It takes no memory.
    pub fn count(&self) -> u64
        ensures { result ≡ length self.now }
    {
        self.lists.len() as u64
    }

    /// E12: the number of the document of a URI, where it has a list. It takes no memory.
    pub fn number_of(&self, uri: &[u8]) -> Option<u64>
        ensures { result ≡ number_in uri.now self.now }
    {
        match self.index.get(uri) {
            Some(numbers) => first_of(numbers),
            None => None,
        }
    }

    /// The last list of the document of a number. It takes no memory.
    pub fn get(&self, number: u64) -> Option<&LastList>
        ensures { option_copied result ≡ slice_get self.now number }
    {
        self.lists.get(number as usize)
    }

    // A list comes in the place of its document's.
    fn replace(&mut self, number: u64, list: LastList)
        requires { number_in list.uri self.old ≡ Some number }
        ensures { self.new ≡ with_list list self.old }
    {
        self.lists[number as usize] = list;
    }

    // The first list of a document comes. Where memory runs out nothing changes.
    fn push(&mut self, list: LastList) -> Result<u64, Memory>
        requires { number_in list.uri self.old ≡ None }
        ensures number { IfOk result (λ number. number ≡ length self.old) }
        ensures lists { OnOk result (self.new ≡ with_list list self.old) }
    {
        let number = self.lists.len() as u64;
        self.lists.reserve(1)?;
        self.index.add(self.alloc, list.uri.bytes(), number)?;
        self.lists.push_reserved(list);
        Ok(number)
    }

    /// S15: a list came. It is the last one of its document from now on, whose number is given: that of the document's list before, in
    /// whose place it comes, or the next one.
    pub fn take(&mut self, list: LastList) -> Result<u64, Memory>
        ensures number { IfOk result (λ number. number ≡ number_for list.uri self.old) }
        ensures lists { OnOk result (self.new ≡ with_list list self.old) }
    {
        match self.number_of(list.uri.bytes()) {
            Some(number) => {
                self.replace(number, list);
                Ok(number)
            }
            None => self.push(list),
        }
    }

    /// L2: the numbers of the documents whose last list isn't empty, rising.
    pub fn nonempty(&self) -> Result<Vec<u64>, Memory>
        ensures { IfOk result (λ numbers. numbers.items ≡ nonempty self.now) }
    {
        nonempty_in(self.alloc, &self.lists)
    }
}
