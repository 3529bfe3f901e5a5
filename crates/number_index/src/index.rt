// Numbers by keys of bytes.
ghost use Rattle.std.specs.Prelude.{◌≡◌, true, [], OnErr, OnOk};
ghost use Rattle.number_index.specs.Numbers.{Changes, Same, listed, numbers_under, with_number, without_number};

use message_body::Memory;
use std::alloc::Global;
use std::collections::{BTreeMap, BTreeSet};
use std::marker::Model;

/// Numbers by keys of bytes, those of each key in rising order. A key without a number isn't kept.
///
/// A call compares keys as often as the logarithm of how many there are, and numbers as often as that of how many stand under its key.
#[derive(Drop)]
pub struct Index {
    table: BTreeMap<Vec<u8>, BTreeSet<u64>>,
}

impl Model for Index {
    ghost use Rattle.std.specs.Prelude.{ℕ, List, map};

    ghost Value = { List (List ℕ × List ℕ) };

    ghost view = { λ i. map (λ e. (e.0.items, e.1.keys)) i.table.entries };
}

impl Index {
    /// No numbers. It takes no memory.
    pub fn new(alloc: Global) -> Index
        ensures { result ≡ [] }
    {
        Index {
            table: BTreeMap::new(alloc),
        }
    }

    /// The numbers under a key, where there are some.
    pub fn get(&self, key: &[u8]) -> Option<&BTreeSet<u64>>
        ensures { listed result ≡ numbers_under key.now self.now }
    {
        self.table.get(key)
    }

    /// Puts a number under a key. Where memory runs out nothing changes.
    pub fn add(&mut self, alloc: Global, key: &[u8], number: u64) -> Result<(), Memory>
        ensures ok { OnOk result (Changes key.now (with_number number) self.old self.new) }
        ensures err { OnErr result (Same self.old self.new) }
    {
        match self.table.get_mut(key) {
            Some(numbers) => {
                numbers.insert(number)?;
                Ok(())
            }
            None => self.begin(alloc, key, number),
        }
    }

    // Puts the first number under a key.
    fn begin(&mut self, alloc: Global, key: &[u8], number: u64) -> Result<(), Memory>
        requires { numbers_under key.now self.old ≡ [] }
        ensures ok { OnOk result (Changes key.now (with_number number) self.old self.new) }
        ensures err { OnErr result (Same self.old self.new) }
    {
        let mut numbers = BTreeSet::new(alloc);
        numbers.insert(number)?;
        let key = Vec::from_slice(alloc, key)?;
        self.table.insert(key, numbers)?;
        Ok(())
    }

    /// Takes a number from under a key.
    pub fn remove(&mut self, key: &[u8], number: u64)
        ensures { Changes key.now (without_number number) self.old self.new }
    {
        if self.take(key, number) {
            self.forget(key);
        }
    }

    // Takes a number from under a key, and says whether none is left there.
    fn take(&mut self, key: &[u8], number: u64) -> bool
        ensures taken { Changes key.now (without_number number) self.old self.new }
        ensures none { result ≡ true → numbers_under key.now self.new ≡ [] }
    {
        let Some(numbers) = self.table.get_mut(key) else {
            return true;
        };
        let _was = numbers.remove(&number);
        numbers.is_empty()
    }

    // Forgets a key under which nothing stands.
    fn forget(&mut self, key: &[u8])
        requires { numbers_under key.now self.old ≡ [] }
        ensures { Same self.old self.new }
    {
        let _gone = self.table.remove(key);
    }
}
