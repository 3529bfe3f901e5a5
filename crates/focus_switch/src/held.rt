//! What the ready start of a server has, of the documents that it was told of.
ghost use Rattle.std.specs.Prelude.{◌≡◌, [], OnOk};
ghost use Rattle.focus_switch.specs.Documents.{drop_held, held_of, helds_behind, put_held, version_held};

use message_body::Memory;
use std::alloc::Global;
use std::collections::BTreeMap;
use std::marker::Model;

/// A document that a start has.
#[derive(Clone, Copy, Debug)]
pub struct Held {
    /// The version that it has.
    pub version: u32,
    /// How many notifications on documents the start was sent, up to the last one on this document.
    pub sent: u128,
}

/// The documents that a start has, by their URIs. A look-up, an entry and a removal compare URIs as often as the logarithm of their number.
#[derive(Drop)]
pub struct Helds {
    table: BTreeMap<Vec<u8>, Held>,
}

impl Model for Helds {
    ghost use Rattle.std.specs.Prelude.{ℕ, List, map};
    ghost use Rattle.focus_switch.specs.declared.held.Held.{Held};

    ghost Value = { List (List ℕ × Held) };

    ghost view = { λ h. map (λ e. (e.0.items, e.1)) h.table.entries };
}

impl Helds {
    /// The start has no document. It takes no memory.
    pub fn new(alloc: Global) -> Helds
        ensures { result ≡ [] }
    {
        Helds {
            table: BTreeMap::new(alloc),
        }
    }

    /// Forgets all documents, as for a start that begins anew.
    pub fn clear(&mut self)
        ensures { self.new ≡ [] }
    {
        self.table.clear();
    }

    /// What the start has of a document, where it has it.
    pub fn get(&self, uri: &[u8]) -> Option<Held>
        ensures { result ≡ held_of uri.now self.now }
    {
        match self.table.get(uri) {
            Some(held) => Some(*held),
            None => None,
        }
    }

    /// The version that the start has of a document, where it has it.
    pub fn version(&self, uri: &[u8]) -> Option<u32>
        ensures { result ≡ version_held uri.now self.now }
    {
        match self.get(uri) {
            Some(held) => Some(held.version),
            None => None,
        }
    }

    // Keeps what the start has of a document, in place of what was kept of it.
    fn put(&mut self, alloc: Global, uri: &[u8], held: Held) -> Result<(), Memory>
        ensures { OnOk result (self.new ≡ put_held uri.now held self.old) }
    {
        let key = Vec::from_slice(alloc, uri)?;
        self.table.insert(key, held)?;
        Ok(())
    }

    // Forgets a document.
    fn remove(&mut self, uri: &[u8])
        ensures { self.new ≡ drop_held uri.now self.old }
    {
        let _gone = self.table.remove(uri);
    }

    /// The start was told of a document: it has this version of it, or none. So many notifications it was sent with this one.
    pub fn tell(
        &mut self,
        alloc: Global,
        uri: &[u8],
        version: Option<u32>,
        sent: u128,
    ) -> Result<(), Memory>
        ensures { OnOk result (self.new ≡ helds_behind uri.now version sent self.old) }
    {
        match version {
            Some(version) => self.put(alloc, uri, Held { version, sent }),
            None => {
                self.remove(uri);
                Ok(())
            }
        }
    }
}
