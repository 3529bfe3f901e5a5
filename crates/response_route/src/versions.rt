//! The versions of what an editor has open, as it knows them and as the ready start does (LSP 3.17, VersionedTextDocumentIdentifier).
ghost use Rattle.std.specs.Prelude.{◌≡◌, ℕ, List, [], Some, bytes_eq, option_copied, if◌then◌else◌, OnOk};
ghost use Rattle.response_route.specs.Versions.{stamp_of};

use message_body::{Body, Memory};
use std::alloc::Global;
use std::collections::BTreeMap;
use std::marker::Model;

/// The versions of one document.
#[derive(Debug, Drop)]
pub struct Stamp {
    /// The start's, where it has the document; of versions that count now, only where it has it as the editor does.
    pub held: Option<u32>,
    /// The editor's, as it gave it.
    pub version: Body,
}

/// The versions of the documents that are open at an editor, by the bytes of their URIs. A look-up compares URIs as often as the
/// logarithm of their number.
#[derive(Drop)]
pub struct Versions {
    table: BTreeMap<Vec<u8>, Stamp>,
}

impl Model for Versions {
    ghost use Rattle.std.specs.Prelude.{ℕ, List, map};
    ghost use Rattle.response_route.specs.declared.versions.Stamp.{Stamp};

    ghost Value = { List (List ℕ × Stamp) };

    ghost view = { λ v. map (λ e. (e.0.items, e.1)) v.table.entries };
}

impl Versions {
    /// Of no document. It takes no memory.
    pub fn new(alloc: Global) -> Versions
        ensures { result ≡ [] }
    {
        Versions {
            table: BTreeMap::new(alloc),
        }
    }

    /// The versions of a document, where it is open.
    pub fn get(&self, uri: &[u8]) -> Option<&Stamp>
        ensures { option_copied result ≡ stamp_of uri.now self.now }
    {
        self.table.get(uri)
    }

    /// The versions of a document are these from now on.
    pub fn put(&mut self, alloc: Global, uri: &[u8], stamp: Stamp) -> Result<(), Memory>
        ensures { OnOk result ((u : List ℕ) → stamp_of u self.new ≡ (if bytes_eq u uri.now then Some stamp else stamp_of u self.old)) }
    {
        let key = Vec::from_slice(alloc, uri)?;
        self.table.insert(key, stamp)?;
        Ok(())
    }
}
