//! The numbers of documents, by their URIs and by their editors.
ghost use Rattle.std.specs.Prelude.{◌≡◌, ◌<◌, [], OnErr, OnOk};
ghost use Rattle.std.specs.Int.{to_be_bytes, w64};
ghost use Rattle.std.specs.List.{AllByRecursion};
ghost use Rattle.number_index.specs.Numbers.{Changes, Same, listed, numbers_under, with_number, without_number};

use message_body::Memory;
use number_index::Index;
use std::alloc::Global;
use std::collections::BTreeSet;

/// The numbers of documents, by their URIs, and by the eight bytes of their editors.
#[derive(Drop)]
pub struct Numbers {
    pub by_uri: Index,
    pub by_editor: Index,
}

impl Numbers {
    /// No numbers. It takes no memory.
    pub fn new(alloc: Global) -> Numbers
        ensures uris { result.by_uri ≡ [] }
        ensures editors { result.by_editor ≡ [] }
    {
        Numbers {
            by_uri: Index::new(alloc),
            by_editor: Index::new(alloc),
        }
    }

    /// The numbers of the documents under a URI.
    pub fn of_uri(&self, uri: &[u8]) -> Option<&BTreeSet<u64>>
        ensures { listed result ≡ numbers_under uri.now self.now.by_uri }
    {
        self.by_uri.get(uri)
    }

    /// The numbers of an editor's documents.
    pub fn of_editor(&self, editor: u64) -> Option<&BTreeSet<u64>>
        ensures { listed result ≡ numbers_under (to_be_bytes w64 editor) self.now.by_editor }
    {
        self.by_editor.get(&editor.to_be_bytes())
    }

    /// A number comes, which is above those of its document's URI. Where memory runs out nothing changes.
    pub fn add(&mut self, alloc: Global, uri: &[u8], editor: u64, number: u64) -> Result<(), Memory>
        requires { AllByRecursion (λ m. m < number) (numbers_under uri.now self.old.by_uri) }
        ensures uris { OnOk result (Changes uri.now (with_number number) self.old.by_uri self.new.by_uri) }
        ensures editors { OnOk result (Changes (to_be_bytes w64 editor) (with_number number) self.old.by_editor self.new.by_editor) }
        ensures err_uris { OnErr result (Same self.old.by_uri self.new.by_uri) }
        ensures err_editors { OnErr result (Same self.old.by_editor self.new.by_editor) }
    {
        self.by_uri.add(alloc, uri, number)?;
        match self.by_editor.add(alloc, &editor.to_be_bytes(), number) {
            Ok(()) => Ok(()),
            Err(refused) => {
                self.by_uri.remove(uri, number);
                Err(refused)
            }
        }
    }

    /// A number goes.
    pub fn remove(&mut self, uri: &[u8], editor: u64, number: u64)
        ensures uris { Changes uri.now (without_number number) self.old.by_uri self.new.by_uri }
        ensures editors { Changes (to_be_bytes w64 editor) (without_number number) self.old.by_editor self.new.by_editor }
    {
        self.by_uri.remove(uri, number);
        self.by_editor.remove(&editor.to_be_bytes(), number);
    }
}
