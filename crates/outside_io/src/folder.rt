// A folder of files.
ghost use Rattle.std.specs.Prelude.{◌≡◌, ℕ, ◌≤◌, List, length, IfOk, IsErrOf, IfSome, Option, Some};
ghost use Rattle.outside_io.specs.Faults.{Rose};
ghost use Rattle.outside_io.specs.Files.{File, bytes_at};

use std::alloc::AllocError;

/// A read that gave no file: the outside failed, or memory was wanted.
#[derive(Clone, Copy, Debug, PartialEq, Eq)]
pub enum FolderFault {
    Failed,
    Memory,
}

impl From<AllocError> for FolderFault {
    ghost use Rattle.std.specs.Prelude.{◌≡◌};
    ghost use Rattle.outside_io.specs.declared.folder.FolderFault.TheVariants.{Memory};

    ghost from_gives = { λ _ fault. fault ≡ Memory };

    fn from(_: AllocError) -> FolderFault {
        FolderFault::Memory
    }
}

/// Where files are read.
///
/// A folder may tell its files. Its count of faults never falls; it stands still at 2^64 - 1.
pub trait Folder {
    /// The files, where they are told.
    ghost files: { Self → Option (List File) };

    /// How many reads failed.
    ghost faults: { Self → ℕ };

    /// The bytes of the first file of that path, at most `most`. A longer file is a failed read. `Failed` comes only where
    /// the count rose.
    fn read(&mut self, path: &str, most: u64) -> Result<Vec<u8>, FolderFault>
        ensures most { IfOk result (λ bytes. length bytes.items ≤ most) }
        ensures bytes { IfOk result (λ bytes. IfSome (files self.old) (λ files. bytes_at path.now files ≡ Some bytes.items)) }
        ensures files { files self.new ≡ files self.old }
        ensures failed { IsErrOf result FolderFault.Failed → Rose (faults self.old) (faults self.new) }
        ensures later { faults self.old ≤ faults self.new };

    /// Words on the last read that failed, for notes alone; empty where there are none.
    fn reason(&self) -> &str {
        ""
    }
}
