// A folder in memory.
ghost use Rattle.std.specs.Prelude.{◌≡◌, ℕ, ◌≤◌, List, length, IfOk, IsErrOf, IfSome, Option, Some, map, option_map, string_bytes};
ghost use Rattle.outside_io.specs.Files.{File, bytes_at, file_of};

use crate::folder::{Folder, FolderFault};

/// A folder whose files, each a path and its bytes, lie in memory.
///
/// A read of a path that no file has fails, and so does one of a file that is too long. Where no memory is left for the bytes, a read answers `Memory`.
#[derive(Drop)]
pub struct MemFolder {
    files: Vec<(String, Vec<u8>)>,
    faults: u64,
}

impl MemFolder {
    /// A folder of these files, each by its name and its bytes.
    pub fn new(files: Vec<(String, Vec<u8>)>) -> MemFolder
        ensures files { ⟦<MemFolder as Folder>⟧.files result ≡ Some (map file_of files.items) }
        ensures faults { ⟦<MemFolder as Folder>⟧.faults result ≡ 0 }
    {
        MemFolder { files, faults: 0 }
    }
}

// The bytes of the first file of that path.
fn find<'a>(files: &'a [(String, Vec<u8>)], path: &str) -> Option<&'a Vec<u8>>
    ensures { option_map (λ bytes. bytes.now.items) result ≡ bytes_at path.now (map file_of files.now) }
{
    for (name, bytes) in files {
        if name.as_str() == path {
            return Some(bytes);
        }
    }
    None
}

impl Folder for MemFolder {
    ghost files = { λ f. Some (map file_of f.files.items) };

    ghost faults = { λ f. f.faults };

    fn read(&mut self, path: &str, most: u64) -> Result<Vec<u8>, FolderFault> {
        match find(&self.files, path) {
            Some(bytes) if bytes.len() as u64 <= most => Ok(bytes.clone()?),
            _ => {
                self.faults = self.faults.saturating_add(1);
                Err(FolderFault::Failed)
            }
        }
    }
}
