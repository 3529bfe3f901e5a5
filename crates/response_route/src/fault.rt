ghost use Rattle.std.specs.Prelude.{◌≡◌};
ghost use Rattle.response_route.specs.declared.fault.EditFault.TheVariants as fault;

use message_body::Memory;
use std::alloc::{AllocError, AllocFailed};

/// Why versions were not put in place.
#[derive(Clone, Copy, Debug, PartialEq, Eq)]
pub enum EditFault {
    /// One stands for no text that the editor has (LSP 3.17, ContentModified).
    Modified,
    /// Out of memory.
    Memory,
}

impl From<Memory> for EditFault {
    ghost from_gives = { λ _ e. e ≡ fault.Memory };

    fn from(_: Memory) -> Self {
        EditFault::Memory
    }
}

impl From<AllocError> for EditFault {
    ghost from_gives = { λ _ e. e ≡ fault.Memory };

    fn from(_: AllocError) -> Self {
        EditFault::Memory
    }
}

impl<T: Drop> From<AllocFailed<T>> for EditFault {
    ghost from_gives = { λ _ e. e ≡ fault.Memory };

    fn from(_: AllocFailed<T>) -> Self {
        EditFault::Memory
    }
}
