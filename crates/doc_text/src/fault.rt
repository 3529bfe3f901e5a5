ghost use Rattle.std.specs.Prelude.{◌≡◌};
ghost use Rattle.doc_text.specs.declared.fault.ChangeFault.TheVariants as fault;

use message_body::Memory;
use std::alloc::{AllocError, AllocFailed};

/// Why changes were not made.
#[derive(Clone, Copy, Debug, PartialEq, Eq)]
pub enum ChangeFault {
    /// They are no list of changes (LSP 3.17, TextDocumentContentChangeEvent).
    BadShape,
    /// Out of memory.
    Memory,
}

impl From<Memory> for ChangeFault {
    ghost from_gives = { λ _ e. e ≡ fault.Memory };

    fn from(_: Memory) -> Self {
        ChangeFault::Memory
    }
}

impl From<AllocError> for ChangeFault {
    ghost from_gives = { λ _ e. e ≡ fault.Memory };

    fn from(_: AllocError) -> Self {
        ChangeFault::Memory
    }
}

impl<T: Drop> From<AllocFailed<T>> for ChangeFault {
    ghost from_gives = { λ _ e. e ≡ fault.Memory };

    fn from(_: AllocFailed<T>) -> Self {
        ChangeFault::Memory
    }
}
