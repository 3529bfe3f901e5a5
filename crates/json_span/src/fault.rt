ghost use Rattle.std.specs.Prelude.{◌≡◌};
ghost use Rattle.json_span.specs.declared.fault.JsonFault.TheVariants.{Memory};

use std::alloc::{AllocError, AllocFailed};

/// Why bytes were not read as a JSON text.
#[derive(Clone, Copy, Debug, PartialEq, Eq)]
pub enum JsonFault {
    /// They are no JSON text (RFC 8259): the longest front of them that begins one has this length.
    Syntax(usize),
    /// The bracket at this place would be one too many open at once.
    TooDeep(usize),
    /// Out of memory.
    Memory,
}

impl From<AllocError> for JsonFault {
    ghost from_gives = { λ _ e. e ≡ Memory };

    fn from(_: AllocError) -> Self {
        JsonFault::Memory
    }
}

impl<T: Drop> From<AllocFailed<T>> for JsonFault {
    ghost from_gives = { λ _ e. e ≡ Memory };

    fn from(_: AllocFailed<T>) -> Self {
        JsonFault::Memory
    }
}
