//! Why an answer over capabilities fails.
ghost use Rattle.std.specs.Prelude.{◌≤◌, length};
ghost use Rattle.capability_meet.specs.Answers.{Reads};

use json_span::{JsonFault, Tape};
use message_body::Memory;
use std::alloc::Global;

/// Why an answer over capabilities fails.
#[derive(Clone, Copy, Debug, PartialEq, Eq)]
pub enum CapFault {
    /// The bytes are no JSON text (RFC 8259) that nests at most 1,024 deep.
    NotJson,
    /// Out of memory.
    Memory,
}

impl From<Memory> for CapFault {
    ghost use Rattle.std.specs.Prelude.{◌≡◌};
    ghost use Rattle.capability_meet.specs.declared.fault.CapFault.TheVariants as fault;

    ghost from_gives = { λ _ e. e ≡ fault.Memory };

    fn from(_: Memory) -> Self {
        CapFault::Memory
    }
}

// Reads bytes as a JSON text.
pub fn read<'a>(alloc: Global, bytes: &'a [u8]) -> Result<Tape<'a>, CapFault>
    requires { length bytes.now ≤ 268435456 }
    ensures { Reads result bytes.now }
{
    match Tape::read(alloc, bytes) {
        Ok(tape) => Ok(tape),
        Err(JsonFault::Memory) => Err(CapFault::Memory),
        Err(JsonFault::Syntax(_)) => Err(CapFault::NotJson),
        Err(JsonFault::TooDeep(_)) => Err(CapFault::NotJson),
    }
}
