// One step of the multiplexer: what it was told, and what it said.
ghost use Rattle.std.specs.Prelude.{◌≡◌, IfOk};

use crate::cause::Cause;
use crate::outs::Outs;
use message_body::Memory;
use std::alloc::Global;

/// A cause and its outs. The list of the entries is the history.
#[derive(Debug, Drop)]
pub struct Entry {
    pub cause: Cause,
    pub outs: Outs,
}

impl Entry {
    /// The same entry, its bodies copied. The time is linear in all of them.
    pub fn copy(&self, alloc: Global) -> Result<Entry, Memory>
        ensures { IfOk result (λ entry. entry ≡ self.now) }
    {
        Ok(Entry {
            cause: self.cause.copy(alloc)?,
            outs: self.outs.copy(alloc)?,
        })
    }
}
