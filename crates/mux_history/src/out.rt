// What the multiplexer says.
ghost use Rattle.std.specs.Prelude.{◌≡◌, IfOk};

use message_body::{Body, Memory};
use std::alloc::Global;

/// One order of the multiplexer.
#[derive(Debug, Drop)]
pub enum Out {
    /// This body goes to this editor.
    ToEditor(u64, Body),
    /// This body goes to this start.
    ToServer(u64, Body),
    /// This start of a server is to be run for this group.
    Spawn(u64, u64),
    /// This editor's link is to be ended.
    CloseEditor(u64),
    /// This start's program is to be ended.
    EndServer(u64),
}

impl Out {
    /// The same out, its body copied. The time is linear in the body.
    pub fn copy(&self, alloc: Global) -> Result<Out, Memory>
        ensures { IfOk result (λ out. out ≡ self.now) }
    {
        match self {
            Out::ToEditor(editor, body) => Ok(Out::ToEditor(*editor, body.copy(alloc)?)),
            Out::ToServer(start, body) => Ok(Out::ToServer(*start, body.copy(alloc)?)),
            Out::Spawn(start, group) => Ok(Out::Spawn(*start, *group)),
            Out::CloseEditor(editor) => Ok(Out::CloseEditor(*editor)),
            Out::EndServer(start) => Ok(Out::EndServer(*start)),
        }
    }
}
