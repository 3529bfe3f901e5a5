// What the multiplexer is told.
ghost use Rattle.std.specs.Prelude.{◌≡◌, IfOk};

use message_body::{Body, Memory};
use std::alloc::Global;

/// Why an editor's link ended.
#[derive(Clone, Copy, Debug, PartialEq, Eq)]
pub enum Why {
    /// The link's bytes ended.
    End,
    /// A read failed.
    ReadFault,
    /// A write failed.
    WriteFault,
    /// The bytes were no frames (LSP 3.17, Base Protocol).
    BadFrame,
}

/// One event of the multiplexer. Editors and starts of servers are numbered from 0, in the order in which they joined
/// and were spawned.
#[derive(Debug, Drop)]
pub enum Cause {
    /// This editor's link was accepted.
    Joined(u64),
    /// A body came from this editor.
    FromEditor(u64, Body),
    /// This editor's link ended.
    EditorGone(u64, Why),
    /// This start's program runs.
    Started(u64),
    /// This start's program couldn't be run.
    StartFailed(u64),
    /// A body came from this start.
    FromServer(u64, Body),
    /// This start's program ended.
    ServerGone(u64),
    /// So many bytes of bodies to this editor were written.
    Drained(u64, u64),
    /// It is this many seconds past some moment.
    Tick(u64),
}

impl Cause {
    /// The same cause, its body copied. The time is linear in the body.
    pub fn copy(&self, alloc: Global) -> Result<Cause, Memory>
        ensures { IfOk result (λ cause. cause ≡ self.now) }
    {
        match self {
            Cause::Joined(editor) => Ok(Cause::Joined(*editor)),
            Cause::FromEditor(editor, body) => Ok(Cause::FromEditor(*editor, body.copy(alloc)?)),
            Cause::EditorGone(editor, why) => Ok(Cause::EditorGone(*editor, *why)),
            Cause::Started(start) => Ok(Cause::Started(*start)),
            Cause::StartFailed(start) => Ok(Cause::StartFailed(*start)),
            Cause::FromServer(start, body) => Ok(Cause::FromServer(*start, body.copy(alloc)?)),
            Cause::ServerGone(start) => Ok(Cause::ServerGone(*start)),
            Cause::Drained(editor, bytes) => Ok(Cause::Drained(*editor, *bytes)),
            Cause::Tick(time) => Ok(Cause::Tick(*time)),
        }
    }
}
