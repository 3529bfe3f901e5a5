// A line, and what it tells a core.
ghost use Rattle.std.specs.Prelude.{◌≡◌, ℕ, ◌≤◌, List, Some, None, false, IsTrue, IsSome, IfOk, IfSome, IsErrOf};
ghost use Rattle.mux_history.specs.Cores.{body_length};
ghost use Rattle.mux_history.specs.declared.cause.Cause.{Cause};
ghost use Rattle.mux_history.specs.declared.entry.Entry.{Entry};
ghost use Rattle.drive_text.specs.Forms.{within, cause_within, IsRefused};

use crate::read::cause_of;
use message_body::Memory;
use mux_history::Cause;
use mux_steps::Steps;
use std::alloc::Global;

/// Why a line gave no cause.
#[derive(Clone, Copy, Debug, PartialEq, Eq)]
pub enum LineFault {
    /// It is in no form, or its body is too long.
    Form,
    /// Its cause can't come now.
    Absent,
    /// Memory was wanted.
    Memory,
}

impl From<Memory> for LineFault {
    ghost use Rattle.std.specs.Prelude.{◌≡◌};
    ghost use Rattle.drive_text.specs.declared.line.LineFault.TheVariants as line_fault;

    ghost from_gives = { λ _ e. e ≡ line_fault.Memory };

    fn from(_: Memory) -> Self {
        LineFault::Memory
    }
}

// How long the body of a cause is.
fn body_length(cause: &Cause) -> usize
    ensures { result ≡ body_length cause.now }
{
    match cause {
        Cause::FromEditor(_, body) | Cause::FromServer(_, body) => body.bytes().len(),
        _ => 0,
    }
}

// The cause, if its body is no longer than `content`.
fn within(cause: Cause, content: u32) -> Option<Cause>
    ensures { result ≡ within content cause }
{
    if body_length(&cause) > content as usize {
        return None;
    }
    Some(cause)
}

/// The cause that a line writes, without its line feed; none where it is in no form, or its body has more than
/// `content` bytes. The time is linear in the line.
pub fn cause_of_line(alloc: Global, line: &[u8], content: u32) -> Result<Option<Cause>, Memory>
    ensures cause { IfOk result (λ cause. cause ≡ cause_within content line.now) }
    ensures small { IfOk result (λ cause. IfSome cause (λ c. body_length c ≤ content)) }
{
    let Some(cause) = cause_of(alloc, line)? else {
        return Ok(None);
    };
    Ok(within(cause, content))
}

/// The cause that a line tells this core, without its line feed.
///
/// `Form` is a line in no form, or one whose body has more than `content` bytes; `Absent` one whose cause can't come
/// now. The time is linear in the line, beside that of `Steps::fits`.
pub fn read_line<K: Steps>(
    alloc: Global,
    line: &[u8],
    content: u32,
    core: &K,
) -> Result<Cause, LineFault>
    ensures cause { IfOk result (λ cause. cause_within content line.now ≡ Some cause) }
    ensures allowed { (history : List Entry) → K.stands core.now history → K.spent core.now ≡ false → IfOk result (λ cause. IsTrue (K.allows history cause)) }
    ensures form { IsErrOf result LineFault.Form → cause_within content line.now ≡ None }
    ensures in_form { IsErrOf result LineFault.Absent → IsSome (cause_within content line.now) }
    ensures absent { (history : List Entry) → K.stands core.now history → K.spent core.now ≡ false → IsErrOf result LineFault.Absent
        → IsRefused (K.allows history) (cause_within content line.now) }
{
    let Some(cause) = cause_of_line(alloc, line, content)? else {
        return Err(LineFault::Form);
    };
    if !core.fits(&cause) {
        return Err(LineFault::Absent);
    }
    Ok(cause)
}
