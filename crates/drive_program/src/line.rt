// The lines of a source.
ghost use Rattle.std.specs.Prelude.{◌≡◌, ℕ, ◌^◌, ◌<◌, ◌≤◌, List, [], ◌∷◌, true, false, IfOk, IfErr, IfSome, IfNone, IsErrOf, Some, None, Option};
ghost use Rattle.outside_io.specs.Faults.{Rose};
ghost use Rattle.drive_program.specs.Buffers.{BrokeOff, Came, FirstTooLong, known_lines, onto_known};
ghost use Rattle.drive_program.specs.Lines.{Line, longest};

use crate::buffer::{Buffer, Piece, filled, take_piece};
use message_body::Memory;
use outside_io::{ReadFault, Source};
use std::alloc::Global;

/// Why no line came.
#[derive(Clone, Copy, Debug, PartialEq, Eq)]
pub enum LineStop {
    /// Memory was wanted.
    Memory,
    /// A read failed.
    Input,
    /// The line is too long to be in a form, or in it the input passes its limit.
    Passed,
}

impl From<Memory> for LineStop {
    ghost use Rattle.std.specs.Prelude.{◌≡◌};
    ghost use Rattle.drive_program.specs.declared.line.LineStop.TheVariants as line_stop;

    ghost from_gives = { λ _ e. e ≡ line_stop.Memory };

    fn from(_: Memory) -> Self {
        LineStop::Memory
    }
}

impl From<ReadFault> for LineStop {
    ghost use Rattle.std.specs.Prelude.{◌≡◌};
    ghost use Rattle.drive_program.specs.declared.line.LineStop.TheVariants as line_stop;

    ghost from_gives = { λ _ e. e ≡ line_stop.Input };

    fn from(_: ReadFault) -> Self {
        LineStop::Input
    }
}

// The most bytes of a line in a form with a body of at most so many bytes: two letters, a number of 20 digits, two spaces, and two
// bytes for each of the body.
fn longest(content: u32) -> u64
    ensures { result ≡ longest content }
{
    24 + 2 * content as u64
}

/// A line of the input, without its line feed.
#[derive(Debug, Drop)]
pub struct InputLine {
    pub bytes: Vec<u8>,
    /// The end of the input ended it, and not a line feed.
    pub is_last: bool,
}

// What the end of the input leaves of the line that has begun.
fn last_line(bytes: Vec<u8>) -> Option<InputLine>
    ensures some { IfSome result (λ last. (last.bytes.items ≡ bytes.items) × (last.bytes.items ≡ [] → ⊥)) }
    ensures is_last { IfSome result (λ last. last.is_last ≡ true) }
    ensures none { IfNone result (bytes.items ≡ []) }
{
    if bytes.is_empty() {
        return None;
    }
    Some(InputLine {
        bytes,
        is_last: true,
    })
}

/// The next line of the input, without its line feed, or none at the end. A body has at most `content` bytes.
///
/// Of a line that is too long to be in a form no more is kept than a read brings behind that length.
#[tactic(auto, using(crate::proofs::Consumes::came_on, crate::proofs::Consumes::broken_off, crate::proofs::Longest::long_begun, crate::proofs::Longest::passes_long))]
pub fn next_line<I: Source>(
    alloc: Global,
    input: &mut I,
    buffer: &mut Buffer,
    content: u32,
) -> Result<Option<InputLine>, LineStop>
    requires small { buffer.old.used ≤ 2 ^ 40 }
    ensures line { IfOk result (λ r. IfSome r (λ line. known_lines buffer.old (I.left input.old)
        ≡ onto_known (record { bytes = line.bytes.items; upto = buffer.new.used }) (known_lines buffer.new (I.left input.new)))) }
    ensures end { IfOk result (λ r. IfNone r (IfSome (known_lines buffer.old (I.left input.old)) (λ lines. lines ≡ []))) }
    ensures came { IfOk result (λ r. IfSome r (λ line. line.is_last ≡ false
        → Came (10 ∷ []) line.bytes.items buffer.old buffer.new (I.left input.old) (I.left input.new))) }
    ensures last { IfOk result (λ r. IfSome r (λ line. line.is_last ≡ true → IfSome (known_lines buffer.new (I.left input.new)) (λ lines. lines ≡ []))) }
    ensures last_left { IfOk result (λ r. IfSome r (λ line. line.is_last ≡ true → IfSome (I.left input.new) (λ bytes. bytes ≡ []))) }
    ensures left { IfOk result (λ r. IfNone r (IfSome (I.left input.new) (λ bytes. bytes ≡ []))) }
    ensures used { IfOk result (λ r. IfSome r (λ line. buffer.old.used < buffer.new.used)) }
    ensures small { IfOk result (λ r. IfSome r (λ line. buffer.new.used ≤ 2 ^ 40)) }
    ensures passed { IsErrOf result LineStop.Passed → IfSome (known_lines buffer.old (I.left input.old)) (FirstTooLong content) }
    ensures broke_off { IsErrOf result LineStop.Input → BrokeOff buffer.old (I.left input.old) (I.left input.new) }
    ensures failed { IsErrOf result LineStop.Input → Rose (I.faults input.old) (I.faults input.new) }
    ensures later { I.faults input.old ≤ I.faults input.new }
{
    let mut line = Vec::new(alloc);
    'pieces: loop {
        if !filled(input, buffer)? {
            return Ok(last_line(line));
        }
        match take_piece(buffer, &mut line)? {
            Piece::Whole => return Ok(Some(InputLine {
                bytes: line,
                is_last: false,
            })),
            Piece::Part => {
                if line.len() as u64 > longest(content) {
                    return Err(LineStop::Passed);
                }
            }
            Piece::Passed => return Err(LineStop::Passed),
        }
    }
}
