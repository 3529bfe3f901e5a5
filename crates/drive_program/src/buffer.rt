// Bytes read ahead of their use.
ghost use Rattle.std.specs.Prelude.{◌≡◌, ℕ, ◌+◌, ◌-◌, ◌*◌, ◌^◌, ◌<◌, ◌≤◌, ◌↔◌, ◌≢◌, Option, List, [], ◌∷◌, length, take, drop, IfOk, OnOk, OnErr, IfSome, nat_eq, true, false};
ghost use Rattle.std.specs.Io.KnownBytes.{prepend_known};
ghost use Rattle.outside_io.specs.Faults.{HasCause};
ghost use Rattle.drive_program.specs.Buffers.{BufferView, Taken, Moved, FirstPasses, unused, known_lines, begun_lines, onto_known, line_feed};

use message_body::Memory;
use outside_io::{ReadFault, Source};
use std::alloc::Global;
use std::marker::Model;

// How much is asked of a source at once.
const ROOM: usize = 65536;

/// The most bytes of an input.
pub const LIMIT: u64 = 1 << 40;

/// Bytes that were read and not yet used, and a count of the used ones.
#[derive(Drop)]
pub struct Buffer {
    bytes: Vec<u8>,
    at: usize,
    to: usize,
    used: u64,
}

impl Model for Buffer {
    ghost use Rattle.std.specs.Prelude.{◌≡◌, ◌-◌, ◌≤◌, length, take, drop};
    ghost use Rattle.drive_program.specs.Buffers.{BufferView};

    ghost Value = { BufferView };

    ghost view = { λ b. record { pending = take (b.to - b.at) (drop b.at b.bytes.items); used = b.used } };

    ghost invariant = { λ b. (b.at ≤ b.to) × (b.to ≤ length b.bytes.items) × (length b.bytes.items ≡ 65536) };
}

impl Buffer {
    /// A buffer of 65,536 bytes with nothing pending and nothing used.
    pub fn new(alloc: Global) -> Result<Buffer, Memory>
        ensures { IfOk result (λ buffer. buffer ≡ record { pending = []; used = 0 }) }
    {
        Ok(Buffer {
            bytes: vec![in alloc; 0; ROOM]?,
            at: 0,
            to: 0,
            used: 0,
        })
    }

    /// Whether no byte is pending.
    pub fn is_empty(&self) -> bool
        ensures { result ≡ nat_eq (length self.now.pending) 0 }
    {
        self.at == self.to
    }

    /// Reads more, where nothing is left.
    pub fn fill<I: Source>(&mut self, input: &mut I) -> Result<(), ReadFault>
        requires { self.old.pending ≡ [] }
        ensures used { self.new.used ≡ self.old.used }
        ensures left { OnOk result (I.left input.old ≡ unused self.new (I.left input.new)) }
        ensures end { OnOk result (self.new.pending ≡ [] → IfSome (I.left input.new) (λ bytes. bytes ≡ [])) }
        ensures kept { OnErr result (I.left input.new ≡ I.left input.old) }
        ensures cause { HasCause (I.faults input.old) (I.faults input.new) result }
    {
        self.at = 0;
        self.to = 0;
        self.to = input.read(&mut self.bytes)?;
        Ok(())
    }

    /// The place of the first line feed of the pending bytes.
    pub fn line_feed(&self) -> Option<usize>
        ensures { result ≡ line_feed self.now.pending }
    {
        line_feed(&self.bytes[self.at..self.to])
    }

    /// How many bytes are pending, at most 65,536.
    pub fn len(&self) -> usize
        ensures value { result ≡ length self.now.pending }
        ensures small { result ≤ 65536 }
    {
        self.to - self.at
    }

    /// Puts the first `count` pending bytes behind `line` and passes over `skipped` more; or answers false where the
    /// input would pass its limit.
    pub fn take(&mut self, line: &mut Vec<u8>, count: usize, skipped: usize) -> Result<bool, Memory>
        requires there { count + skipped ≤ length self.old.pending }
        requires small { self.old.used ≤ 2 ^ 40 }
        ensures taken { IfOk result (λ fits. fits ≡ true → Taken count skipped self.old self.new line.old.items line.new.items) }
        ensures passed { IfOk result (λ fits. fits ≡ false → 2 ^ 40 < self.old.used + (count + skipped)) }
    {
        let used = self.used + (count + skipped) as u64;
        if used > LIMIT {
            return Ok(false);
        }
        line.extend_from_slice(&self.bytes[self.at..self.at + count])?;
        self.at += count + skipped;
        self.used = used;
        Ok(true)
    }
}

/// What became of a line that has begun.
#[derive(Clone, Copy, Debug, PartialEq, Eq)]
pub enum Piece {
    /// It is whole.
    Whole,
    /// All pending bytes went to it.
    Part,
    /// In it the input passes its limit.
    Passed,
}

#[tactic(auto, using(crate::proofs::Cuts::cut_whole, crate::proofs::Cuts::passed_whole))]
// The pending bytes up to a line feed, or all of them, go behind the line that has begun.
fn take_whole(buffer: &mut Buffer, line: &mut Vec<u8>, feed: usize) -> Result<Piece, Memory>
    requires feed { line_feed buffer.old.pending ≡ Some feed }
    requires small { buffer.old.used ≤ 2 ^ 40 }
    ensures whole { (left : Option (List ℕ)) → IfOk result (λ piece. piece ≡ Piece.Whole
        → begun_lines line.old.items buffer.old left
        ≡ onto_known (record { bytes = line.new.items; upto = buffer.new.used }) (known_lines buffer.new left)) }
    ensures moved { IfOk result (λ piece. piece ≡ Piece.Whole → Moved (10 ∷ []) buffer.old buffer.new line.old.items line.new.items) }
    ensures passed { (left : Option (List ℕ)) → IfOk result (λ piece. piece ≡ Piece.Passed → IfSome (begun_lines line.old.items buffer.old left) FirstPasses) }
    ensures more { IfOk result (λ piece. piece ≡ Piece.Whole → buffer.old.used < buffer.new.used) }
    ensures small { IfOk result (λ piece. piece ≡ Piece.Whole → buffer.new.used ≤ 2 ^ 40) }
    ensures never { IfOk result (λ piece. piece ≢ Piece.Part) }
{
    if buffer.take(line, feed, 1)? {
        Ok(Piece::Whole)
    } else {
        Ok(Piece::Passed)
    }
}

#[tactic(auto, using(crate::proofs::Cuts::cut_part, crate::proofs::Cuts::passed_part))]
fn take_part(buffer: &mut Buffer, line: &mut Vec<u8>) -> Result<Piece, Memory>
    requires feed { line_feed buffer.old.pending ≡ None }
    requires there { 0 < length buffer.old.pending }
    requires small { buffer.old.used ≤ 2 ^ 40 }
    ensures part { (left : Option (List ℕ)) → IfOk result (λ piece. piece ≡ Piece.Part
        → begun_lines line.old.items buffer.old left ≡ begun_lines line.new.items buffer.new left) }
    ensures moved { IfOk result (λ piece. piece ≡ Piece.Part → Moved [] buffer.old buffer.new line.old.items line.new.items) }
    ensures passed { (left : Option (List ℕ)) → IfOk result (λ piece. piece ≡ Piece.Passed → IfSome (begun_lines line.old.items buffer.old left) FirstPasses) }
    ensures more { IfOk result (λ piece. piece ≡ Piece.Part → buffer.old.used < buffer.new.used) }
    ensures small { IfOk result (λ piece. piece ≡ Piece.Part → buffer.new.used ≤ 2 ^ 40) }
    ensures never { IfOk result (λ piece. piece ≢ Piece.Whole) }
{
    let count = buffer.len();
    if buffer.take(line, count, 0)? {
        Ok(Piece::Part)
    } else {
        Ok(Piece::Passed)
    }
}

/// Puts pending bytes behind the line that has begun.
pub fn take_piece(buffer: &mut Buffer, line: &mut Vec<u8>) -> Result<Piece, Memory>
    requires there { 0 < length buffer.old.pending }
    requires small { buffer.old.used ≤ 2 ^ 40 }
    ensures whole { (left : Option (List ℕ)) → IfOk result (λ piece. piece ≡ Piece.Whole
        → begun_lines line.old.items buffer.old left
        ≡ onto_known (record { bytes = line.new.items; upto = buffer.new.used }) (known_lines buffer.new left)) }
    ensures part { (left : Option (List ℕ)) → IfOk result (λ piece. piece ≡ Piece.Part
        → begun_lines line.old.items buffer.old left ≡ begun_lines line.new.items buffer.new left) }
    ensures moved_whole { IfOk result (λ piece. piece ≡ Piece.Whole → Moved (10 ∷ []) buffer.old buffer.new line.old.items line.new.items) }
    ensures moved_part { IfOk result (λ piece. piece ≡ Piece.Part → Moved [] buffer.old buffer.new line.old.items line.new.items) }
    ensures passed { (left : Option (List ℕ)) → IfOk result (λ piece. piece ≡ Piece.Passed → IfSome (begun_lines line.old.items buffer.old left) FirstPasses) }
    ensures more { IfOk result (λ piece. piece ≢ Piece.Passed → buffer.old.used < buffer.new.used) }
    ensures small { IfOk result (λ piece. piece ≢ Piece.Passed → buffer.new.used ≤ 2 ^ 40) }
{
    match buffer.line_feed() {
        Some(feed) => take_whole(buffer, line, feed),
        None => take_part(buffer, line),
    }
}

/// Reads more where nothing is pending; false is the end of the input.
pub fn filled<I: Source>(input: &mut I, buffer: &mut Buffer) -> Result<bool, ReadFault>
    ensures used { buffer.new.used ≡ buffer.old.used }
    ensures unused { OnOk result (unused buffer.old (I.left input.old) ≡ unused buffer.new (I.left input.new)) }
    ensures there { IfOk result (λ there. there ≡ true → 0 < length buffer.new.pending) }
    ensures end { IfOk result (λ there. there ≡ false → buffer.new.pending ≡ []) }
    ensures left { IfOk result (λ there. there ≡ false → IfSome (I.left input.new) (λ bytes. bytes ≡ [])) }
    ensures failed { OnErr result (unused buffer.old (I.left input.old) ≡ I.left input.new) }
    ensures cause { HasCause (I.faults input.old) (I.faults input.new) result }
{
    if !buffer.is_empty() {
        return Ok(true);
    }
    buffer.fill(input)?;
    Ok(!buffer.is_empty())
}

fn line_feed(bytes: &[u8]) -> Option<usize>
    ensures { result ≡ line_feed bytes.now }
{
    bytes.iter().position(|b| *b == b'\n')
}
