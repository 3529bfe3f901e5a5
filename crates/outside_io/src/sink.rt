// A sink of bytes, and the whole write.
ghost use Rattle.std.specs.Prelude.{◌≡◌, ℕ, ◌≤◌, ◌<◌, List, length, take, IfOk, OnOk, IfErr, OnErr, Option};
ghost use Rattle.std.specs.Io.KnownBytes.{append_known};
ghost use Rattle.outside_io.specs.Faults.{HasCause, Rose};

use crate::ending::Ending;

/// A write that took nothing, because the outside failed.
#[derive(Clone, Copy, Debug, PartialEq, Eq)]
pub enum WriteFault {
    Failed,
}

/// Where bytes go.
///
/// A sink may tell the bytes written; it tells after a call exactly where it told before. Its count of faults never
/// falls; it stands still at 2^64 - 1.
pub trait Sink {
    /// The bytes written, where they are told.
    ghost written: { Self → Option (List ℕ) };

    /// How many writes failed or took nothing of a piece that wasn't empty.
    ghost faults: { Self → ℕ };

    /// Tells whose session it is written in, before the first write. A write may fail once the end of that session was
    /// ordered.
    fn heed(&mut self, ending: Ending)
        ensures kept { written self.new ≡ written self.old }
        ensures same { faults self.new ≡ faults self.old }
    {
        drop(ending);
    }

    /// Takes bytes off the front of `bytes` and answers how many.
    fn write(&mut self, bytes: &[u8]) -> Result<usize, WriteFault>
        ensures bound { IfOk result (λ n. n ≤ length bytes.now) }
        ensures written { IfOk result (λ n. written self.new ≡ append_known (written self.old) (take n bytes.now)) }
        ensures kept { OnErr result (written self.new ≡ written self.old) }
        ensures cause { HasCause (faults self.old) (faults self.new) result }
        ensures none { result ≡ Ok 0 → 0 < length bytes.now → Rose (faults self.old) (faults self.new) };

    /// Ends the sink; later writes may fail.
    fn close(&mut self)
        ensures kept { written self.new ≡ written self.old }
        ensures later { faults self.old ≤ faults self.new };
}

/// A whole write that was cut off behind `written` bytes.
#[derive(Clone, Copy, Debug, PartialEq, Eq)]
pub struct Cut {
    pub written: usize,
}

/// Writes all of `bytes`, or answers where the sink's fault cut it off.
#[tactic(auto, using(crate::proofs::Growth::written_more))]
pub fn write_whole<S: Sink>(sink: &mut S, bytes: &[u8]) -> Result<(), Cut>
    ensures ok { OnOk result (S.written sink.new ≡ append_known (S.written sink.old) bytes.now) }
    ensures cut { IfErr result (λ cut. (cut.written ≤ length bytes.now)
        × (S.written sink.new ≡ append_known (S.written sink.old) (take cut.written bytes.now))) }
    ensures cause { HasCause (S.faults sink.old) (S.faults sink.new) result }
{
    let mut written = 0;
    while written < bytes.len() {
        match sink.write(&bytes[written..]) {
            Ok(0) | Err(WriteFault::Failed) => return Err(Cut { written }),
            Ok(count) => written += count,
        }
    }
    Ok(())
}
