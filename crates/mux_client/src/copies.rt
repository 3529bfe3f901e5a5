// Bytes that go both ways at once.
ghost use Rattle.std.specs.Prelude.{◌≡◌};
ghost use Rattle.std.specs.Thread.{IsSync};
ghost use Rattle.outside_io.specs.Sessions.{session_of};
ghost use Rattle.mux_client.specs.Copies.{Copies, Relayed, outcome_of};

use crate::buffer::Buffer;
use crate::dialling::Link;
use crate::fault::ClientFault;
use crate::pieces::{Piece, write_piece};
use outside_io::{Sink, Source};
use std::sync::Wait;
use std::thread::{Threads, join_mut};

/// How a copy ended.
#[derive(Clone, Copy, Debug, PartialEq, Eq)]
pub enum Copied {
    /// The source ended, and all of it was written.
    All,
    ReadFault,
    WriteFault,
}

// Copies a source to a sink, until the source ends or a call fails.
fn copy<R: Wait, S: Source, K: Sink>(
    rt: &R,
    buffer: &mut Buffer,
    source: &mut S,
    sink: &mut K,
) -> Copied
    ensures { Copies (session_of S.taken S.left S.faults K.written K.faults source.old sink.old)
        (session_of S.taken S.left S.faults K.written K.faults source.new sink.new) result }
{
    for _ in rt.forever() {
        let count = match buffer.read(source) {
            Piece::Bytes(count) => count,
            Piece::End => return Copied::All,
            Piece::Failed => return Copied::ReadFault,
        };
        if !write_piece(sink, &buffer.bytes.as_slice()[..count]) {
            return Copied::WriteFault;
        }
    }
    unreachable!()
}

// The same, and then closes the sink, however the copy ended.
#[tactic(auto, using(crate::proofs::Copying::copies_closed))]
fn copy_and_close<R: Wait, S: Source, K: Sink>(
    rt: &R,
    buffer: &mut Buffer,
    source: &mut S,
    sink: &mut K,
) -> Copied
    ensures { Copies (session_of S.taken S.left S.faults K.written K.faults source.old sink.old)
        (session_of S.taken S.left S.faults K.written K.faults source.new sink.new) result }
{
    let copied = copy(rt, buffer, source, sink);
    sink.close();
    copied
}

// What the ends of two copies come to, of the input to the link and of the link to the output: the input's fault before the
// output's, and that before the link's.
fn outcome(sent: Copied, shown: Copied) -> Result<(), ClientFault>
    ensures { result ≡ outcome_of sent shown }
{
    match (sent, shown) {
        (Copied::ReadFault, _) => Err(ClientFault::Input),
        (_, Copied::WriteFault) => Err(ClientFault::Output),
        (Copied::WriteFault, _) | (_, Copied::ReadFault) => Err(ClientFault::Link),
        (Copied::All, Copied::All) => Ok(()),
    }
}

/// Copies the input to a link and the link to the output, side by side, until both copies have ended. Each ends only where its
/// source ends or a call fails.
///
/// The copy of the input closes the link's sink as it ends, however it ends: so the other copy ends too, where a closed link's
/// reads end. Where the link's copy ends first, the input's goes on until the input ends.
#[tactic(auto, using(crate::proofs::Copying::relayed_by))]
pub fn copy_both<
    R: Threads + Wait + Sync,
    S: Source + Send + Drop,
    K: Sink + Send + Drop,
    I: Source + Send + Drop,
    O: Sink + Send + Drop,
>(
    rt: &R,
    typed: &mut Buffer,
    heard: &mut Buffer,
    link: &mut Link<S, K>,
    input: &mut I,
    output: &mut O,
) -> Result<(), ClientFault>
    ensures { Relayed (session_of I.taken I.left I.faults O.written O.faults input.old output.old)
        (session_of I.taken I.left I.faults O.written O.faults input.new output.new)
        (session_of S.taken S.left S.faults K.written K.faults link.old.source link.old.sink)
        (session_of S.taken S.left S.faults K.written K.faults link.new.source link.new.sink) result }
{
    let Link { source, sink } = link;
    let (sent, shown) = join_mut(
        rt,
        &mut || -> Copied
            requires { IsSync R.row }
            ensures { Copies (session_of I.taken I.left I.faults K.written K.faults input.entry.now sink.entry.now)
                (session_of I.taken I.left I.faults K.written K.faults input.exit.now sink.exit.now) result }
        { copy_and_close(rt, typed, input, sink) },
        &mut || -> Copied
            ensures { Copies (session_of S.taken S.left S.faults O.written O.faults source.entry.now output.entry.now)
                (session_of S.taken S.left S.faults O.written O.faults source.exit.now output.exit.now) result }
        { copy(rt, heard, source, output) },
    );
    outcome(sent, shown)
}
