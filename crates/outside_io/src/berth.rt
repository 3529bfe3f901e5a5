// A berth, in which programs run.
ghost use Rattle.std.specs.Prelude.{◌≡◌, ℕ, ◌+◌, ◌<◌, ◌≤◌, List, [], ◌∷◌, OnOk, OnErr, IsErrOf, IsSome, IfSome, Option, Some, None, map, option_copied, string_bytes};
ghost use Rattle.outside_io.specs.Faults.{Rose};
ghost use Rattle.outside_io.specs.Sessions.{Session, session_of};
ghost use Rattle.outside_io.specs.Starts.{Start};
ghost use Rattle.outside_io.specs.Told.{append_to, prepend_to};

use crate::sink::Sink;
use crate::source::Source;

/// A start of no program: the outside failed, or memory was wanted.
#[derive(Clone, Copy, Debug, PartialEq, Eq)]
pub enum StartFault {
    Failed,
    Memory,
}

/// Where programs are started, each of which is read by a source and written to by a sink.
///
/// A berth may tell its runs, in the order in which they were handed back, and the runs that are left; it tells after a
/// call exactly where it told before. It may tell in the same way what it was asked to start. Its count of faults never
/// falls; it stands still at 2^64 - 1. Room is kept for each run that was given until it is handed back.
pub trait Berth {
    type In: Source + Send + Drop;

    type Out: Sink + Send + Drop;

    /// The runs that were handed back, where they are told.
    ghost runs: { Self → Option (List Session) };

    /// The runs that are left, where they are told.
    ghost left: { Self → Option (List Session) };

    /// The starts that it was asked for, but those that answered `Memory`, where they are told.
    ghost asked: { Self → Option (List Start) };

    /// How many runs were given and not handed back yet.
    ghost held: { Self → ℕ };

    /// How many starts failed.
    ghost faults: { Self → ℕ };

    /// Starts the program of `words` in a folder, or in the berth's own where none is named, and puts its source and sink
    /// into the two places, which are empty. `Failed` comes only where the count rose.
    fn start(
        &mut self,
        words: &[String],
        folder: Option<&str>,
        inn: &mut Option<Self::In>,
        out: &mut Option<Self::Out>,
    ) -> Result<(), StartFault>
        requires source { inn.old ≡ None }
        requires sink { out.old ≡ None }
        ensures filled { OnOk result (IsSome inn.new × IsSome out.new) }
        ensures run { OnOk result (IfSome inn.new (λ source. IfSome out.new (λ sink.
            left self.old ≡ prepend_to (session_of
            Self.In.Source.taken Self.In.Source.left Self.In.Source.faults Self.Out.Sink.written Self.Out.Sink.faults
            source sink ∷ []) (left self.new)))) }
        ensures given { OnOk result (held self.new ≡ held self.old + 1) }
        ensures empty { OnErr result ((inn.new ≡ None) × (out.new ≡ None)) }
        ensures kept { OnErr result ((left self.new ≡ left self.old) × (held self.new ≡ held self.old)) }
        ensures runs { runs self.new ≡ runs self.old }
        ensures asked { ¬ IsErrOf result StartFault.Memory → asked self.new
            ≡ append_to (asked self.old) (record { words = map string_bytes words.now; folder = option_copied folder.entry } ∷ []) }
        ensures unasked { IsErrOf result StartFault.Memory → asked self.new ≡ asked self.old }
        ensures failed { IsErrOf result StartFault.Failed → Rose (faults self.old) (faults self.new) }
        ensures later { faults self.old ≤ faults self.new };

    /// Takes a run back out of the two places. It can't fail and takes no memory.
    fn finish(&mut self, inn: &mut Option<Self::In>, out: &mut Option<Self::Out>)
        requires source { IsSome inn.old }
        requires sink { IsSome out.old }
        requires given { 0 < held self.old }
        ensures run { IfSome inn.old (λ source. IfSome out.old (λ sink.
            runs self.new ≡ append_to (runs self.old)
            (session_of Self.In.Source.taken Self.In.Source.left Self.In.Source.faults Self.Out.Sink.written Self.Out.Sink.faults source sink ∷ []))) }
        ensures empty { (inn.new ≡ None) × (out.new ≡ None) }
        ensures left { left self.new ≡ left self.old }
        ensures given { held self.old ≡ held self.new + 1 }
        ensures asked { asked self.new ≡ asked self.old }
        ensures later { faults self.old ≤ faults self.new };

    /// Words on the last start that failed, for notes alone; empty where there are none.
    fn reason(&self) -> &str {
        ""
    }
}
