// A port, through which links come.
ghost use Rattle.std.specs.Prelude.{◌≡◌, ℕ, ◌+◌, ◌<◌, ◌≤◌, ◌⊎◌, List, [], ◌∷◌, IsSome, IfSome, Option, Some, None};
ghost use Rattle.outside_io.specs.Arrivals.{OnLink, OnNoLink};
ghost use Rattle.outside_io.specs.Faults.{Rose};
ghost use Rattle.outside_io.specs.Sessions.{Session, session_of};
ghost use Rattle.outside_io.specs.Told.{append_to, prepend_to};

use crate::sink::Sink;
use crate::source::Source;

/// What an accept found: a link, none in this call, or that none will come.
#[derive(Clone, Copy, Debug, PartialEq, Eq)]
pub enum Arrival {
    Link,
    Nobody,
    Closed,
}

/// Where links come from, each a source and a sink.
///
/// A port may tell its sessions, in the order in which they were handed back, and the links that are left; it tells
/// after a call exactly where it told before. Its count of faults never falls; it stands still at 2^64 - 1. Room is kept
/// for each link that was given until it is handed back.
pub trait Port {
    type In: Source + Send + Drop;

    type Out: Sink + Send + Drop;

    /// The sessions that were handed back, where they are told.
    ghost sessions: { Self → Option (List Session) };

    /// The links that are left, where they are told.
    ghost links: { Self → Option (List Session) };

    /// How many links were given and not handed back yet.
    ghost held: { Self → ℕ };

    /// How many accepts failed.
    ghost faults: { Self → ℕ };

    /// Waits for a link and puts it into the two places, which are empty. `Closed` comes only where the links are used
    /// up or the count rose, and `Nobody` never from a port that tells its links.
    fn accept(&mut self, inn: &mut Option<Self::In>, out: &mut Option<Self::Out>) -> Arrival
        requires source { inn.old ≡ None }
        requires sink { out.old ≡ None }
        ensures filled { OnLink result (IsSome inn.new × IsSome out.new) }
        ensures link { OnLink result (IfSome inn.new (λ source. IfSome out.new (λ sink.
            links self.old ≡ prepend_to (session_of
            Self.In.Source.taken Self.In.Source.left Self.In.Source.faults Self.Out.Sink.written Self.Out.Sink.faults
            source sink ∷ []) (links self.new)))) }
        ensures given { OnLink result (held self.new ≡ held self.old + 1) }
        ensures empty { OnNoLink result ((inn.new ≡ None) × (out.new ≡ None)) }
        ensures kept { OnNoLink result ((links self.new ≡ links self.old) × (held self.new ≡ held self.old)) }
        ensures sessions { sessions self.new ≡ sessions self.old }
        ensures nobody { result ≡ Arrival.Nobody → links self.old ≡ None }
        ensures closed { result ≡ Arrival.Closed → IfSome (links self.old) (λ left. left ≡ []) ⊎ Rose (faults self.old) (faults self.new) }
        ensures later { faults self.old ≤ faults self.new };

    /// Takes a link back out of the two places. It can't fail and takes no memory.
    fn hang_up(&mut self, inn: &mut Option<Self::In>, out: &mut Option<Self::Out>)
        requires source { IsSome inn.old }
        requires sink { IsSome out.old }
        requires given { 0 < held self.old }
        ensures session { IfSome inn.old (λ source. IfSome out.old (λ sink.
            sessions self.new ≡ append_to (sessions self.old)
            (session_of Self.In.Source.taken Self.In.Source.left Self.In.Source.faults Self.Out.Sink.written Self.Out.Sink.faults source sink ∷ []))) }
        ensures empty { (inn.new ≡ None) × (out.new ≡ None) }
        ensures links { links self.new ≡ links self.old }
        ensures given { held self.old ≡ held self.new + 1 }
        ensures later { faults self.old ≤ faults self.new };
}
