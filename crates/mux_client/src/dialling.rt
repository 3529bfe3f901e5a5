// A port that is dialled, and its one link.
ghost use Rattle.std.specs.Prelude.{◌≡◌, ◌+◌, ◌<◌, ◌≤◌, ◌⊎◌, [], ◌∷◌, IfErr, IfOk, IfSome, IsSome, OnOk, OnErr};
ghost use Rattle.outside_io.specs.Doors.{address_of, dialled, told_of};
ghost use Rattle.outside_io.specs.Faults.{Rose};
ghost use Rattle.outside_io.specs.Sessions.{session_of};
ghost use Rattle.outside_io.specs.Told.{append_to, prepend_to};
ghost use Rattle.mux_client.specs.Dials.{Called, WhyNoPort};

use crate::fault::ClientFault;
use outside_io::{Arrival, Door, DoorFault, Place, Port};

/// What is read and written of a link.
#[derive(Drop)]
pub struct Link<I, O> {
    pub source: I,
    pub sink: O,
}

/// Dials a place. A port is put into `port` where it answers Ok, and else `port` stays as it was.
#[tactic(auto, using(crate::proofs::Dials::called_so, crate::proofs::Dials::called_not))]
pub fn dial<D: Door>(
    door: &mut D,
    place: &Place,
    port: &mut Option<D::Port>,
) -> Result<(), ClientFault>
    ensures called { Called (address_of place.now) (D.calls door.old) (D.calls door.new) result }
    ensures one_call { OnOk result (D.calls door.new ≡ append_to (D.calls door.old) (dialled (address_of place.now) ∷ [])) }
    ensures filled { OnOk result (IsSome port.new) }
    ensures fresh { OnOk result (IfSome port.new (λ port. D.Port.Port.faults port ≡ 0)) }
    ensures port { OnOk result
        (IfSome port.new (λ port. D.left door.old ≡ prepend_to (told_of D.Port.Port.sessions D.Port.Port.links port ∷ []) (D.left door.new))) }
    ensures kept { OnErr result ((port.new ≡ port.old) × (D.left door.new ≡ D.left door.old)) }
    ensures why { IfErr result (λ why. WhyNoPort (D.faults door.old) (D.faults door.new) why) }
{
    match door.dial(place, port) {
        Ok(()) => Ok(()),
        Err(DoorFault::Failed) => Err(ClientFault::Door),
        Err(DoorFault::Memory) => Err(ClientFault::Memory),
    }
}

/// A port gave no link.
#[derive(Clone, Copy, Debug, PartialEq, Eq)]
pub struct NoLink;

/// Takes a port's link.
pub fn take_link<P: Port>(port: &mut P) -> Result<Link<P::In, P::Out>, NoLink>
    ensures link { IfOk result (λ link. P.links port.old ≡ prepend_to
        (session_of P.In.Source.taken P.In.Source.left P.In.Source.faults P.Out.Sink.written P.Out.Sink.faults link.source link.sink ∷ []) (P.links port.new)) }
    ensures given { OnOk result (P.held port.new ≡ P.held port.old + 1) }
    ensures none { OnErr result ((P.links port.new ≡ P.links port.old) × (P.held port.new ≡ P.held port.old)) }
    ensures cause { OnErr result (IfSome (P.links port.old) (λ left. left ≡ []) ⊎ Rose (P.faults port.old) (P.faults port.new)) }
    ensures sessions { P.sessions port.new ≡ P.sessions port.old }
{
    let mut source = None;
    let mut sink = None;
    match port.accept(&mut source, &mut sink) {
        Arrival::Link => {}
        Arrival::Nobody | Arrival::Closed => return Err(NoLink),
    }
    match (source, sink) {
        (Some(source), Some(sink)) => Ok(Link { source, sink }),
        _ => unreachable!(),
    }
}

/// Hands a link back to its port.
pub fn hang_up<P: Port>(port: &mut P, link: Link<P::In, P::Out>)
    requires { 0 < P.held port.old }
    ensures session { P.sessions port.new
        ≡ append_to (P.sessions port.old)
        (session_of P.In.Source.taken P.In.Source.left P.In.Source.faults P.Out.Sink.written P.Out.Sink.faults link.source link.sink ∷ []) }
    ensures links { P.links port.new ≡ P.links port.old }
    ensures given { P.held port.old ≡ P.held port.new + 1 }
{
    let mut source = Some(link.source);
    let mut sink = Some(link.sink);
    port.hang_up(&mut source, &mut sink);
}
