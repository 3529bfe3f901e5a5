// A door, behind which a place's ports are.
ghost use Rattle.std.specs.Prelude.{◌≡◌, ℕ, ◌≤◌, List, [], ◌∷◌, OnOk, OnErr, IfSome, IsErrOf, IsSome, Option};
ghost use Rattle.outside_io.specs.Doors.{address_of, Call, opened, dialled, PortTold, told_of, Gave};
ghost use Rattle.outside_io.specs.Faults.{Rose};
ghost use Rattle.outside_io.specs.Told.{append_to, prepend_to};

use crate::port::Port;
use std::alloc::AllocError;

/// Where a daemon is met: the path of a Unix socket, a TCP port of the loopback address, or the standard input and output
/// of its own process.
#[derive(Clone, Debug, Drop)]
pub enum Place {
    Unix(String),
    Tcp(u16),
    Streams,
}

/// A door that gave no port: the outside failed, or memory was wanted.
#[derive(Clone, Copy, Debug, PartialEq, Eq)]
pub enum DoorFault {
    Failed,
    Memory,
}

impl From<AllocError> for DoorFault {
    ghost use Rattle.std.specs.Prelude.{◌≡◌};
    ghost use Rattle.outside_io.specs.declared.door.DoorFault.TheVariants.{Memory};

    ghost from_gives = { λ _ fault. fault ≡ Memory };

    fn from(_: AllocError) -> DoorFault {
        DoorFault::Memory
    }
}

/// What opens places for links to come, and dials places for one link.
///
/// A door may tell its calls, each with its place and `open` with its number, and the ports that are left; it tells
/// after a call exactly where it told before. A call that answers `Memory` isn't among those told. The count of faults
/// never falls; it stands still at 2^64 - 1.
pub trait Door {
    type Port: Port + Send + Drop;

    /// The calls, where they are told.
    ghost calls: { Self → Option (List Call) };

    /// What the ports tell that are left, where it is told.
    ghost left: { Self → Option (List PortTold) };

    /// How many calls failed.
    ghost faults: { Self → ℕ };

    /// Opens a place and adds at most `n` ports to `ports`; fewer only where none is left, if that is told. The counts
    /// of the ports start at 0. `Failed` comes only where the count rose; either fault leaves `ports` as it was.
    fn open(&mut self, place: &Place, n: u32, ports: &mut Vec<Self::Port>) -> Result<(), DoorFault>
        ensures ports { OnOk result
            (Gave (told_of Self.Port.Port.sessions Self.Port.Port.links) Self.Port.Port.faults n ports.old.items ports.new.items
            (left self.old) (left self.new)) }
        ensures kept { OnErr result ((ports.new.items ≡ ports.old.items) × (left self.new ≡ left self.old)) }
        ensures called { ¬ IsErrOf result DoorFault.Memory → calls self.new ≡ append_to (calls self.old) (opened (address_of place.now) n ∷ []) }
        ensures uncalled { IsErrOf result DoorFault.Memory → calls self.new ≡ calls self.old }
        ensures failed { IsErrOf result DoorFault.Failed → Rose (faults self.old) (faults self.new) }
        ensures later { faults self.old ≤ faults self.new };

    /// Dials a place and puts a port into `port`, whose count starts at 0. `Failed` comes only where the count rose;
    /// either fault leaves `port` as it was.
    fn dial(&mut self, place: &Place, port: &mut Option<Self::Port>) -> Result<(), DoorFault>
        ensures filled { OnOk result (IsSome port.new) }
        ensures fresh { OnOk result (IfSome port.new (λ port. Self.Port.Port.faults port ≡ 0)) }
        ensures port { OnOk result
            (IfSome port.new (λ port. left self.old ≡ prepend_to (told_of Self.Port.Port.sessions Self.Port.Port.links port ∷ []) (left self.new))) }
        ensures kept { OnErr result ((port.new ≡ port.old) × (left self.new ≡ left self.old)) }
        ensures called { ¬ IsErrOf result DoorFault.Memory → calls self.new ≡ append_to (calls self.old) (dialled (address_of place.now) ∷ []) }
        ensures uncalled { IsErrOf result DoorFault.Memory → calls self.new ≡ calls self.old }
        ensures failed { IsErrOf result DoorFault.Failed → Rose (faults self.old) (faults self.new) }
        ensures later { faults self.old ≤ faults self.new };

    /// Words on the last call that failed, for notes alone; empty where there are none.
    fn reason(&self) -> &str {
        ""
    }
}
