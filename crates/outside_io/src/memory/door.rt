// A door in memory.
ghost use Rattle.std.specs.Prelude.{◌≡◌, ℕ, ◌+◌, ◌≤◌, List, [], ◌∷◌, OnOk, OnErr, IfOk, IfSome, IsErrOf, IsSome, MatchOption, Option, Some, map};
ghost use Rattle.std.specs.VecDeque.{deque_len};
ghost use Rattle.outside_io.specs.Doors.{address_of, Call, opened, dialled, PortTold, told_of, Gave};
ghost use Rattle.outside_io.specs.MemoryDoors.{call_of, port_of};

use crate::door::{Door, DoorFault, Place};
use crate::memory::port::MemPort;
use crate::port::Port;
use std::alloc::{AllocError, Global};
use std::collections::VecDeque;

// A call that was made.
#[derive(Drop)]
pub(crate) enum Made {
    Open(Place, u32),
    Dial(Place),
}

/// A door over ports in memory, which it gives in order, whatever the place is.
///
/// `open` gives the first `n` ports, or all where there are fewer; `dial` gives the next one. The calls whose numbers,
/// from 0, stand in `fails` fail, and so does a dial where the ports are used up.
#[derive(Drop)]
pub struct MemDoor {
    ports: VecDeque<MemPort>,
    fails: Vec<u64>,
    calls: Vec<Made>,
    number: u64,
    faults: u64,
}

impl MemDoor {
    /// A door that gives these ports, in this order. Calls are numbered from 0; those in `fails`
    /// fail.
    pub fn new(alloc: Global, ports: Vec<MemPort>, fails: Vec<u64>) -> MemDoor
        ensures calls { ⟦<MemDoor as Door>⟧.calls result ≡ Some [] }
        ensures left { ⟦<MemDoor as Door>⟧.left result ≡ Some (map port_of ports.items) }
        ensures faults { ⟦<MemDoor as Door>⟧.faults result ≡ 0 }
    {
        MemDoor {
            ports: VecDeque::from(ports),
            fails,
            calls: Vec::new(alloc),
            number: 0,
            faults: 0,
        }
    }
}

// Counts a call of this number, and says whether it fails.
fn fails(fails: &[u64], number: &mut u64) -> bool {
    let found = fails.contains(number);
    *number = number.saturating_add(1);
    found
}

// Takes the next port, whose count starts at 0.
fn next(ports: &mut VecDeque<MemPort>) -> Option<MemPort>
    ensures fresh { IfSome result (λ port. ⟦<MemPort as Port>⟧.faults port ≡ 0) }
    ensures left { MatchOption result ((ports.old.items ≡ []) × (ports.new.items ≡ []))
        (λ port. map port_of ports.old.items ≡ port_of port ∷ map port_of ports.new.items) }
    ensures count { MatchOption result (deque_len ports.new ≡ deque_len ports.old) (λ _. deque_len ports.new + 1 ≡ deque_len ports.old) }
{
    let mut port = ports.pop_front()?;
    port.renew();
    Some(port)
}

// Moves the first `n` ports, or all where there are fewer, to the end of `to`.
#[tactic(auto, using(crate::proofs::Gifts::gave_none, crate::proofs::Gifts::gave_more, crate::proofs::Gifts::gave_all))]
fn give(from: &mut VecDeque<MemPort>, n: u32, to: &mut Vec<MemPort>) -> Result<(), AllocError>
    ensures gave { OnOk result (Gave port_of ⟦<MemPort as Port>⟧.faults n to.old.items to.new.items (Some (map port_of from.old.items))
        (Some (map port_of from.new.items))) }
    ensures kept { OnErr result ((to.new.items ≡ to.old.items) × (from.new.items ≡ from.old.items)) }
{
    to.reserve(from.len().min(n as usize))?;
    for _ in 0..n {
        let Some(port) = next(from) else {
            return Ok(());
        };
        to.push_reserved(port);
    }
    Ok(())
}

impl Door for MemDoor {
    type Port = MemPort;

    ghost calls = { λ d. Some (map call_of d.calls.items) };

    ghost left = { λ d. Some (map port_of d.ports.items) };

    ghost faults = { λ d. d.faults };

    fn open(&mut self, place: &Place, n: u32, ports: &mut Vec<MemPort>) -> Result<(), DoorFault> {
        let call = Made::Open(place.clone()?, n);
        self.calls.reserve(1)?;
        if fails(&self.fails, &mut self.number) {
            self.faults = self.faults.saturating_add(1);
            self.calls.push_reserved(call);
            return Err(DoorFault::Failed);
        }
        give(&mut self.ports, n, ports)?;
        self.calls.push_reserved(call);
        Ok(())
    }

    fn dial(&mut self, place: &Place, port: &mut Option<MemPort>) -> Result<(), DoorFault> {
        let call = Made::Dial(place.clone()?);
        self.calls.reserve(1)?;
        self.calls.push_reserved(call);
        if !fails(&self.fails, &mut self.number)
            && let Some(given) = next(&mut self.ports)
        {
            *port = Some(given);
            return Ok(());
        }
        self.faults = self.faults.saturating_add(1);
        Err(DoorFault::Failed)
    }
}
