// Socket files.
use crate::pairs::{holds, joined, nobody, open, quiet, remove, unix};
use outside_io::{Arrival, Door, DoorFault, Place};
use real_host::{RealDoor, RealPort};
use std::fs;
use std::os::unix::fs::MetadataExt;
use std::os::unix::net::UnixListener;
use std::test::Fail;

// Whether a door refuses to open a place.
fn refuses(rt: HostRuntime, door: &mut RealDoor, place: &Place) -> bool {
    let mut ports = Vec::new(rt.alloc());
    door.open(place, 1, &mut ports) == Err(DoorFault::Failed)
}

// Whether a door refuses to dial a place.
fn refuses_to_dial(door: &mut RealDoor, place: &Place) -> bool {
    let mut port = None;
    door.dial(place, &mut port) == Err(DoorFault::Failed)
}

// Opens a place whose file nobody listens at. The user alone is let in.
fn over_a_stale_file(
    rt: HostRuntime,
    door: &mut RealDoor,
    place: &Place,
) -> Result<RealPort, Fail> {
    drop(UnixListener::bind(&rt, "stale.sock")?);
    holds(fs::exists(&rt, "stale.sock")?, "no stale file")?;
    let port = open(rt, door, place)?;
    let mode = fs::metadata(&rt, "stale.sock")?.mode();
    holds(mode % 0o1000 == 0o600, "others may be let in")?;
    Ok(port)
}

// Another door dials a live place, doesn't open it, and leaves its file.
fn beside_another_door(rt: HostRuntime, port: &mut RealPort, place: &Place) -> Result<(), Fail> {
    let mut other = RealDoor::new(rt, quiet(rt), None);
    holds(refuses(rt, &mut other, place), "a live place was opened")?;
    drop(joined(&mut other, port, place)?);
    drop(other);
    holds(
        fs::exists(&rt, "stale.sock")?,
        "another door removed the file",
    )
}

// A place that was closed is opened again.
fn once_more(rt: HostRuntime, place: &Place) -> Result<(), Fail> {
    let mut door = RealDoor::new(rt, quiet(rt), None);
    let mut port = open(rt, &mut door, place)?;
    holds(nobody(&mut port) == Arrival::Nobody, "somebody came")
}

pub(crate) fn a_stale_file_and_two_doors(rt: HostRuntime) -> Result<(), Fail> {
    let place = unix(rt, "stale.sock")?;
    let mut door = RealDoor::new(rt, quiet(rt), None);
    let mut port = over_a_stale_file(rt, &mut door, &place)?;
    beside_another_door(rt, &mut port, &place)?;
    drop((port, door));
    holds(!fs::exists(&rt, "stale.sock")?, "the file is there still")?;
    once_more(rt, &place)?;
    remove(rt, "stale.sock")
}

// A plain file is neither opened nor dialled, and stays.
fn a_plain_file(rt: HostRuntime, door: &mut RealDoor, place: &Place) -> Result<(), Fail> {
    fs::write(&rt, "other.sock", "mine")?;
    holds(refuses(rt, door, place), "a plain file was opened")?;
    holds(refuses_to_dial(door, place), "a plain file was dialled")?;
    holds(
        fs::read_to_string(&rt, "other.sock")?.as_str() == "mine",
        "it is gone",
    )?;
    fs::remove_file(&rt, "other.sock")?;
    Ok(())
}

// A place at which somebody else listens isn't opened.
fn a_place_of_another(rt: HostRuntime, door: &mut RealDoor, place: &Place) -> Result<(), Fail> {
    let listener = UnixListener::bind(&rt, "other.sock")?;
    holds(refuses(rt, door, place), "another's place was opened")?;
    let is_there = fs::exists(&rt, "other.sock")?;
    drop(listener);
    holds(is_there, "another's file is gone")
}

// A file that isn't the door's own stays.
pub(crate) fn files_of_others(rt: HostRuntime) -> Result<(), Fail> {
    let place = unix(rt, "other.sock")?;
    let mut door = RealDoor::new(rt, quiet(rt), None);
    holds(
        refuses_to_dial(&mut door, &place),
        "an absent place was dialled",
    )?;
    a_plain_file(rt, &mut door, &place)?;
    a_place_of_another(rt, &mut door, &place)?;
    remove(rt, "other.sock")
}

pub(crate) fn a_file_that_was_replaced(rt: HostRuntime) -> Result<(), Fail> {
    let place = unix(rt, "replaced.sock")?;
    let mut door = RealDoor::new(rt, quiet(rt), None);
    let port = open(rt, &mut door, &place)?;
    fs::remove_file(&rt, "replaced.sock")?;
    fs::write(&rt, "replaced.sock", "mine")?;
    drop((port, door));
    holds(
        fs::exists(&rt, "replaced.sock")?,
        "another's file was removed",
    )?;
    remove(rt, "replaced.sock")
}
