// Peers in memory, and what they say.
use outside_io::{Gate, MemBerth, MemPort, MemSink, MemSource, Meter};
use std::alloc::{AllocError, Global};
use std::test::Fail;

pub const HOVER: &[u8] = b"Content-Length: 5\r\n\r\nhover";

/// A body of one byte, which asks the core for a start.
pub const START: &[u8] = b"Content-Length: 1\r\n\r\ns";

pub const STOP: &[u8] = b"Content-Length: 0\r\n\r\n";

// How long a read waits for a meter.
const TURNS: u64 = 100_000_000;

pub type Link = (MemSource, MemSink);

/// A list of this one.
pub fn one<T: Drop>(alloc: Global, item: T) -> Result<Vec<T>, AllocError> {
    let mut all = Vec::new(alloc);
    all.push(item)?;
    Ok(all)
}

/// A list of these two.
pub fn two<T: Drop>(alloc: Global, first: T, second: T) -> Result<Vec<T>, AllocError> {
    let mut all = one(alloc, first)?;
    all.push(second)?;
    Ok(all)
}

/// These bytes so many times.
pub fn times(alloc: Global, bytes: &[u8], count: usize) -> Result<Vec<u8>, AllocError> {
    let mut all = Vec::new(alloc);
    for _ in 0..count {
        all.extend_from_slice(bytes)?;
    }
    Ok(all)
}

/// The read of this number waits until a meter shows so many bytes.
pub fn gate(read: usize, meter: &Meter, bytes: usize) -> Result<Option<Gate>, Fail> {
    Ok(Some(Gate {
        read: read as u64,
        meter: meter.share()?,
        bytes: bytes as u64,
        turns: TURNS,
    }))
}

/// A peer that says these bytes, a write of which may fail.
pub fn plain(alloc: Global, bytes: &[u8], fails: Vec<u64>) -> Result<Link, AllocError> {
    let source = MemSource::new(bytes.to_vec(alloc)?, Vec::new(alloc), None);
    Ok((source, MemSink::new(alloc, fails, None)))
}

/// A peer that says these bytes, a read of which may wait. What is written to it raises a meter.
pub fn metered(
    alloc: Global,
    bytes: &[u8],
    waits: Option<Gate>,
    raises: &Meter,
) -> Result<Link, Fail> {
    let source = MemSource::new(bytes.to_vec(alloc)?, Vec::new(alloc), waits);
    let sink = MemSink::new(alloc, Vec::new(alloc), Some(raises.share()?));
    Ok((source, sink))
}

/// A port of one link.
pub fn port(alloc: Global, link: Link) -> Result<MemPort, AllocError> {
    Ok(MemPort::new(alloc, one(alloc, link)?))
}

/// A port of one such link.
pub fn metered_port(
    alloc: Global,
    bytes: &[u8],
    waits: Option<Gate>,
    raises: &Meter,
) -> Result<MemPort, Fail> {
    Ok(port(alloc, metered(alloc, bytes, waits, raises)?)?)
}

/// A port whose links say these bytes, one behind the other.
pub fn plain_port(alloc: Global, links: &[&[u8]]) -> Result<MemPort, AllocError> {
    let mut all = Vec::new(alloc);
    for bytes in links {
        all.push(plain(alloc, bytes, Vec::new(alloc))?)?;
    }
    Ok(MemPort::new(alloc, all))
}

/// Such ports.
pub fn plain_ports(alloc: Global, ports: &[&[&[u8]]]) -> Result<Vec<MemPort>, AllocError> {
    let mut all = Vec::new(alloc);
    for links in ports {
        all.push(plain_port(alloc, links)?)?;
    }
    Ok(all)
}

/// A berth of one run.
pub fn berth(alloc: Global, run: Link, fails: Vec<u64>) -> Result<MemBerth, AllocError> {
    Ok(MemBerth::new(alloc, one(alloc, run)?, fails))
}
