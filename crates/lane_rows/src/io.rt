use crate::queue::is_body;
use lane_queue::{HubEnds, Lane, LaneIn, LaneOut, Order, Posted, Side};
use message_body::Body;
use mux_history::Why;
use outside_io::{MemSink, MemSource};
use session_io::{Core, End, Stop, read_session, write_session};
use std::alloc::Global;
use std::sync::Wait;
use std::test::Fail;

// A core that always goes on, of a session whose writing part ended so.
#[derive(Drop)]
struct Always {
    end: Option<End>,
}

impl Core for Always {
    fn pump<R: Wait>(&self, rt: &R) -> bool {
        true
    }

    fn sleep<R: Wait>(&self, rt: &R) {}

    fn ended(&self) -> Option<End> {
        self.end
    }
}

// A source of these bytes, one read of which may fail.
fn source(alloc: Global, bytes: &[u8], fails: Option<u64>) -> Result<MemSource, Fail> {
    let mut numbers = Vec::new(alloc);
    if let Some(number) = fails {
        numbers.push(number)?;
    }
    Ok(MemSource::new(bytes.to_vec(alloc)?, numbers, None))
}

// What a session is told of its end that reads from this source, and what is found in its queue.
fn read<R: Wait>(
    rt: &R,
    alloc: Global,
    source: MemSource,
    end: Option<End>,
) -> Result<(Stop, HubEnds), Fail> {
    let (inn, _out, hub) = Lane::new(alloc)?;
    let mut inn: LaneIn = inn;
    let mut source = source;
    let stop = read_session(rt, alloc, 16, &Always { end }, &mut source, &mut inn);
    Ok((stop, hub))
}

// The next item is the end, by this reason.
fn is_end<R: Wait>(rt: &R, hub: &mut HubEnds, wanted: Why) -> bool {
    matches!(hub.next(rt), Some(Posted::Ended(why)) if why == wanted)
}

#[test]
fn frames_and_the_end_are_posted(rt: HostRuntime) -> Result<(), Fail> {
    let alloc = rt.alloc();
    let source = source(alloc, b"Content-Length: 2\r\n\r\n{}Cont", None)?;
    let (stop, mut hub) = read(&rt, alloc, source, None)?;
    assert!(rt; stop == Stop::Ended(Why::End));
    assert!(rt; is_body(&rt, &mut hub, b"{}"));
    assert!(rt; is_end(&rt, &mut hub, Why::End));
    Ok(())
}

// A session that reads from this source is told this of its end, and posts nothing before it.
fn ends<R: Wait>(
    rt: &R,
    alloc: Global,
    source: MemSource,
    end: Option<End>,
    wanted: Stop,
    why: Why,
) -> Result<bool, Fail> {
    let (stop, mut hub) = read(rt, alloc, source, end)?;
    Ok(stop == wanted && is_end(rt, &mut hub, why))
}

#[test]
fn a_fault_ends_it(rt: HostRuntime) -> Result<(), Fail> {
    let alloc = rt.alloc();
    let long = source(alloc, b"Content-Length: 17\r\n\r\n", None)?;
    let told = Stop::Ended(Why::BadFrame);
    assert!(rt; ends(&rt, alloc, long, None, told, Why::BadFrame)?);
    Ok(())
}

#[test]
fn a_failed_read_ends_it(rt: HostRuntime) -> Result<(), Fail> {
    let alloc = rt.alloc();
    let fails = source(alloc, b"x", Some(0))?;
    let told = Stop::Ended(Why::ReadFault);
    assert!(rt; ends(&rt, alloc, fails, None, told, Why::ReadFault)?);
    Ok(())
}

#[test]
fn an_order_ends_it(rt: HostRuntime) -> Result<(), Fail> {
    let alloc = rt.alloc();
    let source = source(alloc, b"x", None)?;
    let (end, told) = (Some(End::Closed), Stop::Told(End::Closed));
    assert!(rt; ends(&rt, alloc, source, end, told, Why::End)?);
    Ok(())
}

// A body, and behind it the end of the link.
fn order<R: Wait>(rt: &R, alloc: Global, hub: &mut HubEnds) -> Result<bool, Fail> {
    let body = Order::Body(Body::new(b"{}".to_vec(alloc)?));
    Ok(hub.push(rt, body).is_ok() && hub.push(rt, Order::Close).is_ok())
}

// What is written of the orders; None where the session was cut off, or its writing failed.
fn write<R: Wait>(rt: &R, alloc: Global, out: &mut LaneOut) -> Option<MemSink> {
    let mut sink = MemSink::new(alloc, Vec::new(alloc), None);
    let wrote = write_session(rt, alloc, &Always { end: None }, &mut sink, out);
    if wrote.cut || wrote.broke {
        return None;
    }
    Some(sink)
}

#[test]
fn ordered_bodies_are_written(rt: HostRuntime) -> Result<(), Fail> {
    let alloc = rt.alloc();
    let (_inn, mut out, mut hub) = Lane::new(alloc)?;
    assert!(rt; order(&rt, alloc, &mut hub)?);
    let frame = b"Content-Length: 2\r\n\r\n{}".as_slice();
    assert!(rt; matches!(write(&rt, alloc, &mut out), Some(sink) if sink.bytes() == frame));
    assert!(rt; hub.next_side(&rt) == Some(Side::Wrote));
    Ok(())
}

// A core that goes on no more.
#[derive(Drop)]
struct Over;

impl Core for Over {
    fn pump<R: Wait>(&self, rt: &R) -> bool {
        false
    }

    fn sleep<R: Wait>(&self, rt: &R) {}

    fn ended(&self) -> Option<End> {
        None
    }
}

// Whether the core was asked to go on between a body of so many bytes and the end of the link.
fn asks<R: Wait>(rt: &R, alloc: Global, bytes: usize) -> Result<bool, Fail> {
    let (_inn, mut out, mut hub) = Lane::new(alloc)?;
    let mut body = Vec::new(alloc);
    body.resize(bytes, b'x')?;
    let body = Order::Body(Body::new(body));
    let ordered = hub.push(rt, body).is_ok() && hub.push(rt, Order::Close).is_ok();
    let mut sink = MemSink::new(alloc, Vec::new(alloc), None);
    let wrote = write_session(rt, alloc, &Over, &mut sink, &mut out);
    Ok(ordered && wrote.cut)
}

#[test]
fn the_core_goes_on_behind_a_mebibyte(rt: HostRuntime) -> Result<(), Fail> {
    let alloc = rt.alloc();
    assert!(rt; asks(&rt, alloc, 1_048_576)?);
    assert!(rt; !asks(&rt, alloc, 1_048_575)?);
    Ok(())
}
