ghost use Rattle.std.specs.Prelude.{◌≡◌};

use lane_queue::{HubEnds, Lane, LaneIn, LaneOut, Order, Posted, Settled, Side, settle};
use message_body::Body;
use std::alloc::Global;
use std::process::Abort;
use std::sync::Wait;
use std::test::Fail;

// The next item is this body.
pub(crate) fn is_body<R: Wait>(rt: &R, hub: &mut HubEnds, bytes: &[u8]) -> bool {
    matches!(hub.next(rt), Some(Posted::Body(body)) if body.bytes() == bytes)
}

// Two items are posted, and come in their order, and no third one.
fn posted<R: Wait + Abort>(
    rt: &R,
    alloc: Global,
    inn: &mut LaneIn,
    hub: &mut HubEnds,
) -> Result<(), Fail>
    ensures inn { inn.new.queue ≡ inn.old.queue }
    ensures hub { hub.new.posted.queue ≡ hub.old.posted.queue }
    ensures others { (hub.new.sides ≡ hub.old.sides) × (hub.new.orders ≡ hub.old.orders) }
{
    let body = Body::new(Vec::from_slice(alloc, b"b")?);
    assert!(rt; inn.push(rt, Posted::Up).is_ok());
    assert!(rt; inn.push(rt, Posted::Body(body)).is_ok());
    assert!(rt; matches!(hub.next(rt), Some(Posted::Up)));
    assert!(rt;
        matches!(hub.next(rt), Some(Posted::Body(body)) if body.bytes() == b"b".as_slice())
    );
    assert!(rt; hub.next(rt).is_none());
    Ok(())
}

// An order is pushed, and comes once.
fn ordered<R: Wait + Abort>(rt: &R, out: &mut LaneOut, hub: &mut HubEnds)
    ensures out { (out.new.orders.queue ≡ out.old.orders.queue) × (out.new.sides ≡ out.old.sides) }
    ensures hub { hub.new.orders.queue ≡ hub.old.orders.queue }
    ensures others { (hub.new.posted ≡ hub.old.posted) × (hub.new.sides ≡ hub.old.sides) }
{
    assert!(rt; hub.push(rt, Order::Close).is_ok());
    assert!(rt; matches!(out.take(rt), Some(Order::Close)));
    assert!(rt; out.take(rt).is_none());
}

// Two side items are pushed, of which one is taken.
fn said<R: Wait + Abort>(rt: &R, out: &mut LaneOut, hub: &mut HubEnds)
    ensures out { (out.new.sides.queue ≡ out.old.sides.queue) × (out.new.orders ≡ out.old.orders) }
    ensures hub { hub.new.sides.queue ≡ hub.old.sides.queue }
    ensures others { (hub.new.posted ≡ hub.old.posted) × (hub.new.orders ≡ hub.old.orders) }
{
    assert!(rt; out.push(rt, Side::Wrote).is_ok());
    assert!(rt; out.push(rt, Side::Broke).is_ok());
    assert!(rt; matches!(hub.next_side(rt), Some(Side::Wrote)));
}

// So many items are left in the queues of what is posted, ordered and said aside.
fn has_left(settled: &Settled, posted: usize, orders: usize, sides: usize) -> bool {
    settled.posted_left() == posted
        && settled.orders_left() == orders
        && settled.sides_left() == sides
}

#[test]
fn items_come_once_and_in_order(rt: HostRuntime) -> Result<(), Fail> {
    let alloc = rt.alloc();
    let (mut inn, mut out, mut hub) = Lane::new(alloc)?;
    posted(&rt, alloc, &mut inn, &mut hub)?;
    ordered(&rt, &mut out, &mut hub);
    said(&rt, &mut out, &mut hub);
    assert!(rt; has_left(&settle(&rt, inn, out, hub), 0, 0, 1));
    Ok(())
}
