// A deck over a small core, on one thread.
use lane_echo::{Begin, Ran, run};
use lane_lists::{Order, Posted};
use message_body::Body;
use mux_history::Why;
use std::alloc::Global;
use std::sync::Wait;
use std::test::Fail;

// What a deck leaves that these items were posted to.
fn play<R: Wait>(rt: &R, alloc: Global, items: Vec<Posted>, begin: Begin) -> Result<Ran, Fail> {
    match run(rt, alloc, items, begin) {
        Some(ran) => Ok(ran),
        None => Err(Fail::new("no memory")),
    }
}

// A link, a body and its end.
fn session(alloc: Global, bytes: &[u8]) -> Result<Vec<Posted>, Fail> {
    let body = Body::new(Vec::from_slice(alloc, bytes)?);
    let mut items = Vec::new(alloc);
    items.push(Posted::Link)?;
    items.push(Posted::Body(body))?;
    items.push(Posted::Ended(Why::End))?;
    Ok(items)
}

#[test]
fn a_session_gets_its_bodies_back(rt: HostRuntime) -> Result<(), Fail> {
    let alloc = rt.alloc();
    let ran = play(&rt, alloc, session(alloc, b"hover")?, Begin::Fresh)?;
    let is_so = !ran.spent && ran.echo.joined() == 1;
    assert!(rt; is_so && matches!(ran.orders.as_slice(), [Order::Body(_), Order::Done]));
    Ok(())
}

// A deck that begins so does nothing with this item, and its work ends.
fn ends<R: Wait>(rt: &R, alloc: Global, item: Posted, begin: Begin) -> Result<bool, Fail> {
    let mut items = Vec::new(alloc);
    items.push(item)?;
    let ran = play(rt, alloc, items, begin)?;
    Ok(ran.spent && ran.echo.joined() == 0 && ran.orders.is_empty())
}

#[test]
fn an_item_out_of_its_place_or_a_failed_lane_ends_the_work(rt: HostRuntime) -> Result<(), Fail> {
    let alloc = rt.alloc();
    assert!(rt; ends(&rt, alloc, Posted::Up, Begin::Fresh)?);
    assert!(rt; ends(&rt, alloc, Posted::Link, Begin::Failed)?);
    Ok(())
}
