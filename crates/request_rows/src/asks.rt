use crate::texts::text;
use ask_route::Asks;
use std::alloc::Global;
use std::test::Fail;

fn park(alloc: Global, asks: &mut Asks, id: &[u8]) -> Result<(), Fail> {
    let (id, body) = (text(alloc, id)?, text(alloc, b"{}")?);
    asks.park(id, body)?;
    Ok(())
}

fn ask(alloc: Global, asks: &mut Asks, editor: u64, number: u128, id: &[u8]) -> Result<(), Fail> {
    let id = text(alloc, id)?;
    asks.ask(editor, number, id)?;
    Ok(())
}

fn is_parked(asks: &Asks, id: &[u8]) -> bool {
    asks.is_open(id) && asks.find(id).is_none()
}

fn is_number_of(asks: &Asks, editor: u64, number: u128) -> Result<bool, Fail> {
    Ok(asks.numbers_of(editor)?.as_slice() == [number].as_slice())
}

// An editor leaves, and one ask with it, which was under this id.
fn leaves(asks: &mut Asks, editor: u64, id: &[u8]) -> Result<bool, Fail> {
    Ok(asks.leave(editor)?.len() == 1 && asks.find(id).is_none())
}

// One ask was parked, under this id.
fn is_taken(asks: &mut Asks, id: &[u8]) -> Result<bool, Fail> {
    Ok(asks.take_parked()?.len() == 1 && !asks.is_open(id))
}

fn is_over(asks: &mut Asks, id: &[u8]) -> bool {
    asks.over();
    !asks.is_open(id)
}

#[test]
fn parked_asks_wait_and_others_leave(rt: HostRuntime) -> Result<(), Fail> {
    let alloc = rt.alloc();
    let mut asks = Asks::new(alloc);
    park(alloc, &mut asks, b"1")?;
    ask(alloc, &mut asks, 5, 9, b"2")?;
    ask(alloc, &mut asks, 6, 1, b"3")?;
    assert!(rt; is_parked(&asks, b"1"));
    assert!(rt; is_number_of(&asks, 5, 9)?);
    assert!(rt; leaves(&mut asks, 5, b"2")?);
    assert!(rt; is_taken(&mut asks, b"1")?);
    assert!(rt; is_over(&mut asks, b"3"));
    Ok(())
}
