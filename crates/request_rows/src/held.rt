use crate::texts::text;
use held_requests::Held;
use std::alloc::Global;
use std::test::Fail;

// A request of an editor waits, where one more may.
fn put(alloc: Global, held: &mut Held, editor: u64, id: &[u8], body: &[u8]) -> Result<bool, Fail> {
    let (id, body) = (text(alloc, id)?, text(alloc, body)?);
    if !held.takes(editor, body.bytes().len()) {
        return Ok(false);
    }
    held.put(editor, id, body)?;
    Ok(true)
}

// Of whom the first one is, and what.
fn pops(held: &mut Held, editor: u64, body: &[u8]) -> bool {
    match held.pop() {
        Some(request) => request.editor == editor && request.body.bytes() == body,
        None => false,
    }
}

fn is_empty(held: &mut Held) -> bool {
    held.pop().is_none()
}

fn is_first(held: &Held, body: &[u8]) -> bool {
    match held.first() {
        Some(request) => request.body.bytes() == body,
        None => false,
    }
}

fn waits(held: &Held, editor: u64, id: &[u8]) -> bool {
    held.find(editor, id).is_some()
}

fn cancels(held: &mut Held, editor: u64, id: &[u8]) -> bool {
    held.cancel(editor, id)
}

fn has(held: &Held, editor: u64, count: usize) -> Result<bool, Fail> {
    Ok(held.of_editor(editor)?.len() == count)
}

// Three requests of two editors.
fn three(alloc: Global) -> Result<Held, Fail> {
    let mut held = Held::new(alloc);
    for (editor, id, body) in [
        (0, b"1".as_slice(), b"a"),
        (1, b"\"x\"", b"b"),
        (0, b"2", b"c"),
    ] {
        if !put(alloc, &mut held, editor, id, body)? {
            return Err(Fail::new("no room"));
        }
    }
    Ok(held)
}

#[test]
fn requests_are_found_while_they_wait(rt: HostRuntime) -> Result<(), Fail> {
    let held = three(rt.alloc())?;
    assert!(rt; has(&held, 0, 2)?);
    assert!(rt; !waits(&held, 0, b"\"x\""));
    assert!(rt; waits(&held, 1, b"\"\\u0078\""));
    assert!(rt; is_first(&held, b"a"));
    Ok(())
}

#[test]
fn requests_wait_until_they_are_sent(rt: HostRuntime) -> Result<(), Fail> {
    let mut held = three(rt.alloc())?;
    assert!(rt; !cancels(&mut held, 0, b"\"x\""));
    assert!(rt; cancels(&mut held, 1, b"\"\\u0078\""));
    assert!(rt; pops(&mut held, 0, b"a"));
    assert!(rt; pops(&mut held, 0, b"c"));
    assert!(rt; is_empty(&mut held));
    Ok(())
}

fn takes(held: &Held, editor: u64, bytes: usize) -> bool {
    held.takes(editor, bytes)
}

fn clear(held: &mut Held, editor: u64) {
    held.clear(editor);
}

#[test]
fn of_an_editor_256_wait(rt: HostRuntime) -> Result<(), Fail> {
    let alloc = rt.alloc();
    let mut held = Held::new(alloc);
    for _ in 0..256 {
        assert!(rt; put(alloc, &mut held, 3, b"1", b"a")?);
    }
    assert!(rt; !takes(&held, 3, 0));
    assert!(rt; takes(&held, 4, 16_777_216) && !takes(&held, 4, 16_777_217));
    clear(&mut held, 3);
    assert!(rt; takes(&held, 3, 16_777_216) && is_empty(&mut held));
    Ok(())
}
