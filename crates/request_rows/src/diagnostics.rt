use crate::texts::read;
use diagnostics_route::{Agreement, LastList, Lists, fits, published, shown};
use message_body::Memory;
use std::alloc::Global;
use std::test::Fail;

const FIRST: &str =
    r#"{"jsonrpc":"2.0","method":"textDocument/publishDiagnostics","params":{"uri":"file:///u","version":1,"diagnostics":[{}]}}"#;

const OWN: &str =
    r#"{"jsonrpc":"2.0","method":"textDocument/publishDiagnostics","params":{"uri":"file:///u","version":5,"diagnostics":[{}]}}"#;

const PLAIN: &str =
    r#"{"jsonrpc":"2.0","method":"textDocument/publishDiagnostics","params":{"uri":"file:///u","diagnostics":[{}]}}"#;

const OTHER: &str =
    r#"{"jsonrpc":"2.0","method":"textDocument/publishDiagnostics","params":{"uri":"file:///v","version":1.5,"diagnostics":[{}]}}"#;

const NONE: &str =
    r#"{"jsonrpc":"2.0","method":"textDocument/publishDiagnostics","params":{"diagnostics":[],"uri":"file:\/\/\/u"}}"#;

// Whether a list that came behind three notifications, of version 1, fits as it should.
fn are_right(list: &LastList) -> bool {
    fits(list, Agreement::NotOpen)
        && !fits(list, Agreement::Differs)
        && fits(list, agrees(1, 3))
        && !fits(list, agrees(1, 4))
        && !fits(list, agrees(2, 3))
}

fn agrees(held: u32, changed: u128) -> Agreement {
    Agreement::Agrees { held, changed }
}

// Whether the list of a body that came behind three notifications fits as it should.
fn fits_rightly(alloc: Global, body: &str) -> Result<bool, Memory> {
    let Some(message) = read(alloc, body) else {
        return Ok(false);
    };
    match published(alloc, &message, 3)? {
        Some(list) => Ok(are_right(&list)),
        None => Ok(false),
    }
}

// Whether an editor with this version of the document is shown a body so.
fn is_shown(alloc: Global, body: &str, own: Option<&[u8]>, so: &str) -> Result<bool, Memory> {
    match read(alloc, body) {
        Some(message) => Ok(shown(alloc, &message, own)?.bytes() == so.as_bytes()),
        None => Ok(false),
    }
}

#[test]
fn a_list_is_shown_with_the_own_version(rt: HostRuntime) -> Result<(), Fail> {
    let alloc = rt.alloc();
    assert!(rt; fits_rightly(alloc, FIRST)?);
    assert!(rt; is_shown(alloc, FIRST, Some(b"5"), OWN)?);
    assert!(rt; is_shown(alloc, FIRST, None, PLAIN)?);
    assert!(rt; is_shown(alloc, OTHER, Some(b"5"), OTHER)?);
    Ok(())
}

// The number of the document whose list a body gives, which is its last one from then on.
fn take(alloc: Global, lists: &mut Lists, body: &str) -> Result<Option<u64>, Memory> {
    let Some(message) = read(alloc, body) else {
        return Ok(None);
    };
    match published(alloc, &message, 0)? {
        Some(list) => Ok(Some(lists.take(list)?)),
        None => Ok(None),
    }
}

fn has_places(lists: &Lists, count: u64) -> bool {
    lists.count() == count && lists.get(count).is_none()
}

// The one list that isn't empty has this number.
fn is_alone(lists: &Lists, number: u64) -> Result<bool, Memory> {
    Ok(lists.nonempty()?.as_slice() == [number].as_slice())
}

fn is_at(lists: &Lists, uri: &[u8], number: u64) -> bool {
    lists.number_of(uri) == Some(number)
}

#[test]
fn an_empty_list_keeps_its_place(rt: HostRuntime) -> Result<(), Fail> {
    let alloc = rt.alloc();
    let mut lists = Lists::new(alloc);
    assert!(rt; take(alloc, &mut lists, FIRST)? == Some(0));
    assert!(rt; take(alloc, &mut lists, OTHER)? == Some(1));
    assert!(rt; take(alloc, &mut lists, NONE)? == Some(0));
    assert!(rt; has_places(&lists, 2));
    assert!(rt; is_alone(&lists, 1)?);
    assert!(rt; is_at(&lists, b"file:///v", 1));
    Ok(())
}
