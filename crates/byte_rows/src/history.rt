use message_body::Body;
use mux_history::{Cause, Entry, Out, Outs};
use mux_steps::{DropJournal, Journal, JournalFault, MemJournal};
use std::alloc::{AllocError, Global};
use std::test::Fail;

fn entry(alloc: Global, text: &str) -> Result<Entry, AllocError> {
    let mut outs = Outs::new(alloc);
    let body = Body::new(Vec::from_slice(alloc, text.as_bytes())?);
    if outs.push(Out::ToServer(0, body)).is_err() {
        return Err(AllocError);
    }
    Ok(Entry {
        cause: Cause::Started(0),
        outs,
    })
}

#[test]
fn outs_stand_in_their_order(rt: HostRuntime) -> Result<(), Fail> {
    let alloc = rt.alloc();
    let mut outs = Outs::new(alloc);
    assert!(rt; outs.is_empty());
    outs.push(Out::Spawn(0, 0))?;
    let mut more = Outs::new(alloc);
    more.push(Out::CloseEditor(1))?;
    more.push(Out::EndServer(0))?;
    outs.append(more)?;
    let copied = outs.copy(alloc)?;
    assert_eq!(rt; copied.len(), 3);
    assert!(rt; matches!(copied.get(0), Some(Out::Spawn(0, 0))));
    assert!(rt; matches!(copied.get(1), Some(Out::CloseEditor(1))));
    assert!(rt; matches!(copied.as_slice(), [_, _, Out::EndServer(0)]));
    assert!(rt; copied.get(3).is_none());
    assert_eq!(rt; copied.into_vec().len(), 3);
    Ok(())
}

#[test]
fn a_journal_keeps_what_it_did_not_fail_at(rt: HostRuntime) -> Result<(), Fail> {
    let alloc = rt.alloc();
    let mut journal = MemJournal::new(alloc, vec![in alloc; 1]?);
    assert_eq!(rt; journal.append(&entry(alloc, "a")?), Ok(()));
    assert_eq!(rt;
        journal.append(&entry(alloc, "b")?),
        Err(JournalFault::Failed)
    );
    assert_eq!(rt; journal.append(&entry(alloc, "c")?), Ok(()));
    let mut texts = Vec::new(alloc);
    for entry in journal.entries() {
        if let Some(Out::ToServer(_, body)) = entry.outs.get(0) {
            texts.extend_from_slice(body.bytes())?;
        }
    }
    assert_eq!(rt; texts.as_slice(), b"ac".as_slice());
    Ok(())
}

#[test]
fn a_journal_that_keeps_nothing_takes_all(rt: HostRuntime) -> Result<(), Fail> {
    let mut journal = DropJournal::new();
    assert_eq!(rt; journal.append(&entry(rt.alloc(), "a")?), Ok(()));
    Ok(())
}
