use crate::texts::text;
use progress_route::{Due, Handed, Kind, Tokens};
use std::alloc::Global;
use std::test::Fail;

fn has(handed: Option<Handed>, token: u64, count: usize) -> bool {
    match handed {
        Some(handed) => handed.token == token && handed.bodies.len() == count,
        None => false,
    }
}

fn is_due(due: Option<Due>, token: u64, editors: &[u64]) -> bool {
    match due {
        Some(due) => due.token == token && due.editors.as_slice() == editors,
        None => false,
    }
}

fn create(alloc: Global, tokens: &mut Tokens, token: &[u8]) -> Result<u64, Fail> {
    Ok(tokens.create(text(alloc, token)?)?)
}

fn ask(tokens: &mut Tokens, token: u64, number: u128) -> Result<(), Fail> {
    tokens.ask(token, 5, number)?;
    Ok(())
}

// A token, of which editor 5 was asked under this number.
fn asked(alloc: Global, token: &[u8], number: u128) -> Result<Tokens, Fail> {
    let mut tokens = Tokens::new(alloc);
    let created = create(alloc, &mut tokens, token)?;
    ask(&mut tokens, created, number)?;
    Ok(tokens)
}

// A body of a token comes, and isn't due to anyone.
fn is_held(alloc: Global, tokens: &mut Tokens, token: &[u8], kind: Kind) -> Result<bool, Fail> {
    let body = text(alloc, b"{}")?;
    Ok(is_due(tokens.take(token, &body, kind)?, 1, &[]))
}

fn is_number(tokens: &Tokens, number: u128) -> Result<bool, Fail> {
    Ok(tokens.numbers_of(5)?.as_slice() == [number].as_slice())
}

// The answer of editor 5 hands out so many bodies of the first token.
fn hands_out(tokens: &mut Tokens, number: u128, count: usize) -> Result<bool, Fail> {
    Ok(has(tokens.answer(5, number, true)?, 1, count))
}

fn has_begun(tokens: &Tokens) -> bool {
    tokens.has_accepted(1, 5) && tokens.has_begun(1, 5)
}

fn all_begun(tokens: &Tokens) -> Result<bool, Fail> {
    Ok(tokens.all()?.as_slice() == [(1, true)].as_slice())
}

#[test]
fn what_comes_before_an_answer_is_held(rt: HostRuntime) -> Result<(), Fail> {
    let alloc = rt.alloc();
    let mut tokens = asked(alloc, b"\"a\"", 9)?;
    assert!(rt; is_held(alloc, &mut tokens, b"\"\\u0061\"", Kind::Begin)?);
    assert!(rt; is_number(&tokens, 9)?);
    assert!(rt; hands_out(&mut tokens, 9, 1)?);
    assert!(rt; has_begun(&tokens) && all_begun(&tokens)?);
    Ok(())
}

#[test]
fn only_an_end_is_held_behind_many(rt: HostRuntime) -> Result<(), Fail> {
    let alloc = rt.alloc();
    let mut tokens = asked(alloc, b"1", 1)?;
    for _ in 0..1025 {
        assert!(rt; is_held(alloc, &mut tokens, b"1", Kind::Other)?);
    }
    assert!(rt; is_held(alloc, &mut tokens, b"1", Kind::End)?);
    assert!(rt; hands_out(&mut tokens, 1, 1025)?);
    Ok(())
}

fn is_live(tokens: &Tokens, token: &[u8]) -> bool {
    tokens.is_live(token)
}

// Editor 5 leaves, and its answer hands out nothing of the first token, which stays.
fn leaves(tokens: &mut Tokens) -> Result<bool, Fail> {
    tokens.leave(5);
    Ok(tokens.answer(5, 1, true)?.is_none() && tokens.text_of(1).is_some())
}

#[test]
fn a_number_is_no_string(rt: HostRuntime) -> Result<(), Fail> {
    let alloc = rt.alloc();
    let mut tokens = asked(alloc, b"0", 1)?;
    assert!(rt; is_live(&tokens, b"0"));
    assert!(rt; !is_live(&tokens, b"\"0\"") && !is_live(&tokens, b"-0"));
    assert!(rt; leaves(&mut tokens)?);
    tokens.over();
    assert!(rt; create(alloc, &mut tokens, b"\"0\"")? == 1);
    Ok(())
}
