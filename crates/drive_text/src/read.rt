// Cause lines.
ghost use Rattle.std.specs.Prelude.{◌≡◌, ℕ, Option, Some, None, IfOk, MatchOption, nat_eq, position};
ghost use Rattle.drive_text.specs.Causes.{Cut, cut_of, Numbered, numbered, with_number, cause_by, cause_of};
ghost use Rattle.mux_history.specs.declared.cause.Cause.{Cause};
ghost use Rattle.mux_history.specs.declared.cause.Cause.TheVariants.{FromEditor, EditorGone, FromServer, Drained};
ghost use Rattle.drive_text.specs.Marks.{body_of_text};
ghost use Rattle.drive_text.specs.Numbers.{with_digit, is_padded, number_of};
ghost use Rattle.drive_text.specs.Causes.{why_of};

use crate::marks::body_of_text;
use crate::word::{Word, why_of, word_of};
use message_body::Memory;
use mux_history::Cause;
use std::alloc::Global;

// The number with one more digit.
fn with_digit(number: u64, digit: u8) -> Option<u64>
    ensures { result ≡ with_digit number digit }
{
    if !digit.is_ascii_digit() {
        return None;
    }
    number.checked_mul(10)?.checked_add(u64::from(digit - b'0'))
}

// Empty, or a zero before other digits.
fn is_padded(text: &[u8]) -> bool
    ensures { result ≡ is_padded text.now }
{
    match text {
        [] => true,
        [_] => false,
        [first, ..] => *first == b'0',
    }
}

pub(crate) fn number_of(text: &[u8]) -> Option<u64>
    ensures { result ≡ number_of text.now }
{
    if is_padded(text) {
        return None;
    }
    let mut number = 0;
    for digit in text {
        let Some(next) = with_digit(number, *digit) else {
            return None;
        };
        number = next;
    }
    Some(number)
}

fn first_space(text: &[u8]) -> Option<usize>
    ensures { result ≡ position (λ b. nat_eq b 32) text.now }
{
    text.iter().position(|b| *b == b' ')
}

// What stands before and behind the first space.
pub(crate) fn cut_of(text: &[u8]) -> Option<(&[u8], &[u8])>
    ensures { MatchOption result (cut_of text.now ≡ None) (λ cut. cut_of text.now ≡ Some (record { front = cut.0.now; back = cut.1.now })) }
{
    match first_space(text) {
        Some(space) => Some((&text[..space], &text[space + 1..])),
        None => None,
    }
}

// A number, and what stands behind it and a space.
pub(crate) fn numbered(text: &[u8]) -> Option<(u64, &[u8])>
    ensures { MatchOption result (numbered text.now ≡ None) (λ cut. numbered text.now ≡ Some (record { number = cut.0; back = cut.1.now })) }
{
    let (front, back) = cut_of(text)?;
    Some((number_of(front)?, back))
}

fn from_editor(alloc: Global, text: &[u8]) -> Result<Option<Cause>, Memory>
    ensures { IfOk result (λ cause. cause ≡ with_number body_of_text FromEditor text.now) }
{
    let Some((editor, back)) = numbered(text) else {
        return Ok(None);
    };
    Ok(body_of_text(alloc, back)?.map(|body| Cause::FromEditor(editor, body)))
}

fn from_server(alloc: Global, text: &[u8]) -> Result<Option<Cause>, Memory>
    ensures { IfOk result (λ cause. cause ≡ with_number body_of_text FromServer text.now) }
{
    let Some((start, back)) = numbered(text) else {
        return Ok(None);
    };
    Ok(body_of_text(alloc, back)?.map(|body| Cause::FromServer(start, body)))
}

fn editor_gone(text: &[u8]) -> Option<Cause>
    ensures { result ≡ with_number why_of EditorGone text.now }
{
    let (editor, back) = numbered(text)?;
    Some(Cause::EditorGone(editor, why_of(back)?))
}

fn drained(text: &[u8]) -> Option<Cause>
    ensures { result ≡ with_number number_of Drained text.now }
{
    let (editor, back) = numbered(text)?;
    Some(Cause::Drained(editor, number_of(back)?))
}

// What the text behind the word and its space says.
fn cause_by(alloc: Global, word: Word, text: &[u8]) -> Result<Option<Cause>, Memory>
    ensures { IfOk result (λ cause. cause ≡ cause_by word text.now) }
{
    match word {
        Word::Join => Ok(number_of(text).map(Cause::Joined)),
        Word::Ed => from_editor(alloc, text),
        Word::Gone => Ok(editor_gone(text)),
        Word::Up => Ok(number_of(text).map(Cause::Started)),
        Word::NoStart => Ok(number_of(text).map(Cause::StartFailed)),
        Word::Sv => from_server(alloc, text),
        Word::Exit => Ok(number_of(text).map(Cause::ServerGone)),
        Word::Drained => Ok(drained(text)),
        Word::Tick => Ok(number_of(text).map(Cause::Tick)),
    }
}

/// The cause that a line writes, without its line feed; none where it is in no form. The time is linear in the line.
pub fn cause_of(alloc: Global, line: &[u8]) -> Result<Option<Cause>, Memory>
    ensures { IfOk result (λ cause. cause ≡ cause_of line.now) }
{
    let Some((front, back)) = cut_of(line) else {
        return Ok(None);
    };
    let Some(word) = word_of(front) else {
        return Ok(None);
    };
    cause_by(alloc, word, back)
}
