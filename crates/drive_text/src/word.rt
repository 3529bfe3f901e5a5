// The words of a line.
ghost use Rattle.std.specs.Prelude.{◌≡◌};
ghost use Rattle.drive_text.specs.Causes.{word_of, why_of};
ghost use Rattle.drive_text.specs.OutForms.{out_word_of};

use mux_history::Why;

/// The first word of a line that writes a cause.
#[derive(Clone, Copy, Debug, PartialEq, Eq)]
pub enum Word {
    Join,
    Ed,
    Gone,
    Up,
    NoStart,
    Sv,
    Exit,
    Drained,
    Tick,
}

/// The word that a line begins with, by its letters; none for any other.
pub fn word_of(text: &[u8]) -> Option<Word>
    ensures { result ≡ word_of text.now }
{
    if text == b"join".as_slice() {
        Some(Word::Join)
    } else if text == b"ed".as_slice() {
        Some(Word::Ed)
    } else if text == b"gone".as_slice() {
        Some(Word::Gone)
    } else if text == b"up".as_slice() {
        Some(Word::Up)
    } else if text == b"nostart".as_slice() {
        Some(Word::NoStart)
    } else if text == b"sv".as_slice() {
        Some(Word::Sv)
    } else if text == b"exit".as_slice() {
        Some(Word::Exit)
    } else if text == b"drained".as_slice() {
        Some(Word::Drained)
    } else if text == b"tick".as_slice() {
        Some(Word::Tick)
    } else {
        None
    }
}

/// Why an editor's link ended, by the word of a `gone` line: `end`, `read`, `write` or `frame`; none for any other.
pub fn why_of(text: &[u8]) -> Option<Why>
    ensures { result ≡ why_of text.now }
{
    match text {
        b"end" => Some(Why::End),
        b"read" => Some(Why::ReadFault),
        b"write" => Some(Why::WriteFault),
        b"frame" => Some(Why::BadFrame),
        _ => None,
    }
}

/// The first word of a line that writes an out.
#[derive(Clone, Copy, Debug, PartialEq, Eq)]
pub enum OutWord {
    Ed,
    Sv,
    Spawn,
    Close,
    End,
}

/// The word that an out's line begins with, by its letters; none for any other.
pub fn out_word_of(text: &[u8]) -> Option<OutWord>
    ensures { result ≡ out_word_of text.now }
{
    if text == b">ed".as_slice() {
        Some(OutWord::Ed)
    } else if text == b">sv".as_slice() {
        Some(OutWord::Sv)
    } else if text == b">spawn".as_slice() {
        Some(OutWord::Spawn)
    } else if text == b">close".as_slice() {
        Some(OutWord::Close)
    } else if text == b">end".as_slice() {
        Some(OutWord::End)
    } else {
        None
    }
}
