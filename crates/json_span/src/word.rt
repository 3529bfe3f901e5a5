//! The literal names of RFC 8259, section 3, a byte at a time.
ghost use Rattle.std.specs.Prelude.{◌≡◌};
ghost use Rattle.json_span.specs.Words.{word_move, goes_at, ends_at};

use json_text::Word;

/// What of a literal name has been read.
#[derive(Clone, Copy, Debug)]
pub enum Begun {
    N,
    Nu,
    Nul,
    F,
    Fa,
    Fal,
    Fals,
    T,
    Tr,
    Tru,
}

/// What a byte does to a literal name.
#[derive(Clone, Copy, Debug)]
pub enum WordMove {
    /// The name goes on.
    Goes(Begun),
    /// The byte is the name's last one.
    Ends(Word),
    /// No name goes on so.
    Stops,
}

fn goes_at(letter: u8, begun: Begun, byte: u8) -> WordMove
    ensures { result ≡ goes_at letter begun byte }
{
    if byte == letter {
        WordMove::Goes(begun)
    } else {
        WordMove::Stops
    }
}

fn ends_at(letter: u8, word: Word, byte: u8) -> WordMove
    ensures { result ≡ ends_at letter word byte }
{
    if byte == letter {
        WordMove::Ends(word)
    } else {
        WordMove::Stops
    }
}

/// What the next byte does to a literal name of which this has been read.
pub fn word_move(begun: Begun, byte: u8) -> WordMove
    ensures { result ≡ word_move begun byte }
{
    match begun {
        Begun::N => goes_at(b'u', Begun::Nu, byte),
        Begun::Nu => goes_at(b'l', Begun::Nul, byte),
        Begun::Nul => ends_at(b'l', Word::Null, byte),
        Begun::F => goes_at(b'a', Begun::Fa, byte),
        Begun::Fa => goes_at(b'l', Begun::Fal, byte),
        Begun::Fal => goes_at(b's', Begun::Fals, byte),
        Begun::Fals => ends_at(b'e', Word::False, byte),
        Begun::T => goes_at(b'r', Begun::Tr, byte),
        Begun::Tr => goes_at(b'u', Begun::Tru, byte),
        Begun::Tru => ends_at(b'e', Word::True, byte),
    }
}
