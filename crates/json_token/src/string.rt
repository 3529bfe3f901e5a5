//! Strings (RFC 8259, section 7) in UTF-8 (RFC 3629, section 4), a byte at a time.
ghost use Rattle.std.specs.Prelude.{◌≡◌};
ghost use Rattle.json_text.specs.String.{is_hex, is_short};
ghost use Rattle.json_token.specs.StringMoves.{string_move, plain_move, lead_move, escape_move, digit_move, tail_move};

/// What of a string's current character has been read.
#[derive(Clone, Copy, Debug)]
pub enum Part {
    /// Nothing: a character begins here, or the string ends.
    Plain,
    /// A backslash.
    Escape,
    /// A backslash and `u`: four digits are due.
    Hex4,
    /// Three digits are due.
    Hex3,
    /// Two digits are due.
    Hex2,
    /// One digit is due.
    Hex1,
    /// One byte of UTF-8's tail is due.
    Tail1,
    /// Two bytes of UTF-8's tail are due.
    Tail2,
    /// Three bytes of UTF-8's tail are due.
    Tail3,
    /// The byte E0: of the two bytes that are due the first is at least A0.
    AfterE0,
    /// The byte ED: of the two bytes that are due the first is at most 9F.
    AfterEd,
    /// The byte F0: of the three bytes that are due the first is at least 90.
    AfterF0,
    /// The byte F4: of the three bytes that are due the first is at most 8F.
    AfterF4,
}

/// What a byte does to a string.
#[derive(Clone, Copy, Debug)]
pub enum Move {
    /// The string goes on, and the byte is its own.
    Goes(Part),
    /// The byte is the quotation mark that ends the string.
    Ends,
    /// No string goes on so.
    Stops,
}

/// What the next byte does to a string of which this part has been read.
#[inline(always)]
pub fn string_move(part: Part, byte: u8) -> Move
    ensures { result ≡ string_move part byte }
{
    match part {
        Part::Plain => plain_move(byte),
        Part::Escape => escape_move(byte),
        Part::Hex4 => digit_move(byte, Part::Hex3),
        Part::Hex3 => digit_move(byte, Part::Hex2),
        Part::Hex2 => digit_move(byte, Part::Hex1),
        Part::Hex1 => digit_move(byte, Part::Plain),
        Part::Tail1 => tail_move(byte, 0x80, 0xBF, Part::Plain),
        Part::Tail2 => tail_move(byte, 0x80, 0xBF, Part::Tail1),
        Part::Tail3 => tail_move(byte, 0x80, 0xBF, Part::Tail2),
        Part::AfterE0 => tail_move(byte, 0xA0, 0xBF, Part::Tail1),
        Part::AfterEd => tail_move(byte, 0x80, 0x9F, Part::Tail1),
        Part::AfterF0 => tail_move(byte, 0x90, 0xBF, Part::Tail2),
        Part::AfterF4 => tail_move(byte, 0x80, 0x8F, Part::Tail2),
    }
}

#[tactic(auto, unfolding(crate::specs::StringMoves::plain_move))]
#[inline(always)]
fn plain_move(byte: u8) -> Move
    ensures { result ≡ plain_move byte }
{
    match byte {
        b'"' => Move::Ends,
        b'\\' => Move::Goes(Part::Escape),
        0..=0x1F => Move::Stops,
        0x20..=0x7F => Move::Goes(Part::Plain),
        _ => lead_move(byte),
    }
}

// What a first byte of UTF-8 does that is no ASCII.
#[tactic(auto, unfolding(crate::specs::StringMoves::lead_move))]
fn lead_move(byte: u8) -> Move
    ensures { result ≡ lead_move byte }
{
    match byte {
        0xC2..=0xDF => Move::Goes(Part::Tail1),
        0xE0 => Move::Goes(Part::AfterE0),
        0xED => Move::Goes(Part::AfterEd),
        0xE1..=0xEF => Move::Goes(Part::Tail2),
        0xF0 => Move::Goes(Part::AfterF0),
        0xF4 => Move::Goes(Part::AfterF4),
        0xF1..=0xF3 => Move::Goes(Part::Tail3),
        _ => Move::Stops,
    }
}

fn escape_move(byte: u8) -> Move
    ensures { result ≡ escape_move byte }
{
    if byte == b'u' {
        Move::Goes(Part::Hex4)
    } else if is_short(byte) {
        Move::Goes(Part::Plain)
    } else {
        Move::Stops
    }
}

fn digit_move(byte: u8, next: Part) -> Move
    ensures { result ≡ digit_move byte next }
{
    if is_hex(byte) {
        Move::Goes(next)
    } else {
        Move::Stops
    }
}

fn tail_move(byte: u8, low: u8, high: u8, next: Part) -> Move
    ensures { result ≡ tail_move byte low high next }
{
    if low <= byte && byte <= high {
        Move::Goes(next)
    } else {
        Move::Stops
    }
}

// Whether the byte is one of the eight letters that may stand behind a backslash by themselves.
fn is_short(byte: u8) -> bool
    ensures { result ≡ is_short byte }
{
    matches!(byte, b'"' | b'\\' | b'/' | b'b' | b'f' | b'n' | b'r' | b't')
}

fn is_hex(byte: u8) -> bool
    ensures { result ≡ is_hex byte }
{
    matches!(byte, b'0'..=b'9' | b'A'..=b'F' | b'a'..=b'f')
}
