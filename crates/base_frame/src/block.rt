//! A header block, a byte at a time (LSP 3.17, Base Protocol, Header Part).
ghost use Rattle.std.specs.Prelude.{◌≡◌, slice_get, codes};
ghost use Rattle.base_frame.specs.Block.{is_name_byte, is_value_byte, is_space, is_digit, small, lettered, named, at_colon, at_start, in_value, at_digit, in_length, in_length_name, in_other_name, before_digits, after_digits, at_line_end, at_block_end, part_step, step};

/// Why bytes are no frames.
#[derive(Clone, Copy, Debug, PartialEq, Eq)]
pub enum BadWhy {
    /// A byte that may not stand there.
    Byte,
    /// A second `Content-Length`.
    TwoLengths,
    /// A header block with no `Content-Length`.
    NoLength,
    /// A length above the limit.
    TooLong,
    /// A header block of more than 4,096 bytes.
    LongHeader,
}

/// Where in a header block a byte stands.
#[derive(Clone, Copy, Debug)]
pub enum Part {
    /// At the front of a line.
    Start,
    /// In a name that so far is so many letters of `Content-Length`.
    LengthName(usize),
    /// In another name.
    OtherName,
    /// In the value of another field.
    Value,
    /// In the value of `Content-Length`, before its digits.
    Before,
    /// In its digits.
    Digits,
    /// Behind its digits.
    After,
    /// Behind the `\r` of a field line.
    LineEnd,
    /// Behind the `\r` of the empty line.
    BlockEnd,
}

/// What of a header block has been read.
#[derive(Clone, Copy, Debug)]
pub struct State {
    pub part: Part,
    /// The value of `Content-Length`, as far as it was read.
    pub length: Option<u32>,
}

/// What a byte does.
#[derive(Clone, Copy)]
pub enum Move {
    Goes(State),
    /// It ends the block; the content has so many bytes.
    Ends(u32),
    Bad(BadWhy),
}

/// What this byte, at this place of a header block, does.
#[tactic(auto, unfolding(crate::specs::Block::step))]
pub fn step(limit: u32, at: usize, byte: u8, state: State) -> Move
    ensures { result ≡ step limit at byte state }
{
    if at >= 4096 {
        Move::Bad(BadWhy::LongHeader)
    } else {
        part_step(limit, byte, state.length, state.part)
    }
}

fn part_step(limit: u32, byte: u8, length: Option<u32>, part: Part) -> Move
    ensures { result ≡ part_step limit byte length part }
{
    match part {
        Part::Start => at_start(byte, length),
        Part::LengthName(letters) => in_length_name(letters, byte, length),
        Part::OtherName => in_other_name(byte, length),
        Part::Value => in_value(byte, length),
        Part::Before => before_digits(limit, byte, length),
        Part::Digits => in_length(limit, byte, length),
        Part::After => after_digits(byte, length),
        Part::LineEnd => at_line_end(byte, length),
        Part::BlockEnd => at_block_end(byte, length),
    }
}

fn goes(part: Part, length: Option<u32>) -> Move
    ensures { result ≡ Move.Goes (record { part = part; length = length }) }
{
    Move::Goes(State { part, length })
}

// The front of a line: a name, or the empty line.
fn at_start(byte: u8, length: Option<u32>) -> Move
    ensures { result ≡ at_start byte length }
{
    if byte != b'\r' {
        named(0, byte, length)
    } else if length.is_none() {
        Move::Bad(BadWhy::NoLength)
    } else {
        goes(Part::BlockEnd, length)
    }
}

// A byte of a name that so far is so many letters of `Content-Length`.
fn named(letters: usize, byte: u8, length: Option<u32>) -> Move
    ensures { result ≡ named letters byte length }
{
    if !is_name_byte(byte) {
        Move::Bad(BadWhy::Byte)
    } else {
        lettered(letters, byte, length)
    }
}

fn lettered(letters: usize, byte: u8, length: Option<u32>) -> Move
    ensures { result ≡ lettered letters byte length }
{
    match letter(letters) {
        Some(wanted) if wanted == small(byte) && letters < 14 => goes(
            Part::LengthName(letters + 1),
            length,
        ),
        _ => goes(Part::OtherName, length),
    }
}

fn letter(letters: usize) -> Option<u8>
    ensures { result ≡ slice_get (codes "content-length") letters }
{
    b"content-length".get(letters).copied()
}

fn in_length_name(letters: usize, byte: u8, length: Option<u32>) -> Move
    ensures { result ≡ in_length_name letters byte length }
{
    if byte == b':' {
        at_colon(letters, length)
    } else {
        named(letters, byte, length)
    }
}

fn in_other_name(byte: u8, length: Option<u32>) -> Move
    ensures { result ≡ in_other_name byte length }
{
    if byte == b':' {
        goes(Part::Value, length)
    } else if is_name_byte(byte) {
        goes(Part::OtherName, length)
    } else {
        Move::Bad(BadWhy::Byte)
    }
}

// The colon behind so many letters of `Content-Length`.
fn at_colon(letters: usize, length: Option<u32>) -> Move
    ensures { result ≡ at_colon letters length }
{
    if letters != 14 {
        goes(Part::Value, length)
    } else if length.is_none() {
        goes(Part::Before, length)
    } else {
        Move::Bad(BadWhy::TwoLengths)
    }
}

fn in_value(byte: u8, length: Option<u32>) -> Move
    ensures { result ≡ in_value byte length }
{
    if byte == b'\r' {
        goes(Part::LineEnd, length)
    } else if is_value_byte(byte) {
        goes(Part::Value, length)
    } else {
        Move::Bad(BadWhy::Byte)
    }
}

fn before_digits(limit: u32, byte: u8, length: Option<u32>) -> Move
    ensures { result ≡ before_digits limit byte length }
{
    if is_space(byte) {
        goes(Part::Before, length)
    } else {
        at_digit(limit, byte, length)
    }
}

fn after_digits(byte: u8, length: Option<u32>) -> Move
    ensures { result ≡ after_digits byte length }
{
    if is_space(byte) {
        goes(Part::After, length)
    } else if byte == b'\r' {
        goes(Part::LineEnd, length)
    } else {
        Move::Bad(BadWhy::Byte)
    }
}

fn at_line_end(byte: u8, length: Option<u32>) -> Move
    ensures { result ≡ at_line_end byte length }
{
    if byte == b'\n' {
        goes(Part::Start, length)
    } else {
        Move::Bad(BadWhy::Byte)
    }
}

fn at_block_end(byte: u8, length: Option<u32>) -> Move
    ensures { result ≡ at_block_end byte length }
{
    if byte == b'\n' {
        Move::Ends(length.unwrap_or(0))
    } else {
        Move::Bad(BadWhy::Byte)
    }
}

// A digit of the length.
fn at_digit(limit: u32, byte: u8, length: Option<u32>) -> Move
    ensures { result ≡ at_digit limit byte length }
{
    if !is_digit(byte) {
        return Move::Bad(BadWhy::Byte);
    }
    let value = u64::from(length.unwrap_or(0)) * 10 + u64::from(byte - b'0');
    if value > u64::from(limit) {
        Move::Bad(BadWhy::TooLong)
    } else {
        goes(Part::Digits, Some(value as u32))
    }
}

// A byte behind a digit of the length.
fn in_length(limit: u32, byte: u8, length: Option<u32>) -> Move
    ensures { result ≡ in_length limit byte length }
{
    if byte == b'\r' {
        goes(Part::LineEnd, length)
    } else if is_space(byte) {
        goes(Part::After, length)
    } else {
        at_digit(limit, byte, length)
    }
}

fn is_name_byte(byte: u8) -> bool
    ensures { result ≡ is_name_byte byte }
{
    (0x21..=0x7E).contains(&byte) && byte != b':'
}

fn is_value_byte(byte: u8) -> bool
    ensures { result ≡ is_value_byte byte }
{
    byte == b'\t' || byte >= 0x20 && byte != 0x7F
}

fn is_space(byte: u8) -> bool
    ensures { result ≡ is_space byte }
{
    byte == b' ' || byte == b'\t'
}

fn is_digit(byte: u8) -> bool
    ensures { result ≡ is_digit byte }
{
    (b'0'..=b'9').contains(&byte)
}

// An ASCII letter in small.
fn small(byte: u8) -> u8
    ensures { result ≡ small byte }
{
    if (b'A'..=b'Z').contains(&byte) {
        byte + 32
    } else {
        byte
    }
}
