//! Numbers (RFC 8259, section 6), a byte at a time.
ghost use Rattle.std.specs.Prelude.{◌≡◌};
ghost use Rattle.json_token.specs.Runs.{takes_digits};
ghost use Rattle.json_token.specs.NumberMoves.{number_byte, number_begin, number_move, number_may_end, after_minus, after_zero, after_whole, after_point, after_fraction, after_letter, after_sign, after_exponent};

/// What of a number has been read.
#[derive(Clone, Copy, Debug)]
pub enum NumberPart {
    /// The minus sign.
    Minus,
    /// A zero that stands alone in front.
    Zero,
    /// Digits in front, the first of which is no zero.
    Whole,
    /// The decimal point.
    Point,
    /// Digits behind the decimal point.
    Fraction,
    /// The letter of the exponent.
    Letter,
    /// The sign of the exponent.
    Sign,
    /// Digits of the exponent.
    Exponent,
}

/// What a byte does to a number.
#[derive(Clone, Copy, Debug)]
pub enum NumberMove {
    /// The number goes on, and the byte is its own.
    Goes(NumberPart),
    /// The number stands, and the byte comes behind it.
    Ends,
    /// No number goes on so.
    Stops,
}

/// What a byte is to a number.
#[derive(Clone, Copy, Debug)]
pub enum NumberByte {
    Zero,
    OneToNine,
    Point,
    Letter,
    Plus,
    Minus,
    Other,
}

#[tactic(auto, unfolding(crate::specs::NumberMoves::number_byte))]
#[inline(always)]
fn number_byte(byte: u8) -> NumberByte
    ensures { result ≡ number_byte byte }
{
    match byte {
        b'0' => NumberByte::Zero,
        b'1'..=b'9' => NumberByte::OneToNine,
        b'.' => NumberByte::Point,
        b'e' | b'E' => NumberByte::Letter,
        b'+' => NumberByte::Plus,
        b'-' => NumberByte::Minus,
        _ => NumberByte::Other,
    }
}

/// The part that a number's first byte begins, if a number may begin with it.
#[inline(always)]
pub fn number_begin(byte: u8) -> Option<NumberPart>
    ensures { result ≡ number_begin byte }
{
    match number_byte(byte) {
        NumberByte::Minus => Some(NumberPart::Minus),
        NumberByte::Zero => Some(NumberPart::Zero),
        NumberByte::OneToNine => Some(NumberPart::Whole),
        _ => None,
    }
}

/// What the next byte does to a number of which this part has been read.
pub fn number_move(part: NumberPart, byte: u8) -> NumberMove
    ensures { result ≡ number_move part byte }
{
    let byte = number_byte(byte);
    match part {
        NumberPart::Minus => after_minus(byte),
        NumberPart::Zero => after_zero(byte),
        NumberPart::Whole => after_whole(byte),
        NumberPart::Point => after_point(byte),
        NumberPart::Fraction => after_fraction(byte),
        NumberPart::Letter => after_letter(byte),
        NumberPart::Sign => after_sign(byte),
        NumberPart::Exponent => after_exponent(byte),
    }
}

/// Whether a number may end after this part.
pub fn number_may_end(part: NumberPart) -> bool
    ensures { result ≡ number_may_end part }
{
    match part {
        NumberPart::Zero | NumberPart::Whole | NumberPart::Fraction | NumberPart::Exponent => true,
        NumberPart::Minus | NumberPart::Point | NumberPart::Letter | NumberPart::Sign => false,
    }
}

/// Whether one more digit leaves a number of which this part has been read at this part.
#[inline(always)]
pub fn takes_digits(part: NumberPart) -> bool
    ensures { result ≡ takes_digits part }
{
    match part {
        NumberPart::Whole | NumberPart::Fraction | NumberPart::Exponent => true,
        NumberPart::Minus
        | NumberPart::Zero
        | NumberPart::Point
        | NumberPart::Letter
        | NumberPart::Sign => false,
    }
}

fn after_minus(byte: NumberByte) -> NumberMove
    ensures { result ≡ after_minus byte }
{
    match byte {
        NumberByte::Zero => NumberMove::Goes(NumberPart::Zero),
        NumberByte::OneToNine => NumberMove::Goes(NumberPart::Whole),
        _ => NumberMove::Stops,
    }
}

fn after_zero(byte: NumberByte) -> NumberMove
    ensures { result ≡ after_zero byte }
{
    match byte {
        NumberByte::Point => NumberMove::Goes(NumberPart::Point),
        NumberByte::Letter => NumberMove::Goes(NumberPart::Letter),
        NumberByte::Other => NumberMove::Ends,
        _ => NumberMove::Stops,
    }
}

fn after_whole(byte: NumberByte) -> NumberMove
    ensures { result ≡ after_whole byte }
{
    match byte {
        NumberByte::Zero | NumberByte::OneToNine => NumberMove::Goes(NumberPart::Whole),
        NumberByte::Point => NumberMove::Goes(NumberPart::Point),
        NumberByte::Letter => NumberMove::Goes(NumberPart::Letter),
        NumberByte::Other => NumberMove::Ends,
        _ => NumberMove::Stops,
    }
}

fn after_point(byte: NumberByte) -> NumberMove
    ensures { result ≡ after_point byte }
{
    match byte {
        NumberByte::Zero | NumberByte::OneToNine => NumberMove::Goes(NumberPart::Fraction),
        _ => NumberMove::Stops,
    }
}

fn after_fraction(byte: NumberByte) -> NumberMove
    ensures { result ≡ after_fraction byte }
{
    match byte {
        NumberByte::Zero | NumberByte::OneToNine => NumberMove::Goes(NumberPart::Fraction),
        NumberByte::Letter => NumberMove::Goes(NumberPart::Letter),
        NumberByte::Other => NumberMove::Ends,
        _ => NumberMove::Stops,
    }
}

fn after_letter(byte: NumberByte) -> NumberMove
    ensures { result ≡ after_letter byte }
{
    match byte {
        NumberByte::Zero | NumberByte::OneToNine => NumberMove::Goes(NumberPart::Exponent),
        NumberByte::Plus | NumberByte::Minus => NumberMove::Goes(NumberPart::Sign),
        _ => NumberMove::Stops,
    }
}

fn after_sign(byte: NumberByte) -> NumberMove
    ensures { result ≡ after_sign byte }
{
    match byte {
        NumberByte::Zero | NumberByte::OneToNine => NumberMove::Goes(NumberPart::Exponent),
        _ => NumberMove::Stops,
    }
}

fn after_exponent(byte: NumberByte) -> NumberMove
    ensures { result ≡ after_exponent byte }
{
    match byte {
        NumberByte::Zero | NumberByte::OneToNine => NumberMove::Goes(NumberPart::Exponent),
        NumberByte::Other => NumberMove::Ends,
        _ => NumberMove::Stops,
    }
}
