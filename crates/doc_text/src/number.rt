//! The integers of positions.
ghost use Rattle.std.specs.Prelude.{◌≡◌};
ghost use Rattle.doc_text.specs.Numbers.{unsigned, unsigned_behind};

/// The number that a JSON number writes, where it is an integer that isn't negative; a larger one than 4,294,967,295 counts as that.
pub fn unsigned(text: &[u8]) -> Option<u32>
    ensures { result ≡ unsigned text.now }
{
    if text == b"-0".as_slice() {
        Some(0)
    } else {
        digits(text)
    }
}

fn digits(text: &[u8]) -> Option<u32>
    ensures { result ≡ unsigned_behind 0 text.now }
{
    let mut number: u32 = 0;
    for byte in text {
        if !byte.is_ascii_digit() {
            return None;
        }
        number = number
            .saturating_mul(10)
            .saturating_add(u32::from(*byte - b'0'));
    }
    Some(number)
}
