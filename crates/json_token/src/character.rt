//! The characters that a string's bytes stand for, one after the other.
ghost use Rattle.std.specs.Prelude.{◌≡◌, ◌≤◌, ◌-◌, ◌&&◌, IfSome, is_none};
ghost use Rattle.std.specs.Char.Utf16.{is_high_surrogate, is_low_surrogate};
ghost use Rattle.std.specs.Char.{digit_value};
ghost use Rattle.json_text.specs.String.{short_character};
ghost use Rattle.json_token.specs.Characters.{front_view, pair_view, rest_view, behind, replaced, two_code, three_code, four_code, plain_front, unit_value, unit_front, escaped_unit, after_unit, escape_front, next_character};

/// The first character of a string's bytes (RFC 8259, section 7), and the bytes behind it. A surrogate with no partner stands
/// for U+FFFD.
pub fn next_character(raw: &[u8]) -> Option<(char, &[u8])>
    ensures { front_view result ≡ next_character raw.now }
{
    match raw {
        [] => None,
        [b'\\', rest @ ..] => escape_front(rest),
        _ => plain_front(raw),
    }
}

/// The bytes behind this character, where a string's bytes begin with it.
pub fn strip_character(raw: &[u8], wanted: char) -> Option<&[u8]>
    ensures { rest_view result ≡ behind wanted (next_character raw.now) }
{
    match next_character(raw) {
        Some((character, rest)) if character == wanted => Some(rest),
        _ => None,
    }
}

/// Whether no character is left.
pub fn is_at_end(raw: &[u8]) -> bool
    ensures { result ≡ is_none (next_character raw.now) }
{
    next_character(raw).is_none()
}

// A character that stands for itself, in UTF-8 (RFC 3629, section 3).
fn plain_front(raw: &[u8]) -> Option<(char, &[u8])>
    ensures { front_view result ≡ plain_front raw.now }
{
    match raw {
        [a, rest @ ..] if *a < 0x80 => Some((char::from(*a), rest)),
        [a, b, rest @ ..] if *a < 0xE0 => Some((replaced(two_code(*a, *b)), rest)),
        [a, b, c, rest @ ..] if *a < 0xF0 => Some((replaced(three_code(*a, *b, *c)), rest)),
        [a, b, c, d, rest @ ..] if *a >= 0xF0 => Some((replaced(four_code(*a, *b, *c, *d)), rest)),
        _ => None,
    }
}

// What stands behind a backslash.
fn escape_front(rest: &[u8]) -> Option<(char, &[u8])>
    ensures { front_view result ≡ escape_front rest.now }
{
    match rest {
        [] => None,
        [b'u', digits @ ..] => {
            let (unit, rest) = unit_front(digits)?;
            Some(after_unit(unit, rest))
        }
        [letter, rest @ ..] => Some((short_character(*letter), rest)),
    }
}

// A unit of UTF-16, and the one behind it where the two are a pair of surrogates (RFC 2781, section 2.2).
fn after_unit(unit: u32, rest: &[u8]) -> (char, &[u8])
    requires { unit ≤ 0x2_8888 }
    ensures { pair_view result ≡ after_unit unit rest.now }
{
    match escaped_unit(rest) {
        Some((second, more)) if is_pair(unit, second) => {
            (
                replaced(0x1_0000 + (unit - 0xD800) * 0x400 + (second - 0xDC00)),
                more,
            )
        }
        _ => (replaced(unit), rest),
    }
}

// The unit that stands at the front, behind a backslash and `u`.
fn escaped_unit(raw: &[u8]) -> Option<(u32, &[u8])>
    ensures { front_view result ≡ escaped_unit raw.now }
{
    match raw {
        [b'\\', b'u', digits @ ..] => unit_front(digits),
        _ => None,
    }
}

// The unit that four digits write.
fn unit_front(digits: &[u8]) -> Option<(u32, &[u8])>
    ensures read { front_view result ≡ unit_front digits.now }
    ensures bound { IfSome result (λ front. front.0 ≤ 0x2_8888) }
{
    match digits {
        [a, b, c, d, rest @ ..] => Some((unit_value(*a, *b, *c, *d), rest)),
        _ => None,
    }
}

fn unit_value(a: u8, b: u8, c: u8, d: u8) -> u32
    ensures value { result ≡ unit_value a b c d }
    ensures bound { result ≤ 0x2_8888 }
{
    digit_value(a) * 0x1000 + digit_value(b) * 0x100 + digit_value(c) * 0x10 + digit_value(d)
}

// Whether two units are a pair of surrogates.
fn is_pair(first: u32, second: u32) -> bool
    ensures { result ≡ is_high_surrogate first && is_low_surrogate second }
{
    (0xD800..0xDC00).contains(&first) && (0xDC00..0xE000).contains(&second)
}

// The value of a digit or a letter, and 36 for any other byte.
fn digit_value(byte: u8) -> u32
    ensures value { result ≡ digit_value byte }
    ensures bound { result ≤ 36 }
{
    match byte {
        b'0'..=b'9' => u32::from(byte - b'0'),
        b'A'..=b'Z' => u32::from(byte - b'A') + 10,
        b'a'..=b'z' => u32::from(byte - b'a') + 10,
        _ => 36,
    }
}

// What a backslash and this letter stand for; U+0000 where it is none of the eight letters.
fn short_character(letter: u8) -> char
    ensures { result ≡ short_character letter }
{
    match letter {
        b'"' => '"',
        b'\\' => '\\',
        b'/' => '/',
        b'b' => '\u{8}',
        b'f' => '\u{C}',
        b'n' => '\n',
        b'r' => '\r',
        b't' => '\t',
        _ => '\0',
    }
}

// The character of this code, and U+FFFD where there is none.
fn replaced(code: u32) -> char
    ensures { result ≡ replaced code }
{
    match char::from_u32(code) {
        Some(character) => character,
        None => '\u{FFFD}',
    }
}

fn two_code(a: u8, b: u8) -> u32
    ensures { result ≡ two_code a b }
{
    less(a, 0xC0) * 0x40 + less(b, 0x80)
}

fn three_code(a: u8, b: u8, c: u8) -> u32
    ensures { result ≡ three_code a b c }
{
    less(a, 0xE0) * 0x1000 + (less(b, 0x80) * 0x40 + less(c, 0x80))
}

fn four_code(a: u8, b: u8, c: u8, d: u8) -> u32
    ensures { result ≡ four_code a b c d }
{
    less(a, 0xF0) * 0x4_0000 + (less(b, 0x80) * 0x1000 + (less(c, 0x80) * 0x40 + less(d, 0x80)))
}

fn less(byte: u8, base: u8) -> u32
    ensures value { result ≡ byte - base }
    ensures bound { result ≤ 255 }
{
    u32::from(byte.saturating_sub(base))
}
