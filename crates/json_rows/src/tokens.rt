use json_token::{
    Move, NumberMove, Part, decode, number_begin, number_may_end, number_move, same_characters,
    spells_text, string_move,
};
use std::test::Fail;

// Whether all of these bytes are taken as one number.
fn is_number(text: &[u8]) -> bool {
    let [first, after @ ..] = text else {
        return false;
    };
    let Some(mut part) = number_begin(*first) else {
        return false;
    };
    for byte in after {
        let NumberMove::Goes(next) = number_move(part, *byte) else {
            return false;
        };
        part = next;
    }
    number_may_end(part)
}

// How many bytes behind a string's first quotation mark are the string's, where it ends.
fn string_end(text: &[u8]) -> Option<usize> {
    let mut part = Part::Plain;
    for (at, byte) in text.iter().enumerate() {
        match string_move(part, *byte) {
            Move::Goes(next) => part = next,
            Move::Ends => return Some(at),
            Move::Stops => return None,
        }
    }
    None
}

#[test]
fn numbers(rt: HostRuntime) {
    for text in [
        "0",
        "-0",
        "10",
        "-1",
        "1.5",
        "0.0",
        "1e5",
        "1E+05",
        "-2.50e-10",
        "0e0",
    ] {
        assert!(rt; is_number(text.as_bytes()), "{text}");
    }
    for text in [
        "", "-", "+1", "01", "-01", ".5", "1.", "1.e5", "1e", "1e+", "1e5.0", "0x1", "1 ", "--1",
        "NaN",
    ] {
        assert!(rt; !is_number(text.as_bytes()), "{text}");
    }
}

#[test]
fn strings(rt: HostRuntime) {
    let good: [&[u8]; 8] = [
        b"\"",
        b"\x7F\"",
        b"\\\"\\\\\\/\\b\\f\\n\\r\\t\"",
        b"\\u00e9\\uDEAD\\ud83d\\ude00\"",
        b"\xC3\xA9\"",
        b"\xE0\xA0\x80\xED\x9F\xBF\xEF\xBF\xBF\"",
        b"\xF0\x90\x80\x80\xF4\x8F\xBF\xBF\"",
        b"\xF0\x9F\x98\x80\"",
    ];
    for text in good {
        assert_eq!(rt; string_end(text), text.len().checked_sub(1));
    }
    let bad: [&[u8]; 16] = [
        b"a",
        b"\x1F\"",
        b"\n\"",
        b"\\x\"",
        b"\\u12\"",
        b"\\u12g4\"",
        b"\\\"",
        b"\x80\"",
        b"\xC0\x80\"",
        b"\xC1\xBF\"",
        b"\xC3\"",
        b"\xE0\x9F\xBF\"",
        b"\xED\xA0\x80\"",
        b"\xE2\x82\"",
        b"\xF0\x8F\xBF\xBF\"",
        b"\xF4\x90\x80\x80\"",
    ];
    for text in bad {
        assert_eq!(rt; string_end(text), None, "{text:?}");
    }
}

#[test]
fn decodes(rt: HostRuntime) -> Result<(), Fail> {
    let vectors = [
        ("", ""),
        ("plain é 😀", "plain é 😀"),
        (r#"\"\\\/\b\f\n\r\t"#, "\"\\/\u{8}\u{C}\n\r\t"),
        (r"\u00E9\u20ac\u0041", "é€A"),
        (r"\ud83d\ude00", "😀"),
        (r"\ud83d", "\u{FFFD}"),
        (r"\ude00\ud83d", "\u{FFFD}\u{FFFD}"),
        (r"\ud83d\n\ude00", "\u{FFFD}\n\u{FFFD}"),
        (r"\ud83d\ud83d\ude00", "\u{FFFD}😀"),
        (r"\uD800\uDC00\uDBFF\uDFFF", "\u{10000}\u{10FFFF}"),
    ];
    for (raw, text) in vectors {
        let decoded = decode(rt.alloc(), raw.as_bytes())?;
        assert_eq!(rt; decoded.as_slice(), text.as_bytes(), "{raw}");
        assert!(rt; spells_text(raw.as_bytes(), text), "{raw}");
        assert!(rt; !spells_text(raw.as_bytes(), "other"), "{raw}");
    }
    Ok(())
}

#[test]
fn compares(rt: HostRuntime) {
    assert!(rt; same_characters(br"\u0061\n\ud83d\ude00", "a\\u000a😀".as_bytes()));
    assert!(rt; same_characters(br"\ud83d", br"\ufffd"));
    assert!(rt; !same_characters(br"ab", br"a"));
    assert!(rt; !same_characters(br"a", br"ab"));
    assert!(rt; !same_characters(br"a", br"b"));
    assert!(rt; !spells_text(br"ab", "a"));
    assert!(rt; !spells_text(br"a", "ab"));
}
