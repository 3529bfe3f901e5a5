use position_codec::{Encoding, line_starts, offset_of};

/// Eleven bytes: a character of four bytes, an end of two bytes, and a `\r` alone.
const TEXT: &str = "a😀b\r\nc\rd";

#[test]
fn counts_units_of_utf16(rt: HostRuntime) {
    let places = [
        (0, 1, 1),
        (0, 2, 1),
        (0, 3, 5),
        (0, 4, 6),
        (0, 9, 6),
        (1, 0, 8),
        (1, 5, 9),
        (2, 0, 10),
        (3, 0, 11),
    ];
    for (line, character, offset) in places {
        assert_eq!(rt; offset_of(TEXT, Encoding::Utf16, line, character), offset);
    }
}

#[test]
fn counts_bytes_and_characters(rt: HostRuntime) {
    assert_eq!(rt; offset_of(TEXT, Encoding::Utf8, 0, 3), 1);
    assert_eq!(rt; offset_of(TEXT, Encoding::Utf8, 0, 5), 5);
    assert_eq!(rt; offset_of(TEXT, Encoding::Utf32, 0, 2), 5);
    assert_eq!(rt; offset_of(TEXT, Encoding::Utf32, 0, 3), 6);
}

#[test]
fn finds_the_starts_of_lines(rt: HostRuntime) {
    let starts = line_starts(rt.alloc(), TEXT).expect(&rt, "memory");
    assert_eq!(rt; starts.as_slice(), [0, 8, 10].as_slice());
}

#[test]
fn knows_a_text_without_characters_and_one_of_ends_alone(rt: HostRuntime) {
    let starts = line_starts(rt.alloc(), "").expect(&rt, "memory");
    assert_eq!(rt; starts.as_slice(), [0].as_slice());
    assert_eq!(rt; offset_of("", Encoding::Utf16, 0, 3), 0);
    assert_eq!(rt; offset_of("", Encoding::Utf16, 2, 0), 0);
    let ends = "\n\r\r\n\n";
    let starts = line_starts(rt.alloc(), ends).expect(&rt, "memory");
    assert_eq!(rt; starts.as_slice(), [0, 1, 2, 4, 5].as_slice());
    assert_eq!(rt; offset_of(ends, Encoding::Utf8, 2, 7), 2);
    assert_eq!(rt; offset_of(ends, Encoding::Utf8, 4, 0), 5);
}
