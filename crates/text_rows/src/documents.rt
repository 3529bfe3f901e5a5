use crate::change::change;
use doc_text::{ChangeFault, DocText, Text};
use message_body::Memory;
use position_codec::Encoding;

/// Eleven bytes: a character of four bytes, an end of two bytes, and a `\r` alone.
const TEXT: &str = "a😀b\r\nc\rd";

#[test]
fn makes_changes(rt: HostRuntime) -> Result<(), Memory> {
    let rows: [(&[u8], &str); 12] = [
        (b"[]", TEXT),
        (b"[{\"text\":\"\"}]", ""),
        (
            b"[{\"range\":{\"start\":{\"line\":0,\"character\":2},\"end\":{\"line\":0,\"character\":3}},\"text\":\"z\"}]",
            "azb\r\nc\rd",
        ),
        (
            b"[{\"range\":{\"start\":{\"line\":0,\"character\":4},\"end\":{\"line\":0,\"character\":0}},\"text\":\"!\"}]",
            "a😀b!\r\nc\rd",
        ),
        (
            b"[{\"range\":{\"start\":{\"line\":0,\"character\":9},\"end\":{\"line\":1,\"character\":0}},\"text\":\"\"}]",
            "a😀bc\rd",
        ),
        (
            b"[{\"range\":{\"start\":{\"line\":9,\"character\":9},\"end\":{\"line\":9,\"character\":0}},\"text\":\"e\"}]",
            "a😀b\r\nc\rde",
        ),
        (
            b"[{\"range\":{\"start\":{\"line\":-0,\"character\":-0},\"end\":{\"line\":0,\"character\":4294967296}},\"text\":\"\"}]",
            "\r\nc\rd",
        ),
        (
            b"[{\"range\":{\"start\":{\"line\":2,\"character\":0},\"end\":{\"line\":2,\"character\":1}},\"text\":\"\\n\"},{\"range\":{\"start\":{\"line\":2,\"character\":0},\"end\":{\"line\":2,\"character\":0}},\"text\":\"z\"}]",
            "a😀b\r\nc\r\nz",
        ),
        (
            b"[{\"text\":\"a\\r\"},{\"range\":{\"start\":{\"line\":1,\"character\":0},\"end\":{\"line\":1,\"character\":0}},\"text\":\"\\n\"},{\"range\":{\"start\":{\"line\":1,\"character\":0},\"end\":{\"line\":1,\"character\":0}},\"text\":\"b\"}]",
            "a\r\nb",
        ),
        (
            b"[{\"text\":\"\\ud83d\\ude00\"},{\"range\":{\"start\":{\"line\":0,\"character\":2},\"end\":{\"line\":0,\"character\":2}},\"text\":\"\\ud83d\"}]",
            "😀\u{fffd}",
        ),
        (b"[{\"text\":\"x\",\"text\":\"y\"}]", "y"),
        (
            b"[{\"range\":null,\"range\":{\"start\":{\"line\":0,\"character\":0},\"end\":{\"line\":0,\"character\":1}},\"text\":\"\"}]",
            "😀b\r\nc\rd",
        ),
    ];
    for (changes, wanted) in rows {
        let (done, text) = change::<DocText>(rt.alloc(), TEXT, Encoding::Utf16, changes)?;
        assert_eq!(rt; done, Ok(()));
        assert_eq!(rt; text.bytes(), wanted.as_bytes());
    }
    Ok(())
}

#[test]
fn counts_by_the_encoding(rt: HostRuntime) -> Result<(), Memory> {
    let rows: [(Encoding, &[u8]); 3] = [
        (
            Encoding::Utf8,
            b"[{\"range\":{\"start\":{\"line\":0,\"character\":3},\"end\":{\"line\":0,\"character\":6}},\"text\":\"z\"}]",
        ),
        (
            Encoding::Utf16,
            b"[{\"range\":{\"start\":{\"line\":0,\"character\":2},\"end\":{\"line\":0,\"character\":4}},\"text\":\"z\"}]",
        ),
        (
            Encoding::Utf32,
            b"[{\"range\":{\"start\":{\"line\":0,\"character\":1},\"end\":{\"line\":0,\"character\":3}},\"text\":\"z\"}]",
        ),
    ];
    for (encoding, changes) in rows {
        let (done, text) = change::<DocText>(rt.alloc(), TEXT, encoding, changes)?;
        assert_eq!(rt; done, Ok(()));
        assert_eq!(rt; text.bytes(), b"az\r\nc\rd".as_slice());
    }
    Ok(())
}

#[test]
fn leaves_the_text_where_the_shape_is_bad(rt: HostRuntime) -> Result<(), Memory> {
    let rows: [&[u8]; 11] = [
        b"7",
        b"{\"text\":\"x\"}",
        b"[7]",
        b"[{}]",
        b"[{\"text\":null}]",
        b"[{\"text\":\"x\"},{\"text\":1}]",
        b"[{\"range\":null,\"text\":\"x\"}]",
        b"[{\"range\":{\"start\":{\"line\":0,\"character\":0}},\"text\":\"x\"}]",
        b"[{\"range\":{\"start\":{\"line\":-1,\"character\":0},\"end\":{\"line\":0,\"character\":0}},\"text\":\"x\"}]",
        b"[{\"range\":{\"start\":{\"line\":0,\"character\":0},\"end\":{\"line\":0,\"character\":1.0}},\"text\":\"x\"}]",
        b"[{\"range\":{\"start\":{\"line\":\"0\",\"character\":0},\"end\":{\"line\":0,\"character\":1}},\"text\":\"x\"}]",
    ];
    for changes in rows {
        let (done, text) = change::<DocText>(rt.alloc(), TEXT, Encoding::Utf16, changes)?;
        assert_eq!(rt; done, Err(ChangeFault::BadShape));
        assert_eq!(rt; text.bytes(), TEXT.as_bytes());
    }
    Ok(())
}

#[test]
fn compares_and_copies(rt: HostRuntime) -> Result<(), Memory> {
    let text = DocText::new(rt.alloc(), TEXT.as_bytes())?;
    let copied = text.copy(rt.alloc())?;
    assert!(rt; text.equals(&copied));
    assert_eq!(rt; copied.whole(rt.alloc())?.bytes(), TEXT.as_bytes());
    let other = DocText::new(rt.alloc(), b"a")?;
    assert!(rt; !text.equals(&other));
    Ok(())
}
