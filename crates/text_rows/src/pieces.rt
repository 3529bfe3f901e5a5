use crate::change::change;
use doc_text::{ChangeFault, Text};
use message_body::Memory;
use position_codec::Encoding;
use text_pieces::PieceText;

// A change is one of a text with all ends of lines, or joins a `\r` and a `\n`; behind the two the next line starts.
#[test]
fn makes_changes(rt: HostRuntime) -> Result<(), Memory> {
    let rows: [(&str, &[u8], &str); 5] = [
        (
            "a😀b\r\nc\rd",
            b"[{\"range\":{\"start\":{\"line\":0,\"character\":2},\"end\":{\"line\":0,\"character\":3}},\"text\":\"z\"}]",
            "azb\r\nc\rd",
        ),
        (
            "a😀b\r\nc\rd",
            b"[{\"range\":{\"start\":{\"line\":0,\"character\":4},\"end\":{\"line\":0,\"character\":0}},\"text\":\"!\"}]",
            "a😀b!\r\nc\rd",
        ),
        (
            "a\rb",
            b"[{\"range\":{\"start\":{\"line\":1,\"character\":0},\"end\":{\"line\":1,\"character\":0}},\"text\":\"\\n\"}]",
            "a\r\nb",
        ),
        (
            "a\rb",
            b"[{\"range\":{\"start\":{\"line\":1,\"character\":0},\"end\":{\"line\":1,\"character\":0}},\"text\":\"\\n\"},{\"range\":{\"start\":{\"line\":1,\"character\":0},\"end\":{\"line\":1,\"character\":0}},\"text\":\"|\"}]",
            "a\r\n|b",
        ),
        (
            "a\r\nb",
            b"[{\"range\":{\"start\":{\"line\":0,\"character\":1},\"end\":{\"line\":1,\"character\":0}},\"text\":\"\"}]",
            "ab",
        ),
    ];
    for (text, changes, wanted) in rows {
        let (done, text) = change::<PieceText>(rt.alloc(), text, Encoding::Utf16, changes)?;
        assert_eq!(rt; done, Ok(()));
        assert_eq!(rt; text.bytes(), wanted.as_bytes());
    }
    Ok(())
}

#[test]
fn leaves_the_text_where_the_shape_is_bad(rt: HostRuntime) -> Result<(), Memory> {
    let (done, text) = change::<PieceText>(
        rt.alloc(),
        "a\rb",
        Encoding::Utf8,
        b"[{\"text\":\"x\"},{\"text\":1}]",
    )?;
    assert_eq!(rt; done, Err(ChangeFault::BadShape));
    assert_eq!(rt; text.bytes(), b"a\rb".as_slice());
    Ok(())
}

#[test]
fn compares_and_copies(rt: HostRuntime) -> Result<(), Memory> {
    let text = PieceText::new(rt.alloc(), b"a\rb")?;
    let copied = text.copy(rt.alloc())?;
    assert!(rt; text.equals(&copied));
    assert_eq!(rt; copied.whole(rt.alloc())?.bytes(), b"a\rb".as_slice());
    let other = PieceText::new(rt.alloc(), b"a\nb")?;
    assert!(rt; !text.equals(&other));
    Ok(())
}
