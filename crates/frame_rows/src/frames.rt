use base_frame::{BadWhy, FrameReader, Next, frame};
use message_body::Memory;
use std::alloc::Global;
use std::test::Fail;

const LIMIT: u32 = 67_108_864;

fn fed(alloc: Global, stream: &[u8]) -> Result<FrameReader, Memory> {
    let mut reader = FrameReader::new(alloc, LIMIT);
    reader.feed(stream)?;
    Ok(reader)
}

// Whether the next answer is this content.
fn gives(reader: &mut FrameReader, content: &[u8]) -> bool {
    match reader.next() {
        Next::Frame(body) => body.bytes() == content,
        _ => false,
    }
}

fn waits(reader: &mut FrameReader) -> bool {
    matches!(reader.next(), Next::NotYet)
}

// The fault that comes next, if one does.
fn bad(reader: &mut FrameReader) -> Option<(u64, BadWhy)> {
    match reader.next() {
        Next::BadFrame(at, why) => Some((at, why)),
        _ => None,
    }
}

#[test]
fn writes_a_frame(rt: HostRuntime) -> Result<(), Memory> {
    let framed = frame(rt.alloc(), b"{}")?;
    assert_eq!(rt; framed.bytes(), b"Content-Length: 2\r\n\r\n{}".as_slice());
    assert_eq!(rt; framed.bytes().len(), 23);
    let mut reader = fed(rt.alloc(), framed.bytes())?;
    assert!(rt; gives(&mut reader, b"{}"));
    assert!(rt; waits(&mut reader));
    Ok(())
}

#[test]
fn reads_frames(rt: HostRuntime) -> Result<(), Memory> {
    let mut reader = fed(
        rt.alloc(),
        b"content-length:2\r\nX-Y: z\r\n\r\n{}Content-Length: 0\r\n\r\nCONTENT-LENGTH:\t 1 \r\n\r\n7Con",
    )?;
    assert!(rt; gives(&mut reader, b"{}"));
    assert!(rt; gives(&mut reader, b""));
    assert!(rt; gives(&mut reader, b"7"));
    assert!(rt; waits(&mut reader));
    reader.feed(b"tent-Length: 3\r\n\r\nabc")?;
    assert!(rt; gives(&mut reader, b"abc"));
    assert!(rt; waits(&mut reader));
    Ok(())
}

#[test]
fn reads_byte_by_byte(rt: HostRuntime) -> Result<(), Memory> {
    let mut reader = FrameReader::new(rt.alloc(), LIMIT);
    for byte in b"content-length:2\r\nX-Y: z\r\n\r\n{}" {
        assert!(rt; waits(&mut reader));
        reader.feed(&[*byte])?;
    }
    assert!(rt; gives(&mut reader, b"{}"));
    assert!(rt; waits(&mut reader));
    Ok(())
}

#[test]
fn finds_faults(rt: HostRuntime) -> Result<(), Memory> {
    let faults: [(&[u8], u64, BadWhy); 10] = [
        (
            b"Content-Length: 1\r\nContent-Length: 1\r\n\r\nx",
            33,
            BadWhy::TwoLengths,
        ),
        (b"\r\n", 0, BadWhy::NoLength),
        (b"X: y\r\n\r\n", 6, BadWhy::NoLength),
        (b"Content-Length: 99999999999", 23, BadWhy::TooLong),
        (b"Content-Length: 67108865", 23, BadWhy::TooLong),
        (b"Content-Length: \r\n", 16, BadWhy::Byte),
        (b"Content-Length: 1 1\r\n", 18, BadWhy::Byte),
        (b"Content-Length : 1\r\n", 14, BadWhy::Byte),
        (b": 1\r\n", 0, BadWhy::Byte),
        (b"Content-Length: 1\n", 17, BadWhy::Byte),
    ];
    for (stream, at, why) in faults {
        let mut reader = fed(rt.alloc(), stream)?;
        assert_eq!(rt; bad(&mut reader), Some((at, why)));
        reader.feed(b"Content-Length: 0\r\n\r\n")?;
        assert_eq!(rt; bad(&mut reader), Some((at, why)));
    }
    Ok(())
}

#[test]
fn gives_the_frames_before_a_fault(rt: HostRuntime) -> Result<(), Memory> {
    let mut reader = fed(rt.alloc(), b"Content-Length: 1\r\n\r\n7?\r\n")?;
    assert!(rt; gives(&mut reader, b"7"));
    assert_eq!(rt; bad(&mut reader), Some((1, BadWhy::Byte)));
    Ok(())
}

// A header block with a value of so many bytes in its second field.
fn long_block(alloc: Global, count: usize) -> Result<Vec<u8>, Memory> {
    let mut block = Vec::from_slice(alloc, b"Content-Length: 0\r\nX:")?;
    for _ in 0..count {
        block.push(b'y')?;
    }
    block.extend_from_slice(b"\r\n\r\n")?;
    Ok(block)
}

#[test]
fn bounds_a_block(rt: HostRuntime) -> Result<(), Memory> {
    let longest = long_block(rt.alloc(), 4071)?;
    assert_eq!(rt; longest.len(), 4096);
    let mut reader = fed(rt.alloc(), longest.as_slice())?;
    assert!(rt; gives(&mut reader, b""));
    let longer = long_block(rt.alloc(), 4072)?;
    let mut reader = fed(rt.alloc(), longer.as_slice())?;
    assert_eq!(rt; bad(&mut reader), Some((4096, BadWhy::LongHeader)));
    Ok(())
}

// Two frames and the front of a third, cut into two pieces after each byte.
#[test]
fn reads_frames_cut_anywhere(rt: HostRuntime) -> Result<(), Memory> {
    let stream = b"content-length:2\r\nX-Y: z\r\n\r\n{}Content-Length: 0\r\n\r\nCon";
    for cut in 0..stream.len() + 1 {
        let mut reader = fed(rt.alloc(), &stream[..cut])?;
        reader.feed(&stream[cut..])?;
        assert!(rt; gives(&mut reader, b"{}"));
        assert!(rt; gives(&mut reader, b""));
        assert!(rt; waits(&mut reader));
    }
    Ok(())
}

// The fault of a stream under this limit, if it begins with one.
fn limited(alloc: Global, limit: u32, stream: &[u8]) -> Result<Option<(u64, BadWhy)>, Memory> {
    let mut reader = FrameReader::new(alloc, limit);
    reader.feed(stream)?;
    Ok(bad(&mut reader))
}

#[test]
fn bounds_a_content(rt: HostRuntime) -> Result<(), Memory> {
    let alloc = rt.alloc();
    assert_eq!(rt;
        limited(
            alloc,
            1,
            b"Content-Length: 0000000000000000000000001\r\n\r\n7"
        )?,
        None
    );
    assert_eq!(rt;
        limited(alloc, 1, b"Content-Length: 2\r\n\r\n77")?,
        Some((16, BadWhy::TooLong))
    );
    assert_eq!(rt; limited(alloc, 0, b"Content-Length: 0\r\n\r\n")?, None);
    assert_eq!(rt;
        limited(alloc, 0, b"Content-Length: 1")?,
        Some((16, BadWhy::TooLong))
    );
    assert_eq!(rt;
        limited(alloc, 4_294_967_295, b"Content-Length: 4294967295\r\n")?,
        None
    );
    assert_eq!(rt;
        limited(alloc, 4_294_967_295, b"Content-Length: 4294967296\r\n")?,
        Some((25, BadWhy::TooLong))
    );
    Ok(())
}

// A value may have bytes from 128 on, a name may not.
#[test]
fn takes_bytes_beyond_ascii_in_values(rt: HostRuntime) -> Result<(), Memory> {
    let alloc = rt.alloc();
    let mut reader = fed(alloc, b"X: \xC3\xA9\xFF\r\ncOnTeNt-LeNgTh:1\r\n\r\n7")?;
    assert!(rt; gives(&mut reader, b"7"));
    assert_eq!(rt;
        limited(alloc, 1, b"X\xC3: y\r\n")?,
        Some((1, BadWhy::Byte))
    );
    Ok(())
}
