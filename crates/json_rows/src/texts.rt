use json_text::{Change, Span, splice};
use message_body::Body;

#[test]
fn makes_changes(rt: HostRuntime) {
    let first = Change {
        span: Span { from: 1, to: 2 },
        text: Body::new(Vec::from_slice(rt.alloc(), b"22").expect(&rt, "memory")),
    };
    let last = Change {
        span: Span { from: 3, to: 4 },
        text: Body::new(Vec::new(rt.alloc())),
    };
    let body = splice(rt.alloc(), b"[1,2]", &[first, last]).expect(&rt, "memory");
    assert_eq!(rt; body.bytes(), b"[22,]".as_slice());
}
