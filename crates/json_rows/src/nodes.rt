use json_nodes::{Node, Place, Values, part};
use json_text::Kind;

const TEXT: &[u8] = b"{\"a\":[1,\"\\u0062\"],\"a\":{}}";

const fn node(kind: Kind, level: u16, span: (u32, u32), after: u32, name: (u32, u32)) -> Node {
    Node {
        kind,
        level,
        from: span.0,
        to: span.1,
        after,
        name: Place {
            from: name.0,
            to: name.1,
        },
    }
}

// The nodes of the text above.
fn nodes() -> [Node; 5] {
    [
        node(Kind::Object, 0, (0, 25), 5, (0, 0)),
        node(Kind::Array, 1, (5, 17), 4, (1, 4)),
        node(Kind::Number, 2, (6, 7), 3, (0, 0)),
        node(Kind::Text, 2, (8, 16), 4, (0, 0)),
        node(Kind::Object, 1, (22, 24), 5, (18, 21)),
    ]
}

#[test]
fn walks_the_values(rt: HostRuntime) {
    let nodes = nodes();
    let values = Values {
        bytes: TEXT,
        nodes: &nodes,
    };
    assert!(rt; matches!(values.kind(0), Kind::Object));
    assert!(rt; matches!(values.kind(3), Kind::Text));
    assert_eq!(rt; values.first(0), Some(1));
    assert_eq!(rt; values.next(1), Some(4));
    assert_eq!(rt; values.next(4), None);
    assert_eq!(rt; values.first(1), Some(2));
    assert_eq!(rt; values.next(2), Some(3));
    assert_eq!(rt; values.next(3), None);
    assert_eq!(rt; values.first(4), None);
}

#[test]
fn reads_the_bytes(rt: HostRuntime) {
    let nodes = nodes();
    let values = Values {
        bytes: TEXT,
        nodes: &nodes,
    };
    let span = values.span(1);
    assert_eq!(rt; (span.from, span.to), (5, 17));
    assert_eq!(rt; values.bytes(2), b"1".as_slice());
    assert_eq!(rt; values.name(4), b"a".as_slice());
    assert_eq!(rt; values.string(3), b"\\u0062".as_slice());
    let text = values.text(rt.alloc(), 3);
    assert!(rt; matches!(&text, Ok(text) if text.bytes() == b"b".as_slice()));
}

#[test]
fn finds_the_last_member(rt: HostRuntime) {
    let nodes = nodes();
    let values = Values {
        bytes: TEXT,
        nodes: &nodes,
    };
    assert_eq!(rt; values.member(0, "a"), Some(4));
    assert_eq!(rt; values.member(0, "b"), None);
    assert_eq!(rt; values.member(1, "a"), None);
}

#[test]
fn looks_up_absent_values(rt: HostRuntime) {
    let nodes = nodes();
    let values = Values {
        bytes: TEXT,
        nodes: &nodes,
    };
    assert_eq!(rt; values.within(Some(5)), None);
    assert!(rt; matches!(values.maybe_kind(Some(1)), Some(Kind::Array)));
    assert!(rt; values.maybe_kind(None).is_none());
    assert_eq!(rt; values.maybe_member(Some(0), "a"), Some(4));
    assert_eq!(rt; values.maybe_member(None, "a"), None);
    assert_eq!(rt; values.maybe_next(Some(1)), Some(4));
    assert_eq!(rt; values.maybe_next(None), None);
}

#[test]
fn compares_values(rt: HostRuntime) {
    let nodes = nodes();
    let values = Values {
        bytes: TEXT,
        nodes: &nodes,
    };
    assert!(rt; values.same(rt.alloc(), 0, values, 0));
    assert!(rt; !values.same(rt.alloc(), 1, values, 4));
    assert!(rt; values.same_bytes(1, values, 1));
    assert_eq!(rt; part(TEXT, 20, 99), b"\":{}}".as_slice());
}
