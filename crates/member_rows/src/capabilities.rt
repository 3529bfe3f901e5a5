use capability_meet::{CapFault, below, declared, meet, shown};
use json_span::Tape;
use std::alloc::Global;

// Whether the value of a short text is below that of another.
fn is_below(alloc: Global, a: &[u8], b: &[u8]) -> Option<bool> {
    if a.len() > 10_000 || b.len() > 10_000 {
        return None;
    }
    let left = Tape::read(alloc, a).ok()?;
    let right = Tape::read(alloc, b).ok()?;
    Some(below(&left, left.root(), &right, right.root()))
}

#[test]
fn orders_capabilities(rt: HostRuntime) {
    let alloc = rt.alloc();
    assert_eq!(rt; is_below(alloc, b"null", b"0"), Some(true));
    assert_eq!(rt; is_below(alloc, b"true", b"false"), Some(false));
    assert_eq!(rt; is_below(alloc, b"[2,1,1]", b"[1,2,3]"), Some(true));
    assert_eq!(rt; is_below(alloc, b"[2,4]", b"[1,2,3]"), Some(false));
    assert_eq!(rt;
        is_below(
            alloc,
            br#"{"a":{"b":true,"c":null},"d":"x"}"#,
            br#"{"d":"\u0078","a":{"b":true}}"#
        ),
        Some(true)
    );
    assert_eq!(rt;
        is_below(alloc, br#"{"a":{}}"#, br#"{"b":{}}"#),
        Some(false)
    );
}

#[test]
fn shows_a_result(rt: HostRuntime) {
    let answer =
        br#"{"capabilities": {"hover": true, "notebookDocumentSync":{}, "workspace" : {"workspaceFolders":{},"x": 1} } }"#;
    let body = shown(rt.alloc(), answer).expect(&rt, "memory");
    assert_eq!(rt;
        body.bytes(),
        br#"{"capabilities": {"hover": true,"workspace" : {"x": 1}} }"#.as_slice()
    );
    let body = shown(rt.alloc(), b"{ }").expect(&rt, "memory");
    assert_eq!(rt; body.bytes(), b"{ }".as_slice());
    assert!(rt; matches!(shown(rt.alloc(), b"{"), Err(CapFault::NotJson)));
}

#[test]
fn meets_capabilities(rt: HostRuntime) {
    let a = br#"{"x": true, "y":[1, {"k":2}, 3], "z":{"q":null}, "x":false, "w":"s"}"#;
    let b = br#"{"w":"s","y":[3,{"k":2}],"z":{"q":true,"r":1},"x":true}"#;
    let body = meet(rt.alloc(), a, b).expect(&rt, "memory");
    assert_eq!(rt;
        body.bytes(),
        br#"{"y":[{"k":2},3],"z":{},"w":"s"}"#.as_slice()
    );
    let body = meet(rt.alloc(), b"1", b"2").expect(&rt, "memory");
    assert_eq!(rt; body.bytes(), b"{}".as_slice());
}

#[test]
fn declares_capabilities(rt: HostRuntime) {
    let a =
        br#"{"window":{"showDocument":{"x":true}},"notebookDocument":{"y":1},"general":{"staleRequestSupport":{"cancel":true}}}"#;
    let body = declared(rt.alloc(), a, None).expect(&rt, "memory");
    assert_eq!(rt;
        body.bytes(),
        br#"{"window":{"showDocument":{"x":true,"support":false}},"general":{"staleRequestSupport":{"cancel":true}}}"#.as_slice()
    );
    let ceiling = br#"{"window":{"showDocument":{"support":true}}}"#;
    let body = declared(rt.alloc(), a, Some(ceiling)).expect(&rt, "memory");
    assert_eq!(rt;
        body.bytes(),
        br#"{"window":{"showDocument":{"support":false}}}"#.as_slice()
    );
}
