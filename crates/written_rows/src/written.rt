use message_body::Memory;
use rpc_message::{
    ErrorCode, error_answer, error_reply, initialize, initialized, notification, ok_reply, request,
};

#[test]
fn writes_answers(rt: HostRuntime) -> Result<(), Memory> {
    assert_eq!(rt;
        ok_reply(rt.alloc(), b"7", b"null")?.bytes(),
        br#"{"jsonrpc":"2.0","id":7,"result":null}"#.as_slice()
    );
    assert_eq!(rt;
        error_answer(rt.alloc(), b"null", ErrorCode::ParseError)?.bytes(),
        br#"{"jsonrpc":"2.0","id":null,"error":{"code":-32700,"message":"Parse error"}}"#.as_slice()
    );
    assert_eq!(rt;
        error_reply(rt.alloc(), b"\"a\"", 0, "say \"no\"\n")?.bytes(),
        br#"{"jsonrpc":"2.0","id":"a","error":{"code":0,"message":"say \"no\"\n"}}"#.as_slice()
    );
    assert_eq!(rt;
        error_reply(rt.alloc(), b"1", i32::MIN, "")?.bytes(),
        br#"{"jsonrpc":"2.0","id":1,"error":{"code":-2147483648,"message":""}}"#.as_slice()
    );
    Ok(())
}

#[test]
fn writes_calls(rt: HostRuntime) -> Result<(), Memory> {
    assert_eq!(rt;
        request(rt.alloc(), 2, "shutdown", None)?.bytes(),
        br#"{"jsonrpc":"2.0","id":2,"method":"shutdown"}"#.as_slice()
    );
    assert_eq!(rt;
        request(rt.alloc(), u128::MAX, "a\"b", Some(b"[1]"))?.bytes(),
        br#"{"jsonrpc":"2.0","id":340282366920938463463374607431768211455,"method":"a\"b","params":[1]}"#.as_slice()
    );
    assert_eq!(rt;
        notification(rt.alloc(), "exit", None)?.bytes(),
        br#"{"jsonrpc":"2.0","method":"exit"}"#.as_slice()
    );
    assert_eq!(rt;
        notification(rt.alloc(), "$/cancelRequest", Some(br#"{"id":7}"#))?.bytes(),
        br#"{"jsonrpc":"2.0","method":"$/cancelRequest","params":{"id":7}}"#.as_slice()
    );
    assert_eq!(rt;
        initialize(rt.alloc(), b"null", Some(b"{}"), b"{}", None)?.bytes(),
        br#"{"jsonrpc":"2.0","id":1,"method":"initialize","params":{"processId":null,"clientInfo":{"name":"lspmux"},"rootUri":null,"initializationOptions":{},"capabilities":{},"trace":"off"}}"#.as_slice()
    );
    assert_eq!(rt;
        initialized(rt.alloc())?.bytes(),
        br#"{"jsonrpc":"2.0","method":"initialized","params":{}}"#.as_slice()
    );
    Ok(())
}
