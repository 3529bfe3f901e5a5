use rpc_message::{Malformed, Message, Sort};
use std::alloc::{AllocError, Global};

// What a short body is.
fn sort_in(alloc: Global, body: &[u8]) -> Result<Sort, Malformed> {
    if body.len() > 10_000 {
        return Err(Malformed::Memory);
    }
    match Message::read(alloc, body) {
        Ok(message) => Ok(message.sort()),
        Err(fault) => Err(fault),
    }
}

// The examples of JSON-RPC 2.0, section 7, one message each, and its batches, which LSP doesn't have.
#[test]
fn reads_the_standards_examples(rt: HostRuntime) {
    let bodies: [(&str, Result<Sort, Malformed>); 13] = [
        (
            r#"{"jsonrpc": "2.0", "method": "subtract", "params": [42, 23], "id": 1}"#,
            Ok(Sort::Request),
        ),
        (
            r#"{"jsonrpc": "2.0", "result": 19, "id": 1}"#,
            Ok(Sort::Result),
        ),
        (
            r#"{"jsonrpc": "2.0", "method": "subtract", "params": {"subtrahend": 23, "minuend": 42}, "id": 3}"#,
            Ok(Sort::Request),
        ),
        (
            r#"{"jsonrpc": "2.0", "method": "update", "params": [1,2,3,4,5]}"#,
            Ok(Sort::Notification),
        ),
        (
            r#"{"jsonrpc": "2.0", "method": "foobar"}"#,
            Ok(Sort::Notification),
        ),
        (
            r#"{"jsonrpc": "2.0", "error": {"code": -32601, "message": "Method not found"}, "id": "1"}"#,
            Ok(Sort::Error),
        ),
        (
            r#"{"jsonrpc": "2.0", "method": "foobar, "params": "bar", "baz]"#,
            Err(Malformed::NotJson),
        ),
        (
            r#"{"jsonrpc": "2.0", "error": {"code": -32700, "message": "Parse error"}, "id": null}"#,
            Ok(Sort::Error),
        ),
        (
            r#"{"jsonrpc": "2.0", "method": 1, "params": "bar"}"#,
            Err(Malformed::NotMessage),
        ),
        ("[]", Err(Malformed::NotMessage)),
        ("[1]", Err(Malformed::NotMessage)),
        (r#"{"foo": "boo"}"#, Err(Malformed::NotMessage)),
        (
            r#"[{"jsonrpc": "2.0", "method": "notify_sum", "params": [1,2,4]}]"#,
            Err(Malformed::NotMessage),
        ),
    ];
    for (body, want) in bodies {
        assert_eq!(rt; sort_in(rt.alloc(), body.as_bytes()), want, "at {body}");
    }
}

// A body with these members.
fn body_of(alloc: Global, members: [&str; 4]) -> Result<Vec<u8>, AllocError> {
    let mut body = Vec::from_slice(alloc, b"{\"jsonrpc\":\"2.0\"")?;
    for member in members {
        body.extend_from_slice(member.as_bytes())?;
    }
    body.push(b'}')?;
    Ok(body)
}

// The class that a letter stands for.
fn class_of(letter: Option<&u8>) -> Result<Sort, Malformed> {
    match letter {
        Some(b'Q') => Ok(Sort::Request),
        Some(b'N') => Ok(Sort::Notification),
        Some(b'R') => Ok(Sort::Result),
        Some(b'E') => Ok(Sort::Error),
        _ => Err(Malformed::NotMessage),
    }
}

// `method` and `id`, and then nine letters: for no `result`, null and a number, each with no `error`, null and an error.
const MIXTURES: [(&str, &str, &str); 9] = [
    ("", "", "---------"),
    ("", ",\"id\":null", "RRERRERR-"),
    ("", ",\"id\":1", "RRERRERR-"),
    (",\"method\":null", "", "---------"),
    (",\"method\":null", ",\"id\":null", "---------"),
    (",\"method\":null", ",\"id\":1", "---------"),
    (",\"method\":\"m\"", "", "NNNNNNNNN"),
    (",\"method\":\"m\"", ",\"id\":null", "---------"),
    (",\"method\":\"m\"", ",\"id\":1", "QQQQQQQQQ"),
];

#[test]
fn tells_each_mixture(rt: HostRuntime) -> Result<(), AllocError> {
    for (method, id, letters) in MIXTURES {
        let mut letters = letters.as_bytes().iter();
        for result in ["", ",\"result\":null", ",\"result\":1"] {
            for error in [
                "",
                ",\"error\":null",
                ",\"error\":{\"code\":-1,\"message\":\"no\"}",
            ] {
                let body = body_of(rt.alloc(), [method, id, result, error])?;
                assert_eq!(rt;
                    sort_in(rt.alloc(), &body),
                    class_of(letters.next()),
                    "at {body:?}"
                );
            }
        }
    }
    Ok(())
}

#[test]
fn tells_what_is_no_message(rt: HostRuntime) {
    for body in [
        r#"{"jsonrpc":"2.0","id":1,"id":1,"result":1}"#,
        r#"{"jsonrpc":"2.0","id":1,"\u0069d":1,"result":1}"#,
        r#"{"jsonrpc":"2.0","method":"m","x":1,"x":2}"#,
        r#"{"jsonrpc":"2.0","id":1.0,"method":"m"}"#,
        r#"{"jsonrpc":"2.0","id":1e1,"method":"m"}"#,
        r#"{"jsonrpc":"2.0","id":true,"method":"m"}"#,
        r#"{"jsonrpc":"2.0","id":[1],"result":1}"#,
        r#"{"jsonrpc":"2.0","method":"m","params":"p"}"#,
        r#"{"jsonrpc":"2.0","method":"m","params":1}"#,
        r#"{"jsonrpc":"2.0","id":1,"error":{"code":1.5,"message":""}}"#,
        r#"{"jsonrpc":"2.0","id":1,"error":{"code":1}}"#,
        r#"{"jsonrpc":"2.0","id":1,"error":[]}"#,
        r#"{"id":1,"result":1}"#,
        r#"{"jsonrpc":2.0,"id":1,"result":1}"#,
        r#"{"jsonrpc":"2.1","id":1,"result":1}"#,
    ] {
        assert_eq!(rt;
            sort_in(rt.alloc(), body.as_bytes()),
            Err(Malformed::NotMessage),
            "at {body}"
        );
    }
}

// A notification with the members `n0` to `n999`, and then this one.
fn many_members(alloc: Global, last: &str) -> Result<Vec<u8>, AllocError> {
    let mut body = Vec::from_slice(alloc, b"{\"jsonrpc\":\"2.0\",\"method\":\"m\"")?;
    for number in 0..1_000u32 {
        let member = format!(in alloc; ",\"n{number}\":0")?;
        body.extend_from_slice(member.as_bytes())?;
    }
    body.extend_from_slice(last.as_bytes())?;
    body.push(b'}')?;
    Ok(body)
}

#[test]
fn tells_doubled_names_of_many(rt: HostRuntime) -> Result<(), AllocError> {
    for (last, want) in [
        ("", Ok(Sort::Notification)),
        (",\"n1000\":0", Ok(Sort::Notification)),
        (",\"N0\":0", Ok(Sort::Notification)),
        (",\"n0\":0", Err(Malformed::NotMessage)),
        (",\"\\u006e0\":0", Err(Malformed::NotMessage)),
        (",\"n999\":0", Err(Malformed::NotMessage)),
        (",\"\\u006dethod\":0", Err(Malformed::NotMessage)),
    ] {
        let body = many_members(rt.alloc(), last)?;
        assert_eq!(rt; sort_in(rt.alloc(), &body), want, "at {last}");
    }
    Ok(())
}
