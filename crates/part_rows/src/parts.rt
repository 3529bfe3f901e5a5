ghost use Rattle.std.specs.Prelude.{◌≤◌, length};

use json_text::Change;
use message_body::{Body, Memory};
use rpc_message::{Message, Sort, same_id};

const ASKED: &[u8] =
    b"{\"jsonrpc\":\"2.0\", \"id\":\"a\\u0062\", \"method\":\"textDocument\\/hover\", \"params\":{\"x\":1.50 }}";

#[test]
fn reads_a_request(rt: HostRuntime) {
    let Ok(message) = Message::read(rt.alloc(), ASKED) else {
        panic!(rt; "no message");
    };
    assert!(rt; message.sort() == Sort::Request);
    assert!(rt; message.bytes() == ASKED);
    assert!(rt; matches!(message.id(), Some(span) if span.from == 23 && span.to == 32));
    assert!(rt; message.id_bytes() == b"\"a\\u0062\"".as_slice());
    assert!(rt; message.method() == Some(b"textDocument/hover".as_slice()));
    assert!(rt; message.result().is_none() && message.error().is_none());
}

#[test]
fn writes_a_request_under_another_id(rt: HostRuntime) -> Result<(), Memory> {
    let Ok(message) = Message::read(rt.alloc(), ASKED) else {
        panic!(rt; "no message");
    };
    let sent = message.with_id(rt.alloc(), b"12")?;
    assert!(rt;
        sent.bytes()
            == b"{\"jsonrpc\":\"2.0\", \"id\":12, \"method\":\"textDocument\\/hover\", \"params\":{\"x\":1.50 }}".as_slice()
    );
    Ok(())
}

#[test]
fn writes_a_request_with_other_params(rt: HostRuntime) -> Result<(), Memory> {
    let Ok(message) = Message::read(rt.alloc(), ASKED) else {
        panic!(rt; "no message");
    };
    let params = message.params().ok_or(Memory)?;
    let change = Change {
        span: message.tape().span(params),
        text: Body::new(Vec::from_slice(rt.alloc(), b"[]")?),
    };
    let cut = message.with_cuts(rt.alloc(), &[change])?;
    assert!(rt;
        cut.bytes()
            == b"{\"jsonrpc\":\"2.0\", \"id\":\"a\\u0062\", \"method\":\"textDocument\\/hover\", \"params\":[]}".as_slice()
    );
    Ok(())
}

/// Whether a message has params, a result, an error and a method.
fn parts_of(rt: &HostRuntime, body: &[u8]) -> Option<(bool, bool, bool, bool)>
    requires { length body.now ≤ 100 }
{
    let message = Message::read(rt.alloc(), body).ok()?;
    Some((
        message.params().is_some(),
        message.result().is_some(),
        message.error().is_some(),
        message.method().is_some(),
    ))
}

#[test]
fn tells_which_parts_are_there(rt: HostRuntime) {
    let rows: [(&[u8], bool, bool, bool, bool); 5] = [
        (
            b"{\"jsonrpc\":\"2.0\",\"method\":\"m\",\"params\":null}",
            false,
            false,
            false,
            true,
        ),
        (
            b"{\"jsonrpc\":\"2.0\",\"method\":\"m\",\"params\":[]}",
            true,
            false,
            false,
            true,
        ),
        (
            b"{\"jsonrpc\":\"2.0\",\"id\":3}",
            false,
            false,
            false,
            false,
        ),
        (
            b"{\"jsonrpc\":\"2.0\",\"id\":3,\"result\":[1, {}]}",
            false,
            true,
            false,
            false,
        ),
        (
            b"{\"jsonrpc\":\"2.0\",\"id\":3,\"error\":{\"code\":1,\"message\":\"\"}}",
            false,
            false,
            true,
            false,
        ),
    ];
    for (body, params, result, error, method) in rows {
        assert!(rt; body.len() < 100);
        assert!(rt; parts_of(&rt, body) == Some((params, result, error, method)));
    }
}

#[test]
fn gives_the_bytes_of_a_result(rt: HostRuntime) {
    let Ok(message) = Message::read(
        rt.alloc(),
        b"{\"jsonrpc\":\"2.0\",\"id\":3,\"result\":[1, {}]}",
    ) else {
        panic!(rt; "no message");
    };
    assert!(rt; message.result_bytes() == b"[1, {}]".as_slice());
}

#[test]
fn compares_identifiers(rt: HostRuntime) {
    let ids: [(&[u8], &[u8], bool); 8] = [
        (b"12", b"12", true),
        (b"12", b"1", false),
        (b"0", b"-0", false),
        (b"\"12\"", b"12", false),
        (b"\"a\\u0062\"", b"\"ab\"", true),
        (b"\"\\ud83d\\ude00\"", b"\"\xf0\x9f\x98\x80\"", true),
        (b"\"a\"", b"\"A\"", false),
        (b"\"\"", b"\"\"", true),
    ];
    for (a, b, same) in ids {
        assert!(rt; same_id(a, b) == same && same_id(b, a) == same);
    }
}
