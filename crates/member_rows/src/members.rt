use lsp_method::Class;
use mux_members::{
    Notice, class_in, encoding, goes_on, has_token, is_dollar, is_first_result, is_initialize,
    is_initialized, is_wrong, notice_in, reads_versions, speaks,
};
use position_codec::Encoding;
use rpc_message::Message;

#[test]
fn reads_an_editors_requests(rt: HostRuntime) {
    let opening: &[u8] =
        b"{\"jsonrpc\":\"2.0\",\"id\":\"a\",\"method\":\"initial\\u0069ze\",\"params\":{\"capabilities\":{}}}";
    let hover: &[u8] =
        b"{\"jsonrpc\":\"2.0\",\"id\":7,\"method\":\"textDocument/hover\",\"params\":{\"workDoneToken\":1.5,\"partialResultToken\":\"t\"}}";
    let (Ok(opening), Ok(hover)) = (
        Message::read(rt.alloc(), opening),
        Message::read(rt.alloc(), hover),
    ) else {
        panic!(rt; "no text");
    };
    assert!(rt; is_initialize(&opening) && !has_token(&opening));
    assert!(rt; !is_initialize(&hover) && has_token(&hover) && !is_initialized(&hover));
    assert!(rt; matches!(class_in(&opening), Class::Initialize));
    assert!(rt; matches!(class_in(&hover), Class::Other));
}

#[test]
fn tells_names_of_notifications(rt: HostRuntime) {
    let asked: &[u8] = b"{\"jsonrpc\":\"2.0\",\"id\":7,\"method\":\"$/setTrace\"}";
    let told: &[u8] = b"{\"jsonrpc\":\"2.0\",\"method\":\"$/setTrace\"}";
    let (Ok(asked), Ok(told)) = (
        Message::read(rt.alloc(), asked),
        Message::read(rt.alloc(), told),
    ) else {
        panic!(rt; "no text");
    };
    assert!(rt; is_wrong(&asked) && is_dollar(&asked));
    assert!(rt; !goes_on(&told) && !speaks(&told));
}

#[test]
fn reads_a_servers_results(rt: HostRuntime) {
    // a body; whether it is the first result
    let bodies: [(&[u8], bool); 2] = [
        (
            b"{\"jsonrpc\":\"2.0\",\"id\":1,\"result\":{\"capabilities\":{\"hoverProvider\":true}}}",
            true,
        ),
        (
            b"{\"jsonrpc\":\"2.0\",\"id\":\"1\",\"result\":{\"capabilities\":{\"workspace\":null}}}",
            false,
        ),
    ];
    for (body, first) in bodies {
        assert!(rt; body.len() < 200);
        let Ok(m) = Message::read(rt.alloc(), body) else {
            panic!(rt; "no text");
        };
        assert_eq!(rt; is_first_result(&m), first, "at {body:?}");
    }
}

#[test]
fn finds_versions(rt: HostRuntime) {
    let bodies: [(&[u8], bool); 4] = [
        (
            b"{\"jsonrpc\":\"2.0\",\"id\":12,\"result\":{\"documentChanges\":[{},{\"textDocument\":{\"uri\":\"f\",\"version\":3}}]}}",
            true,
        ),
        (
            b"{\"jsonrpc\":\"2.0\",\"id\":2,\"result\":[{},{\"edit\":{\"documentChanges\":[{\"textDocument\":{\"uri\":\"f\",\"version\":3}}]}}]}",
            true,
        ),
        (
            b"{\"jsonrpc\":\"2.0\",\"id\":3,\"result\":{\"edit\":{\"documentChanges\":[{\"textDocument\":{\"uri\":\"f\",\"version\":null}}]}}}",
            false,
        ),
        (b"{\"jsonrpc\":\"2.0\",\"id\":4}", false),
    ];
    for (body, versions) in bodies {
        assert!(rt; body.len() < 200);
        let Ok(m) = Message::read(rt.alloc(), body) else {
            panic!(rt; "no text");
        };
        assert_eq!(rt; reads_versions(&m), versions, "at {body:?}");
    }
}

#[test]
fn reads_an_opening(rt: HostRuntime) {
    let body: &[u8] =
        b"{\"jsonrpc\":\"2.0\",\"method\":\"textDocument/didOpen\",\"params\":{\"textDocument\":{\"uri\":\"file:///\\u0061.rs\",\"languageId\":\"rust\",\"version\":12,\"text\":\"fn f() {}\\n\\u00e9\"}}}";
    let Ok(m) = Message::read(rt.alloc(), body) else {
        panic!(rt; "no text");
    };
    assert!(rt; speaks(&m));
    let Notice::Opens {
        uri,
        language,
        version,
        text,
    } = notice_in(rt.alloc(), &m).expect(&rt, "memory")
    else {
        panic!(rt; "no opening");
    };
    assert_eq!(rt; uri.bytes(), b"file:///a.rs".as_slice());
    assert_eq!(rt; language.bytes(), b"rust".as_slice());
    assert_eq!(rt; version.bytes(), b"12".as_slice());
    assert_eq!(rt; text.bytes(), b"fn f() {}\n\xc3\xa9".as_slice());
}

#[test]
fn reads_a_closing(rt: HostRuntime) {
    let body: &[u8] =
        b"{\"jsonrpc\":\"2.0\",\"method\":\"textDocument/didClose\",\"params\":{\"textDocument\":{\"uri\":\"file:///a.rs\"}}}";
    let Ok(m) = Message::read(rt.alloc(), body) else {
        panic!(rt; "no text");
    };
    assert!(rt; speaks(&m));
    let Notice::Closes(uri) = notice_in(rt.alloc(), &m).expect(&rt, "memory") else {
        panic!(rt; "no closing");
    };
    assert_eq!(rt; uri.bytes(), b"file:///a.rs".as_slice());
}

#[test]
fn reads_changes(rt: HostRuntime) {
    // a body; whether it speaks of a document, and whether it has the parts of a change
    let bodies: [(&[u8], bool, bool); 6] = [
        (
            b"{\"jsonrpc\":\"2.0\",\"method\":\"textDocument/didChange\",\"params\":{\"textDocument\":{\"uri\":\"f\",\"version\":2},\"contentChanges\":[{\"text\":\"\"}]}}",
            true,
            true,
        ),
        (
            b"{\"jsonrpc\":\"2.0\",\"method\":\"textDocument/didChange\",\"params\":{\"textDocument\":{\"uri\":\"f\"},\"contentChanges\":[]}}",
            true,
            false,
        ),
        (
            b"{\"jsonrpc\":\"2.0\",\"method\":\"textDocument/didChange\",\"params\":{\"textDocument\":{\"uri\":\"f\",\"version\":1.5},\"contentChanges\":[]}}",
            true,
            false,
        ),
        (
            b"{\"jsonrpc\":\"2.0\",\"method\":\"textDocument/didOpen\",\"params\":{\"textDocument\":{\"uri\":\"f\",\"languageId\":\"c\",\"text\":\"\"}}}",
            true,
            false,
        ),
        (
            b"{\"jsonrpc\":\"2.0\",\"method\":\"textDocument/didClose\",\"params\":null}",
            true,
            false,
        ),
        (
            b"{\"jsonrpc\":\"2.0\",\"method\":\"initialized\",\"params\":{}}",
            false,
            false,
        ),
    ];
    for (body, spoken, changed) in bodies {
        assert!(rt; body.len() < 200);
        let Ok(m) = Message::read(rt.alloc(), body) else {
            panic!(rt; "no text");
        };
        assert_eq!(rt; speaks(&m), spoken, "at {body:?}");
        let notice = notice_in(rt.alloc(), &m).expect(&rt, "memory");
        if changed {
            assert!(rt; matches!(notice, Notice::Changes), "at {body:?}");
        } else {
            assert!(rt; matches!(notice, Notice::Nothing), "at {body:?}");
        }
    }
}

#[test]
fn reads_encodings(rt: HostRuntime) {
    let bodies: [(&[u8], Encoding); 5] = [
        (
            b"{\"jsonrpc\":\"2.0\",\"id\":1,\"result\":{\"capabilities\":{\"positionEncoding\":\"utf-8\"}}}",
            Encoding::Utf8,
        ),
        (
            b"{\"jsonrpc\":\"2.0\",\"id\":1,\"result\":{\"capabilities\":{\"positionEncoding\":\"utf-16\"}}}",
            Encoding::Utf16,
        ),
        (
            b"{\"jsonrpc\":\"2.0\",\"id\":1,\"result\":{\"capabilities\":{\"positionEncoding\":\"utf-32\"}}}",
            Encoding::Utf32,
        ),
        (
            b"{\"jsonrpc\":\"2.0\",\"id\":1,\"result\":{\"capabilities\":{}}}",
            Encoding::Utf16,
        ),
        (
            b"{\"jsonrpc\":\"2.0\",\"id\":1,\"result\":{\"capabilities\":{\"positionEncoding\":\"utf-7\"}}}",
            Encoding::Utf16,
        ),
    ];
    for (body, given) in bodies {
        assert!(rt; body.len() < 200);
        let Ok(m) = Message::read(rt.alloc(), body) else {
            panic!(rt; "no text");
        };
        assert_eq!(rt; encoding(&m), given, "at {body:?}");
    }
}
