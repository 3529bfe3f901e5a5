ghost use Rattle.std.specs.Prelude.{◌≡◌, ◌<◌, length, codes, option_map};
ghost use Rattle.std.specs.Str.{chars};
ghost use Rattle.json_text.specs.declared.span.Span.{Span};
ghost use Rattle.json_text.specs.Json.{Json, Items, array};
ghost use Rattle.json_text.specs.Named.{items_list, named_in};
ghost use Rattle.json_nodes.specs.At.{At};
ghost use Rattle.json_nodes.specs.Doc.{Holds};
ghost use Rattle.json_nodes.specs.Nodes.{kind_of};

use json_span::{Change, JsonFault, Kind, Memory, Tape, quote, same, splice};
use std::alloc::{AllocError, Global};

// The fault in a short text; None if it is taken.
fn fault_of(alloc: Global, bytes: &[u8]) -> Option<JsonFault> {
    if bytes.len() > 10_000 {
        return Some(JsonFault::Memory);
    }
    match Tape::read(alloc, bytes) {
        Ok(_) => None,
        Err(fault) => Some(fault),
    }
}

// What a nest is made of.
#[derive(Clone, Copy, Debug)]
enum Nest {
    Arrays,
    Objects,
    Both,
}

impl Nest {
    fn has_object(self, level: usize) -> bool {
        match self {
            Nest::Arrays => false,
            Nest::Objects => true,
            Nest::Both => level % 2 == 1,
        }
    }
}

// So many arrays and objects, each in the one before, and a value in the last; and where the last one's bracket stands.
fn nested(alloc: Global, depth: usize, nest: Nest) -> Result<(Vec<u8>, usize), AllocError> {
    let mut bytes = Vec::new(alloc);
    let mut last = 0;
    for level in 0..depth {
        last = bytes.len();
        if nest.has_object(level) {
            bytes.extend_from_slice(b"{\"\":")?;
        } else {
            bytes.push(b'[')?;
        }
    }
    bytes.push(b'0')?;
    for level in (0..depth).rev() {
        bytes.push(if nest.has_object(level) { b'}' } else { b']' })?;
    }
    Ok((bytes, last))
}

// The first example of RFC 8259, section 13.
const IMAGE: &[u8] = b"{
  \"Image\": {
      \"Width\":  800,
      \"Height\": 600,
      \"Title\":  \"View from 15th Floor\",
      \"Thumbnail\": {
          \"Url\":    \"http://www.example.com/image/481989943\",
          \"Height\": 125,
          \"Width\":  100
      },
      \"Animated\" : false,
      \"IDs\": [116, 943, 234, 38793]
    }
}";

#[test]
fn takes_texts(rt: HostRuntime) {
    let texts: [&[u8]; 22] = [
        b"null",
        b" true\r\n",
        b"\tfalse ",
        b"0",
        b"-0.10e-05",
        b"1E+2",
        b"\"\"",
        b"\"a\\\"\\\\\\/\\b\\f\\n\\r\\t\\u00e9\x7f\"",
        b"\"\\ud834\\udd1e \\ud834\"",
        b"\"\xc3\xa9\xe2\x82\xac\xf0\x9d\x84\x9e\"",
        b"[]",
        b"[ ]",
        b"[1 , [ 2,3] ,{}]",
        b"{}",
        b"{ \"a\" : 1 , \"a\":[{\"\":null}]}",
        b"{\"\\u0000\":\"\"}",
        b"\"\\ude00\\ud83d\"",
        b"-0",
        b"1e400",
        b"\"Hello world!\"",
        b"42",
        IMAGE,
    ];
    for text in texts {
        assert_eq!(rt; fault_of(rt.alloc(), text), None, "at {text:?}");
    }
}

#[test]
fn names_the_fault(rt: HostRuntime) {
    let texts: [(&[u8], usize); 42] = [
        (b"", 0),
        (b" ", 1),
        (b"nul", 3),
        (b"nulL", 3),
        (b"NaN", 0),
        (b"Infinity", 0),
        (b"01", 1),
        (b"-", 1),
        (b"-a", 1),
        (b"+1", 0),
        (b".5", 0),
        (b"1.", 2),
        (b"1.e1", 2),
        (b"1e", 2),
        (b"1e+", 3),
        (b"1-", 1),
        (b"\"", 1),
        (b"\"a", 2),
        (b"\"\n\"", 1),
        (b"\"\x1f\"", 1),
        (b"\"\\x\"", 2),
        (b"\"\\u12g4\"", 5),
        (b"\"\xc0\xaf\"", 1),
        (b"\"\xe0\x80\x80\"", 2),
        (b"\"\xed\xa0\x80\"", 2),
        (b"\"\xf4\x90\x80\x80\"", 2),
        (b"\"\xff\"", 1),
        (b"\"\xc3\"", 2),
        (b"\"\xe2\x82\"", 3),
        (b"\"\xf0\x9f\x98\"", 4),
        (b"\"\xf0\x9f\x98", 4),
        (b"\"\x80\"", 1),
        (b"\xef\xbb\xbf1", 0),
        (b"-01", 2),
        (b"\"\\ud83d\\u\"", 9),
        (b"[1,]", 3),
        (b"[1 2]", 3),
        (b"[1}", 2),
        (b"{\"a\":1,}", 7),
        (b"{\"a\" 1}", 5),
        (b"{1:2}", 1),
        (b"1 2", 2),
    ];
    for (text, place) in texts {
        assert_eq!(rt;
            fault_of(rt.alloc(), text),
            Some(JsonFault::Syntax(place)),
            "at {text:?}"
        );
    }
}

#[test]
fn nests_so_deep(rt: HostRuntime) -> Result<(), AllocError> {
    for nest in [Nest::Arrays, Nest::Objects, Nest::Both] {
        let (taken, _) = nested(rt.alloc(), 1024, nest)?;
        assert_eq!(rt; fault_of(rt.alloc(), &taken), None, "{nest:?}");
        let (refused, place) = nested(rt.alloc(), 1025, nest)?;
        assert_eq!(rt;
            fault_of(rt.alloc(), &refused),
            Some(JsonFault::TooDeep(place)),
            "{nest:?}"
        );
    }
    Ok(())
}

// What the member `id` of a text's value is.
fn kind_of_id(tape: &Tape) -> Option<Kind>
    ensures { (j : Json) → Holds tape.now j → result ≡ option_map kind_of (named_in (codes "id") j) }
{
    let id = tape.member(tape.root(), "id")?;
    Some(tape.kind(id))
}

// How many items an array has.
fn count_items(tape: &Tape, node: u32) -> usize
    requires { node < length tape.now.nodes }
    ensures { (s : Span) (js : Items) → At tape.now node (array s js) → result ≡ length (items_list js) }
{
    let mut count = 0;
    let mut next = tape.first(node);
    while let Some(item) = next {
        count += 1;
        next = tape.next(item);
    }
    count
}

// The second example of RFC 8259, section 13, in short.
const PLACES: &[u8] =
    b"[{\"precision\": \"zip\", \"Latitude\": 37.7668, \"City\": \"SAN FRANCISCO\"},
 {\"precision\": \"zip\", \"Latitude\": 37.371991, \"City\": \"SUNNYVALE\", \"City\": null}]";

// The bytes of the member of this name, in the item of this number.
fn bytes_of<'a>(tape: &Tape<'a>, number: u32, name: &str) -> &'a [u8] {
    let Some(mut item) = tape.first(tape.root()) else {
        return b"no item"
    };
    for _ in 0..number {
        let Some(next) = tape.next(item) else {
            return b"too few"
        };
        item = next;
    }
    let Some(member) = tape.member(item, name) else {
        return b"no member"
    };
    let span = tape.span(member);
    &tape.bytes()[span.from..span.to]
}

#[test]
fn looks_up(rt: HostRuntime) -> Result<(), Memory> {
    let Ok(tape) = Tape::read(rt.alloc(), PLACES) else {
        return Err(Memory)
    };
    let root = tape.root();
    assert!(rt; matches!(tape.kind(root), Kind::Array));
    assert_eq!(rt; count_items(&tape, root), 2);
    for (number, name, want) in [
        (0, "precision", &b"\"zip\""[..]),
        (0, "Latitude", b"37.7668"),
        (0, "City", b"\"SAN FRANCISCO\""),
        (0, "Zip", b"no member"),
        (1, "Latitude", b"37.371991"),
        (1, "City", b"null"),
        (2, "City", b"too few"),
    ] {
        assert_eq!(rt; bytes_of(&tape, number, name), want);
    }
    let first = tape.first(root).ok_or(Memory)?;
    let second = tape.next(first).ok_or(Memory)?;
    let zip = tape.member(first, "precision").ok_or(Memory)?;
    let other = tape.member(second, "precision").ok_or(Memory)?;
    assert_eq!(rt; tape.text(rt.alloc(), zip)?.bytes(), b"zip".as_slice());
    assert!(rt; same(&tape, zip, &tape, other));
    assert!(rt; !same(&tape, first, &tape, second));
    Ok(())
}

#[test]
fn tells_what_an_id_is(rt: HostRuntime) {
    let texts: [(&[u8], bool); 4] = [
        (b"{\"id\": 116}", true),
        (b"{\"id\": \"116\"}", false),
        (b"{\"i\\u0064\": 116}", true),
        (b"[116, 943, 234, 38793]", false),
    ];
    for (text, is_number) in texts {
        let Ok(tape) = Tape::read(rt.alloc(), text) else {
            assert!(rt; false, "not read");
            return;
        };
        assert_eq!(rt; matches!(kind_of_id(&tape), Some(Kind::Number)), is_number);
    }
}

#[test]
fn quotes(rt: HostRuntime) -> Result<(), Memory> {
    for (text, want) in [
        ("", "\"\""),
        ("a/b", "\"a/b\""),
        ("say \"\\\"", "\"say \\\"\\\\\\\"\""),
        ("\u{8}\t\n\u{c}\r", "\"\\b\\t\\n\\f\\r\""),
        ("\0\u{1f}\u{7f}", "\"\\u0000\\u001f\u{7f}\""),
        ("é€", "\"é€\""),
        ("\u{1d11e}", "\"\u{1d11e}\""),
    ] {
        let body = quote(rt.alloc(), text.as_bytes())?;
        assert_eq!(rt; body.bytes(), want.as_bytes());
        let Ok(tape) = Tape::read(rt.alloc(), body.bytes()) else {
            return Err(Memory)
        };
        assert_eq!(rt;
            tape.text(rt.alloc(), tape.root())?.bytes(),
            text.as_bytes()
        );
    }
    Ok(())
}

#[test]
fn splices(rt: HostRuntime) -> Result<(), Memory> {
    let bytes = b"{\"id\":1,\"method\":\"exit\"}";
    let Ok(tape) = Tape::read(rt.alloc(), bytes) else {
        return Err(Memory)
    };
    let id = tape.member(tape.root(), "id").ok_or(Memory)?;
    let change = Change {
        span: tape.span(id),
        text: quote(rt.alloc(), b"a")?,
    };
    let body = splice(rt.alloc(), bytes, &[change])?;
    assert_eq!(rt;
        body.bytes(),
        b"{\"id\":\"a\",\"method\":\"exit\"}".as_slice()
    );
    assert_eq!(rt; body.copy(rt.alloc())?.bytes(), body.bytes());
    Ok(())
}
