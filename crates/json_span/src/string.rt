// A text as a JSON string.
ghost use Rattle.std.specs.Prelude.{◌≡◌, ◌+◌, ◌++◌, length, IfOk, IsUtf8};
ghost use Rattle.std.specs.Str.{chars};
ghost use Rattle.json.specs.Print.{quoted};
ghost use Rattle.json_text.specs.Json.{string, value};

use json::Writer;
use message_body::{Body, Memory};
use std::alloc::Global;

/// Puts a text as a JSON string (RFC 8259, section 7) behind these bytes, with the shortest escapes, and no more of them than it
/// needs. Its cost is linear in the text, besides the growth of the bytes.
pub fn append_quoted(written: Vec<u8>, text: &str) -> Result<Vec<u8>, Memory>
    ensures { IfOk result (λ v. v.items ≡ written.items ++ quoted text.now) }
{
    let mut writer = Writer::new(written);
    writer.string(text)?;
    Ok(writer.into_inner())
}

/// A text as a JSON string of its own, as `append_quoted` writes it. The bytes must be UTF-8 (RFC 3629).
pub fn quote(alloc: Global, text: &[u8]) -> Result<Body, Memory>
    requires { IsUtf8 text.now }
    ensures text { IfOk result (λ body. body ≡ quoted text.now) }
    ensures string { IfOk result (λ body. value (string (record { from = 0; to = length body }) (chars text.now)) 0 body) }
{
    let text = std::str::from_utf8(text).unwrap();
    let written = Vec::with_capacity(alloc, text.len() + 3)?;
    Ok(Body::new(append_quoted(written, text)?))
}
