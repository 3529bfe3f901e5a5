// The path that a URI of a file names on this machine (RFC 8089, section 2).
ghost use Rattle.std.specs.Prelude.{◌≡◌, IfOk, option_copied, option_map, string_bytes};
ghost use Rattle.percent_encoding.specs.Percent.{percent_decode};
ghost use Rattle.start_folder.specs.Paths.{absolute, before_query, behind, behind_host, encoded_path, ends_path, path_of, text_of};

use message_body::Memory;
use percent_encoding::percent_decode;
use std::alloc::Global;

// What follows a prefix, whose letters may be of either case.
fn behind<'a>(prefix: &[u8], bytes: &'a [u8]) -> Option<&'a [u8]>
    ensures { option_copied result ≡ behind prefix.now bytes.now }
{
    let (front, rest) = bytes.split_at_checked(prefix.len())?;
    if front.eq_ignore_ascii_case(prefix) {
        Some(rest)
    } else {
        None
    }
}

// Whether a query or a fragment begins with this byte.
fn ends_path(byte: u8) -> bool
    ensures { result ≡ ends_path byte }
{
    byte == b'?' || byte == b'#'
}

// What stands before a query and a fragment.
#[tactic(auto, using(crate::proofs::Fronts::front_more, crate::proofs::Fronts::front_ends, crate::proofs::Fronts::front_all))]
fn before_query(uri: &[u8]) -> &[u8]
    ensures { result.now ≡ before_query uri.now }
{
    let mut end = 0;
    while end < uri.len() {
        if ends_path(uri[end]) {
            return &uri[..end];
        }
        end += 1;
    }
    uri
}

// What follows no host, an empty one, or `localhost`.
fn behind_host(rest: &[u8]) -> &[u8]
    ensures { result.now ≡ behind_host rest.now }
{
    if let Some(path) = behind(b"//localhost", rest) {
        return path;
    }
    behind(b"//", rest).unwrap_or(rest)
}

// A path that begins at the root.
fn absolute(path: &[u8]) -> Option<&[u8]>
    ensures { option_copied result ≡ absolute path.now }
{
    match path {
        [b'/', ..] => Some(path),
        _ => None,
    }
}

// The path of a URI of a file on this machine, as it stands there.
fn encoded_path(uri: &[u8]) -> Option<&[u8]>
    ensures { option_copied result ≡ encoded_path uri.now }
{
    let rest = behind(b"file:", before_query(uri))?;
    absolute(behind_host(rest))
}

// Bytes that are UTF-8 without a NUL, as text.
fn text_of(bytes: Vec<u8>) -> Option<String>
    ensures { option_map string_bytes result ≡ text_of bytes.items }
{
    if bytes.contains(&0) {
        return None;
    }
    match String::from_utf8(bytes) {
        Ok(text) => Some(text),
        Err(_) => None,
    }
}

/// The path that a URI names on this machine: that of a URI whose scheme is `file` and whose host is none, empty or
/// `localhost`, decoded whole, where it begins at the root and is UTF-8 without a NUL.
pub fn path_of(alloc: Global, uri: &[u8]) -> Result<Option<String>, Memory>
    ensures { IfOk result (λ path. option_map string_bytes path ≡ path_of uri.now) }
{
    let Some(path) = encoded_path(uri) else {
        return Ok(None);
    };
    let mut bytes = Vec::new(alloc);
    percent_decode(path).append_to(&mut bytes)?;
    Ok(text_of(bytes))
}
