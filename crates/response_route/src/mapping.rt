//! V1: an editor's version in place of its start's.
ghost use Rattle.std.specs.Prelude.{◌≡◌, Some, None, bytes_eq, decimal, option_map};
ghost use Rattle.std.specs.Option.{option_and_then};
ghost use Rattle.response_route.specs.Versions.{is_held, stamp_of, version_now, version_then};

use crate::versions::{Stamp, Versions};
use itoa::Buffer;

/// An editor's versions at two moments: now, of the documents whose text the start has as the editor does, and as a request was sent on,
/// where they were noted.
#[derive(Clone, Copy)]
pub struct Mapping<'a> {
    pub now: &'a Versions,
    pub noted: Option<&'a Versions>,
}

// Whether the start has a document under the version that these digits write.
fn is_held(digits: &[u8], held: Option<u32>) -> bool
    ensures { result ≡ is_held digits.now held }
{
    match held {
        Some(held) => {
            let mut buffer = Buffer::new();
            digits == buffer.format(held).as_bytes()
        }
        None => false,
    }
}

// The editor's version, where the start's is this one.
fn version_then<'a>(digits: &[u8], stamp: Option<&'a Stamp>) -> Option<&'a [u8]>
    ensures { option_map (λ b. b.now) result ≡ version_then digits.now (option_map (λ x. x.now) stamp.entry) }
{
    match stamp {
        Some(stamp) if is_held(digits, stamp.held) => Some(stamp.version.bytes()),
        _ => None,
    }
}

impl<'a> Mapping<'a> {
    /// V1: the text that takes the place of a version of a document; none where it stands for no text that the editor has or had.
    pub fn text(self, uri: &[u8], digits: &[u8]) -> Option<&'a [u8]>
        ensures { option_map (λ b. b.now) result
            ≡ version_now digits.now (stamp_of uri.now self.entry.now.now) (option_and_then (λ x. stamp_of uri.now x.now) self.entry.noted) }
    {
        let noted = match self.noted {
            Some(versions) => versions.get(uri),
            None => None,
        };
        match self.now.get(uri) {
            None => Some("null".as_bytes()),
            Some(stamp) if is_held(digits, stamp.held) => Some(stamp.version.bytes()),
            Some(_) => version_then(digits, noted),
        }
    }
}
