//! Which editors a last list fits.
ghost use Rattle.std.specs.Prelude.{◌≡◌, bytes_eq, decimal};
ghost use Rattle.diagnostics_route.specs.Shown.{allows, fits};

use crate::last_list::{LastList, Version};
use document_model::Agreement;
use itoa::Buffer;

// Whether bytes are the digits of a number.
fn are_digits_of(bytes: &[u8], number: u32) -> bool
    ensures { result ≡ bytes_eq bytes.now (decimal number) }
{
    let mut digits = Buffer::new();
    bytes == digits.format(number).as_bytes()
}

// Whether a version is absent, null or the held one.
fn allows(held: u32, version: &Version) -> bool
    ensures { result ≡ allows held version.now }
{
    match version {
        Version::Absent | Version::Null => true,
        Version::Integer(digits) => are_digits_of(digits.bytes(), held),
        Version::Other => false,
    }
}

/// S15: whether a list fits an editor: where its document isn't open there; or where the start holds the editor's text, no notification
/// on this document was sent since the list came, and the list is of no version or of the held one.
pub fn fits(list: &LastList, agreement: Agreement) -> bool
    ensures { result ≡ fits list.now agreement }
{
    match agreement {
        Agreement::NotOpen => true,
        Agreement::Differs => false,
        Agreement::Agrees { held, changed } => changed <= list.place && allows(held, &list.version),
    }
}
