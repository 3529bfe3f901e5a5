use json_text::Kind;

/// A span of bytes of a text of fewer than 2^32 bytes; `from` and `to` are equal where there is none.
#[derive(Clone, Copy, Debug)]
pub struct Place {
    pub from: u32,
    pub to: u32,
}

/// One value of a JSON text.
#[derive(Clone, Copy, Debug)]
pub struct Node {
    pub kind: Kind,
    /// How many arrays and objects are open where the value begins.
    pub level: u16,
    /// Where its first byte stands.
    pub from: u32,
    /// The place behind its last byte.
    pub to: u32,
    /// The number of the first node that stands behind the value and all that is in it.
    pub after: u32,
    /// The place of its name with the quotation marks, where it is the value of a member.
    pub name: Place,
}
