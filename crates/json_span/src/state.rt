//! Where the reader stands.
use crate::word::Begun;
use json_nodes::{Node, Place};
use json_token::{NumberPart, Part};

/// What may come next. A token's place is that of its first byte.
#[derive(Clone, Copy, Debug)]
pub enum Mode {
    /// A value.
    Value,
    /// The first item of an array, or the array's end.
    FirstItem,
    /// The first name of an object, or the object's end.
    FirstKey,
    /// The next name of an object.
    NextKey,
    /// The colon behind a name.
    Colon,
    /// What comes behind a value.
    After,
    /// The rest of a literal name.
    InWord(u32, Begun),
    /// The rest of a number.
    InNumber(u32, NumberPart),
    /// The rest of a string.
    InText(u32, Part),
    /// The rest of a member's name.
    InKey(u32, Part),
}

/// An array or object that is open, and the number of its node.
#[derive(Clone, Copy, Debug)]
pub struct Open {
    pub object: bool,
    pub node: usize,
}

/// How far a text has been read.
#[derive(Debug, Drop)]
pub struct Reader {
    pub mode: Mode,
    /// The place of the name of the value that comes next, if it is a member's.
    pub name: Place,
    pub stack: Vec<Open>,
    pub nodes: Vec<Node>,
}
