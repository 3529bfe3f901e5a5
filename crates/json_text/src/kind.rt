/// The three literal names of RFC 8259, section 3.
#[derive(Clone, Copy, Debug)]
pub enum Word {
    Null,
    False,
    True,
}

/// What a value of a JSON text is (RFC 8259, section 3).
#[derive(Clone, Copy, Debug)]
pub enum Kind {
    Null,
    False,
    True,
    Number,
    Text,
    Array,
    Object,
}
