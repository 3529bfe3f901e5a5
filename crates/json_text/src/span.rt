/// A place in a list of bytes: from the byte `from` up to, and without, the byte `to`.
#[derive(Clone, Copy, Debug)]
pub struct Span {
    pub from: usize,
    pub to: usize,
}
