// Whose part of a history is shown.

/// An editor or a start of a server, by its number.
#[derive(Clone, Copy, Debug, PartialEq, Eq)]
pub enum Side {
    Editor(u64),
    Server(u64),
}
