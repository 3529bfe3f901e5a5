//! Kinds of progress messages.
ghost use Rattle.std.specs.Prelude.{◌≡◌};
ghost use Rattle.progress_route.specs.Tables.{is_begin, is_end};

/// What a progress message is to its token (LSP 3.17, Work Done Progress).
#[derive(Clone, Copy, Debug, PartialEq, Eq)]
pub enum Kind {
    /// It begins the token's progress.
    Begin,
    /// It ends the token.
    End,
    /// Any other message.
    Other,
}

/// Whether it begins.
pub fn is_begin(kind: Kind) -> bool
    ensures { result ≡ is_begin kind }
{
    match kind {
        Kind::Begin => true,
        _ => false,
    }
}

/// Whether it ends.
pub fn is_end(kind: Kind) -> bool
    ensures { result ≡ is_end kind }
{
    match kind {
        Kind::End => true,
        _ => false,
    }
}
