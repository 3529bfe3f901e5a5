//! The texts of documents, kept in pieces, so that a small change costs little of a long text.
#![tactic(auto)]

mod builder;
mod change;
mod cut;
mod equal;
mod limits;
mod order;
mod piece;
mod piece_text;
mod sums;

pub use piece_text::PieceText;
