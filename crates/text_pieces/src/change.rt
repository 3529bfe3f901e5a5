//! Changes of a text in pieces.
ghost use Rattle.std.specs.Prelude.{◌≡◌, ◌++◌, take, drop, IfOk, OnOk};
ghost use Rattle.doc_text.specs.Changes.{changed, changed_all};
ghost use Rattle.doc_text.specs.declared.change.Extent.TheVariants.{Part};
ghost use Rattle.text_pieces.specs.Pieces.{text_of, builder_text, cut_at, IsCut};

use crate::builder::{Builder, add_pieces};
use crate::cut::{Cut, find_range};
use crate::limits::Limits;
use crate::piece::{Piece, length};
use doc_text::{ContentChange, Extent, Range};
use message_body::Memory;
use position_codec::Encoding;
use std::alloc::Global;

/// The same pieces. The time is linear in their number.
pub fn share(alloc: Global, pieces: &[Piece]) -> Result<Vec<Piece>, Memory>
    ensures { IfOk result (λ shared. text_of shared.items ≡ text_of pieces.now) }
{
    let mut shared = Vec::with_capacity(alloc, pieces.len())?;
    for piece in pieces {
        shared.push(piece.share()?)?;
    }
    Ok(shared)
}

// Builds on with what is before a cut.
fn add_before(
    alloc: Global,
    builder: &mut Builder,
    pieces: &[Piece],
    cut: Cut,
) -> Result<(), Memory>
    requires { IsCut pieces.now cut }
    ensures { OnOk result (builder_text builder.new ≡ builder_text builder.old ++ take (cut_at pieces.now cut) (text_of pieces.now)) }
{
    for piece in &pieces[..cut.index] {
        builder.push_piece(alloc, piece)?;
    }
    if cut.index < pieces.len() {
        let (before, _) = pieces[cut.index].as_str().split_at(cut.offset);
        builder.push_str(before)?;
    }
    Ok(())
}

// Builds on with what is behind a cut.
fn add_behind(
    alloc: Global,
    builder: &mut Builder,
    pieces: &[Piece],
    cut: Cut,
) -> Result<(), Memory>
    requires { IsCut pieces.now cut }
    ensures { OnOk result (builder_text builder.new ≡ builder_text builder.old ++ drop (cut_at pieces.now cut) (text_of pieces.now)) }
{
    if cut.index >= pieces.len() {
        return Ok(());
    }
    let (_, behind) = pieces[cut.index].as_str().split_at(cut.offset);
    builder.push_str(behind)?;
    for piece in &pieces[cut.index + 1..] {
        builder.push_piece(alloc, piece)?;
    }
    Ok(())
}

// The pieces with a range of them replaced.
fn replaced(
    alloc: Global,
    encoding: Encoding,
    pieces: &[Piece],
    range: Range,
    text: &str,
) -> Result<Vec<Piece>, Memory>
    ensures { IfOk result (λ after. text_of after.items ≡ changed encoding (record { extent = Part range; text = text.now }) (text_of pieces.now)) }
{
    let (start, end) = find_range(pieces, encoding, range)?;
    let limits = Limits::of(length(pieces).saturating_add(text.len()));
    let mut builder = Builder::new(alloc, encoding, limits, pieces.len())?;
    add_before(alloc, &mut builder, pieces, start)?;
    builder.push_str(text)?;
    add_behind(alloc, &mut builder, pieces, end)?;
    builder.finish(alloc)
}

// The pieces with one change made.
fn change(
    alloc: Global,
    encoding: Encoding,
    pieces: &[Piece],
    change: &ContentChange,
) -> Result<Vec<Piece>, Memory>
    ensures { IfOk result (λ after. text_of after.items ≡ changed encoding change.now (text_of pieces.now)) }
{
    let text = change.text.as_str();
    match change.extent {
        Extent::Whole => {
            let mut after = Vec::new(alloc);
            add_pieces(alloc, encoding, Limits::of(text.len()), text, &mut after)?;
            Ok(after)
        }
        Extent::Part(range) => replaced(alloc, encoding, pieces, range, text),
    }
}

// The pieces with further changes made.
fn change_on(
    alloc: Global,
    encoding: Encoding,
    pieces: Vec<Piece>,
    changes: &[ContentChange],
) -> Result<Vec<Piece>, Memory>
    ensures { IfOk result (λ after. text_of after.items ≡ changed_all encoding changes.now (text_of pieces.items)) }
{
    let mut after = pieces;
    for one in changes {
        after = change(alloc, encoding, after.as_slice(), one)?;
    }
    Ok(after)
}

/// The pieces with the changes made, each in what the one before left. Each takes time linear in the number of pieces, in its own
/// text, and in the length of a few pieces.
pub fn change_all(
    alloc: Global,
    encoding: Encoding,
    pieces: &[Piece],
    changes: &[ContentChange],
) -> Result<Vec<Piece>, Memory>
    ensures { IfOk result (λ after. text_of after.items ≡ changed_all encoding changes.now (text_of pieces.now)) }
{
    let Some((first, later)) = changes.split_first() else {
        return share(alloc, pieces);
    };
    let after = change(alloc, encoding, pieces, first)?;
    change_on(alloc, encoding, after, later)
}
