//! A text that is changed: pieces of it before and behind a gap, which moves from one change to the next.
ghost use Rattle.std.specs.Prelude.{◌≡◌, ◌++◌, ◌-◌, ℕ, List, [], length, take, drop, true, IfOk, OnOk};
ghost use Rattle.position_codec.specs.Spots.{ahead};
ghost use Rattle.doc_text.specs.Changes.{changed, offset_in, place_in};
ghost use Rattle.doc_text.specs.Gaps.{Stands, Takes, behind_text, front_text, gap_text};

use crate::change::{ContentChange, Extent, Position};
use message_body::Memory;
use position_codec::{Encoding, Spot};
use std::alloc::Global;

/// A piece behind the gap.
#[derive(Clone, Copy, Debug)]
pub struct Piece<'a> {
    pub text: &'a str,
}

/// A piece before the gap, and the spot in front of it.
#[derive(Clone, Copy, Debug)]
pub struct Passed<'a> {
    pub text: &'a str,
    pub spot: Spot,
}

/// What was taken off the front of the pieces behind the gap, and the spot behind it.
#[derive(Clone, Copy, Debug)]
pub struct Taken<'a> {
    pub text: &'a str,
    pub spot: Spot,
    /// Is the place that was sought before the end of the next character?
    pub stopped: bool,
}

/// A text in pieces, which are parts of the first text and the texts of changes.
///
/// To make a change costs time that is linear in the way of the gap to it, and in what it takes away.
#[derive(Drop)]
pub struct Gap<'a> {
    encoding: Encoding,
    /// What is before the gap, in order.
    front: Vec<Passed<'a>>,
    /// Where the gap is.
    spot: Spot,
    /// What is behind the gap, the next piece last.
    behind: Vec<Piece<'a>>,
}

// Takes off what is behind the gap a part that isn't behind a place. The spot is the one in front of it.
fn take<'a>(
    behind: &mut Vec<Piece<'a>>,
    encoding: Encoding,
    spot: Spot,
    place: Position,
) -> Result<Option<Taken<'a>>, Memory>
    requires { ahead spot place.line place.character ≡ true }
    ensures { IfOk result (λ taken. Takes encoding spot place behind.old.items behind.new.items taken) }
{
    let Some(piece) = behind.pop() else {
        return Ok(None)
    };
    let Some(advance) = spot.advance(encoding, place.line, place.character, piece.text) else {
        return Err(Memory)
    };
    let (text, left) = piece.text.split_at(advance.offset);
    if !left.is_empty() {
        behind.push(Piece { text: left })?;
    }
    Ok(Some(Taken {
        text,
        spot: advance.spot,
        stopped: advance.stopped,
    }))
}

impl<'a> Gap<'a> {
    /// A gap in front of a text.
    pub fn new(alloc: Global, encoding: Encoding, text: &'a str) -> Result<Gap<'a>, Memory>
        ensures text { IfOk result (λ gap. gap_text gap ≡ text.now) }
        ensures stands { IfOk result (λ gap. Stands gap) }
        ensures encoding { IfOk result (λ gap. gap.encoding ≡ encoding) }
    {
        let mut behind = Vec::new(alloc);
        behind.push(Piece { text })?;
        Ok(Gap {
            encoding,
            front: Vec::new(alloc),
            spot: Spot::first(),
            behind,
        })
    }

    // Moves the gap back until it isn't behind a place.
    fn back(&mut self, place: Position) -> Result<(), Memory>
        requires { Stands self.old }
        ensures text { OnOk result (gap_text self.new ≡ gap_text self.old) }
        ensures stands { OnOk result (Stands self.new) }
        ensures encoding { OnOk result (self.new.encoding ≡ self.old.encoding) }
        ensures ahead { OnOk result (ahead self.new.spot place.line place.character ≡ true) }
    {
        while !self.spot.is_before(place.line, place.character) {
            let Some(passed) = self.front.pop() else {
                return Ok(())
            };
            self.behind.push(Piece { text: passed.text })?;
            self.spot = passed.spot;
        }
        Ok(())
    }

    // Moves the gap on to a place that isn't before it.
    fn forward(&mut self, place: Position) -> Result<(), Memory>
        requires stands { Stands self.old }
        requires ahead { ahead self.old.spot place.line place.character ≡ true }
        ensures text { OnOk result (gap_text self.new ≡ gap_text self.old) }
        ensures stands { OnOk result (Stands self.new) }
        ensures encoding { OnOk result (self.new.encoding ≡ self.old.encoding) }
        ensures here { OnOk result (length (front_text self.new.front.items) ≡ offset_in self.old.encoding place (gap_text self.old)) }
    {
        while let Some(taken) = take(&mut self.behind, self.encoding, self.spot, place)? {
            self.front.push(Passed {
                text: taken.text,
                spot: self.spot,
            })?;
            self.spot = taken.spot;
            if taken.stopped {
                return Ok(());
            }
        }
        Ok(())
    }

    // Takes away what stands between the gap and a place, where the place is behind the gap.
    fn skip(&mut self, place: Position) -> Result<(), Memory>
        requires { Stands self.old }
        ensures front { OnOk result (self.new.front.items ≡ self.old.front.items) }
        ensures spot { OnOk result (self.new.spot ≡ self.old.spot) }
        ensures encoding { OnOk result (self.new.encoding ≡ self.old.encoding) }
        ensures behind { OnOk result (behind_text self.new.behind.items
            ≡ drop (offset_in self.old.encoding place (gap_text self.old) - length (front_text self.old.front.items))
            (behind_text self.old.behind.items)) }
    {
        if !self.spot.is_before(place.line, place.character) {
            return Ok(());
        }
        let mut spot = self.spot;
        while let Some(taken) = take(&mut self.behind, self.encoding, spot, place)? {
            if taken.stopped {
                return Ok(());
            }
            spot = taken.spot;
        }
        Ok(())
    }

    // Moves the gap to the start of what a change replaces, and takes that away.
    fn open(&mut self, extent: Extent) -> Result<(), Memory>
        requires { Stands self.old }
        ensures front { OnOk result (front_text self.new.front.items ≡ take (place_in self.old.encoding extent (gap_text self.old)).0 (gap_text self.old)) }
        ensures behind { OnOk result (behind_text self.new.behind.items ≡ drop (place_in self.old.encoding extent (gap_text self.old)).1 (gap_text self.old)) }
        ensures stands { OnOk result (Stands self.new) }
        ensures encoding { OnOk result (self.new.encoding ≡ self.old.encoding) }
    {
        match extent {
            Extent::Whole => {
                self.front.clear();
                self.behind.clear();
                self.spot = Spot::first();
                Ok(())
            }
            Extent::Part(range) => {
                self.back(range.start)?;
                self.forward(range.start)?;
                self.skip(range.end)?;
                Ok(())
            }
        }
    }

    /// Makes one change.
    pub fn change(&mut self, change: &'a ContentChange) -> Result<(), Memory>
        requires { Stands self.old }
        ensures text { OnOk result (gap_text self.new ≡ changed self.old.encoding change.now (gap_text self.old)) }
        ensures stands { OnOk result (Stands self.new) }
        ensures encoding { OnOk result (self.new.encoding ≡ self.old.encoding) }
    {
        self.open(change.extent)?;
        self.behind.push(Piece {
            text: change.text.as_str(),
        })?;
        Ok(())
    }

    /// Puts the whole text behind another.
    pub fn add_to(mut self, text: &mut String) -> Result<(), Memory>
        ensures { OnOk result (text.new.bytes.items ≡ text.old.bytes.items ++ gap_text self.entry) }
    {
        for passed in &self.front {
            text.push_str(passed.text)?;
        }
        while let Some(piece) = self.behind.pop() {
            text.push_str(piece.text)?;
        }
        Ok(())
    }
}
