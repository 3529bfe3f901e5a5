//! What stands at the front of a stream.
ghost use Rattle.std.specs.Prelude.{◌≡◌, ◌≤◌, drop, length};
ghost use Rattle.base_frame.specs.Machine.{content, front_from, front_of, IsAt};
ghost use Rattle.base_frame.specs.Views.{found_view};

use crate::block::{BadWhy, Move, Part, State, step};

/// A frame's content and the bytes behind the frame, a fault and its place, or neither as yet.
#[derive(Clone, Copy)]
pub enum Found<'a> {
    Whole(&'a [u8], &'a [u8]),
    Fault(usize, BadWhy),
    Short,
}

/// A place in the header block at the front of a stream, and what of the block was read up to there.
#[derive(Clone, Copy, Debug)]
pub struct Place {
    pub at: usize,
    pub state: State,
}

/// The front of a stream.
pub fn front_place() -> Place
    ensures at { result.at ≡ 0 }
    ensures part { result.state.part ≡ Part.Start }
    ensures length { result.state.length ≡ None }
{
    Place {
        at: 0,
        state: State {
            part: Part::Start,
            length: None,
        },
    }
}

/// What stands at the front of these bytes.
pub fn front_of(limit: u32, bytes: &[u8]) -> Found<'_>
    ensures { found_view result ≡ front_of limit bytes.now }
{
    front_at(limit, bytes, front_place())
}

/// What stands at the front of these bytes, whose header block was read up to this place.
#[tactic(auto, unfolding(crate::specs::Machine::front_from))]
pub fn front_at(limit: u32, bytes: &[u8], place: Place) -> Found<'_>
    requires { place.at ≤ length bytes.now }
    ensures { found_view result ≡ front_from limit place.at place.state (drop place.at bytes.now) }
{
    let mut state = place.state;
    for at in place.at..bytes.len() {
        match step(limit, at, bytes[at], state) {
            Move::Goes(next) => state = next,
            Move::Ends(length) => return content(length, &bytes[at + 1..]),
            Move::Bad(why) => return Found::Fault(at, why),
        }
    }
    Found::Short
}

/// As far in the header block of these bytes as it goes on.
pub fn advance(limit: u32, bytes: &[u8], place: Place) -> Place
    requires { IsAt limit place.at place.state bytes.now }
    ensures { IsAt limit result.at result.state bytes.now }
{
    let mut at = place.at;
    let mut state = place.state;
    while at < bytes.len() {
        match step(limit, at, bytes[at], state) {
            Move::Goes(next) => {
                state = next;
                at += 1;
            }
            _ => break,
        }
    }
    Place { at, state }
}

fn content(length: u32, bytes: &[u8]) -> Found<'_>
    ensures { found_view result ≡ content length bytes.now }
{
    let length = length as usize;
    if length <= bytes.len() {
        let (content, more) = bytes.split_at(length);
        Found::Whole(content, more)
    } else {
        Found::Short
    }
}
