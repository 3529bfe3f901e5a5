// What an item and a cause leave at a lane, without their bodies.
ghost use Rattle.std.specs.Prelude.{◌≡◌};
ghost use Rattle.lane_desk.specs.Kinds.{is_side, kind_of, mark_of};

use lane_lists::{Item, Posted, Side};
use mux_history::Cause;

/// What an item leaves at its lane, beside what it means.
#[derive(Clone, Copy, Debug, PartialEq, Eq)]
pub enum Mark {
    Wrote,
    Broke,
    Ended,
    Nothing,
}

/// What a cause does to the lane that it comes from.
#[derive(Clone, Copy, Debug, PartialEq, Eq)]
pub enum Kind {
    Joins(u64),
    Starts,
    Goes,
    Stays,
}

/// What this item leaves.
pub fn mark_of(item: &Item) -> Mark
    ensures { result ≡ mark_of item.now }
{
    match item {
        Item::Side(Side::Wrote) => Mark::Wrote,
        Item::Side(Side::Broke) => Mark::Broke,
        Item::Posted(Posted::Ended(_)) => Mark::Ended,
        _ => Mark::Nothing,
    }
}

/// Whether the item was said of an order.
pub fn is_side(mark: Mark) -> bool
    ensures { result ≡ is_side mark }
{
    matches!(mark, Mark::Wrote | Mark::Broke)
}

/// What this cause does.
pub fn kind_of(cause: &Cause) -> Kind
    ensures { result ≡ kind_of cause.now }
{
    match cause {
        Cause::Joined(editor) => Kind::Joins(*editor),
        Cause::Started(_) => Kind::Starts,
        Cause::EditorGone(_, _) | Cause::StartFailed(_) | Cause::ServerGone(_) => Kind::Goes,
        _ => Kind::Stays,
    }
}
