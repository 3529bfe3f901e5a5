// What a lane posts.
ghost use Rattle.std.specs.Prelude.{◌≡◌, [], ◌∷◌, ◌++◌, MatchBool};

use crate::switchboard::Switchboard;
use lane_desk::Naming;
use lane_lists::Posted;
use lane_queue::LaneIn;
use mux_steps::Steps;
use std::sync::Wait;

/// Posts an item. One that was refused, since memory ran out, makes the core go on no more.
pub fn post<K: Steps + Drop, N: Naming, R: Wait>(
    rt: &R,
    board: &Switchboard<K, N>,
    inn: &mut LaneIn,
    item: Posted,
) -> bool
    ensures queue { inn.new.queue ≡ inn.old.queue }
    ensures posts { MatchBool result (inn.new.pushed ≡ inn.old.pushed ++ item ∷ []) (inn.new.pushed ≡ inn.old.pushed) }
{
    let is_posted = inn.push(rt, item).is_ok();
    if !is_posted {
        board.fail(rt);
    }
    is_posted
}
