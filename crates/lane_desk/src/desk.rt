// What lies under the deck's lock.
ghost use Rattle.std.specs.Prelude.{◌≡◌, ◌<◌, ◌≤◌, ◌+◌, ◌^◌, [], IfSome, IsTrue, MatchBool, MatchOption, None, Some, length, map, slice_get, true, false, not};
ghost use Rattle.outside_io.specs.Faults.{Rose};
ghost use Rattle.mux_history.specs.Cores.{body_length};
ghost use Rattle.lane_queue.specs.Ends.{HubSide};
ghost use Rattle.lane_desk.specs.Desks.{Acted, Became, Dealt, FoundNothing, IsEmptied, Kept, Pairwise, Pushed, Same, TooMany, Took, ids};
ghost use Rattle.lane_desk.specs.Givens.{given_by};
ghost use Rattle.lane_desk.specs.Kinds.{is_side};
ghost use Rattle.lane_desk.specs.Places.{IsLane, name, place};
ghost use Rattle.lane_desk.specs.Stops.{is_last, last_behind};
ghost use Rattle.lane_lists.specs.Origins.{IsIn};

use crate::given::Orders;
use crate::kinds::{Kind, Mark, is_side, kind_of, mark_of};
use crate::seats::Seats;
use crate::woken::Woken;
use lane_lists::{Item, LaneName, Meaning, Order};
use lane_queue::HubEnds;
use mux_history::{Cause, Outs};
use mux_steps::{StepFault, Steps};
use std::sync::Wait;

// Takes an item of a lane: first what is said of its orders.
fn take_of<R: Wait>(rt: &R, ends: &mut HubEnds) -> Option<Item>
    ensures { MatchOption result (FoundNothing ends.old ends.new) (λ x. Took x ends.old ends.new) }
{
    if let Some(side) = ends.next_side(rt) {
        return Some(Item::Side(side));
    }
    match ends.next(rt) {
        Some(posted) => Some(Item::Posted(posted)),
        None => None,
    }
}

// Takes an item of the lane at this place.
fn take_item<R: Wait>(rt: &R, ends: &mut Vec<HubEnds>, place: usize) -> Option<Item>
    requires { place < length ends.old.items }
    ensures { MatchOption result (Became place FoundNothing ends.old.items ends.new.items) (λ x. Became place (Took x) ends.old.items ends.new.items) }
{
    take_of(rt, &mut ends[place])
}

// Pushes an order of the lane at this place.
fn push_order<R: Wait>(rt: &R, ends: &mut Vec<HubEnds>, place: usize, order: Order) -> bool
    requires { place < length ends.old.items }
    ensures { MatchBool result (Became place (Pushed order) ends.old.items ends.new.items) (Became place Same ends.old.items ends.new.items) }
{
    ends[place].push(rt, order).is_ok()
}

/// How many lanes of editors and of servers there are.
#[derive(Clone, Copy)]
pub struct Counts {
    pub editors: usize,
    pub servers: usize,
}

// The place of the ends of this lane; none of a lane that isn't there.
fn place_of(counts: Counts, lane: LaneName) -> Option<usize>
    requires { counts.editors + counts.servers < 2 ^ 63 }
    ensures { IfSome result (λ i. (i ≡ place counts.editors counts.servers lane) × IsIn counts.editors counts.servers lane) }
{
    match lane {
        LaneName::Editor(i) if (i as usize) < counts.editors => Some(i as usize),
        LaneName::Server(i) if (i as usize) < counts.servers => Some(counts.editors + i as usize),
        LaneName::Ticker => Some(counts.editors + counts.servers),
        _ => None,
    }
}

// Pushes one order.
#[tactic(auto, using(crate::proofs::Ends::all_same, crate::proofs::Ends::same_self))]
fn give<R: Wait>(
    rt: &R,
    counts: Counts,
    ends: &mut Vec<HubEnds>,
    lane: LaneName,
    order: Order,
) -> bool
    requires counts { counts.editors + counts.servers < 2 ^ 63 }
    requires ends { length ends.old.items ≡ counts.editors + counts.servers + 1 }
    ensures { MatchBool result (IsIn counts.editors counts.servers lane
        × Became (place counts.editors counts.servers lane) (Pushed order) ends.old.items ends.new.items)
        (Pairwise (λ _. Same) ends.old.items ends.new.items) }
{
    match place_of(counts, lane) {
        Some(place) => push_order(rt, ends, place, order),
        None => false,
    }
}

// Pushes the orders, each at its lane, up to one that memory is wanted for, and notes the lanes.
#[tactic(auto, using(crate::proofs::Ends::deal_one, crate::proofs::Ends::deal_stop, crate::proofs::Ends::none_given))]
fn deal<R: Wait>(
    rt: &R,
    counts: Counts,
    ends: &mut Vec<HubEnds>,
    orders: Orders,
    woken: &mut Woken,
) -> bool
    requires counts { counts.editors + counts.servers < 2 ^ 63 }
    requires ends { length ends.old.items ≡ counts.editors + counts.servers + 1 }
    ensures { Pairwise (λ i. Dealt (name counts.editors counts.servers i) orders.items [] result) ends.old.items ends.new.items }
{
    for (lane, order) in orders {
        if !give(rt, counts, ends, lane, order) {
            return false;
        }
        woken.note(lane);
    }
    true
}

/// What a turn did.
#[derive(Clone, Copy)]
pub struct Turned {
    /// An item was taken, and the core goes on.
    pub took: bool,
    /// The core goes on no more.
    pub spent: bool,
    /// The fault of its step, where it had one.
    pub why: Option<StepFault>,
}

impl Turned {
    // Nothing was there.
    fn nothing() -> Turned
        ensures { result ≡ record { took = false; spent = false; why = None } }
    {
        Turned {
            took: false,
            spent: false,
            why: None,
        }
    }

    // The core goes on no more.
    fn over(why: Option<StepFault>) -> Turned
        ensures { result ≡ record { took = false; spent = true; why = why } }
    {
        Turned {
            took: false,
            spent: true,
            why,
        }
    }

    // An item was taken.
    fn on() -> Turned
        ensures { result ≡ record { took = true; spent = false; why = None } }
    {
        Turned {
            took: true,
            spent: false,
            why: None,
        }
    }
}

/// Where an item was taken, and what it leaves.
#[derive(Clone, Copy)]
pub struct Taken {
    pub lane: LaneName,
    pub mark: Mark,
}

// Gives the orders of an entry.
fn give_entry<R: Wait>(
    rt: &R,
    counts: Counts,
    ends: &mut Vec<HubEnds>,
    seats: &mut Seats,
    taken: Taken,
    kind: Kind,
    outs: Outs,
    woken: &mut Woken,
) -> bool
    requires counts { counts.editors + counts.servers < 2 ^ 63 }
    requires ends { length ends.old.items ≡ counts.editors + counts.servers + 1 }
    requires lane { IsLane taken.lane seats.old }
    ensures dealt { Pairwise (λ i. Dealt (name counts.editors counts.servers i)
        (given_by seats.old taken.lane (is_side taken.mark) kind outs).orders [] result) ends.old.items ends.new.items }
    ensures seats { IsTrue result → seats.new ≡ (given_by seats.old taken.lane (is_side taken.mark) kind outs).seats }
{
    let Ok(orders) = seats.give(taken.lane, is_side(taken.mark), kind, outs) else {
        return false;
    };
    deal(rt, counts, ends, orders, woken)
}

// Has the core take a cause, and gives what it orders.
fn act<K: Steps, R: Wait>(
    rt: &R,
    counts: Counts,
    core: &mut K,
    ends: &mut Vec<HubEnds>,
    seats: &mut Seats,
    taken: Taken,
    cause: Cause,
    woken: &mut Woken,
) -> Turned
    requires small { body_length cause ≤ 268435456 }
    requires counts { counts.editors + counts.servers < 2 ^ 63 }
    requires ends { length ends.old.items ≡ counts.editors + counts.servers + 1 }
    requires lane { IsLane taken.lane seats.old }
    ensures acted { Acted K.stands (TooMany K.stands K.allows K.passes) counts.editors counts.servers taken.lane taken.mark cause
        (not result.spent) result.why core.old core.new ends.old.items ends.new.items seats.old seats.new }
    ensures goes { result.took ≡ not result.spent }
    ensures later { K.faults core.old ≤ K.faults core.new }
    ensures journal { result.why ≡ Some StepFault.Journal → Rose (K.faults core.old) (K.faults core.new) }
    ensures ready { result.spent ≡ false → K.spent core.old ≡ false → K.spent core.new ≡ false }
    ensures over { (f : StepFault) → result.why ≡ Some f → K.spent core.new ≡ true }
{
    if !core.fits(&cause) {
        return Turned::over(None);
    }
    let kind = kind_of(&cause);
    seats.mark(taken.lane, taken.mark);
    let outs = match core.step(cause) {
        Ok(outs) => outs,
        Err(why) => return Turned::over(Some(why)),
    };
    if give_entry(rt, counts, ends, seats, taken, kind, outs, woken) {
        Turned::on()
    } else {
        Turned::over(None)
    }
}

// Whether it is the last lane of editors.
fn is_last(counts: Counts, lane: LaneName) -> bool
    ensures { result ≡ is_last counts.editors lane }
{
    match lane {
        LaneName::Editor(i) => i as usize + 1 == counts.editors,
        _ => false,
    }
}

// Whether, behind a cause of this kind, the last editor that joined is of the last lane, and found no other there.
fn last_behind(counts: Counts, seats: &Seats, lane: LaneName, kind: Kind, last: bool) -> bool
    ensures { result ≡ last_behind counts.editors seats.now lane kind last }
{
    match kind {
        Kind::Joins(_) => is_last(counts, lane) && seats.has_no_editor(),
        _ => last,
    }
}

/// Takes one item of a lane, does what it means, and notes the lanes that are given orders. `last` says whether the last editor that joined is of the last lane, and
/// found no other there.
pub fn take_turn<K: Steps, R: Wait>(
    rt: &R,
    counts: Counts,
    core: &mut K,
    ends: &mut Vec<HubEnds>,
    seats: &mut Seats,
    last: &mut bool,
    lane: LaneName,
    woken: &mut Woken,
) -> Turned
    requires counts { counts.editors + counts.servers < 2 ^ 63 }
    requires ends { length ends.old.items ≡ counts.editors + counts.servers + 1 }
    requires kept { Kept K.stands (TooMany K.stands K.allows K.passes) counts.editors counts.servers true last.old None core.old ends.old.items seats.old }
    ensures kept { Kept K.stands (TooMany K.stands K.allows K.passes) counts.editors counts.servers (not result.spent) last.new result.why core.new ends.new.items seats.new }
    ensures goes { result.took ≡ true → result.spent ≡ false }
    ensures nothing { result.took ≡ false → result.spent ≡ false → (x : HubSide)
        → slice_get ends.old.items (place counts.editors counts.servers lane) ≡ Some x → IsEmptied x }
    ensures ids { map ids ends.new.items ≡ map ids ends.old.items }
    ensures later { K.faults core.old ≤ K.faults core.new }
    ensures journal { result.why ≡ Some StepFault.Journal → Rose (K.faults core.old) (K.faults core.new) }
    ensures ready { result.spent ≡ false → K.spent core.old ≡ false → K.spent core.new ≡ false }
    ensures over { (f : StepFault) → result.why ≡ Some f → K.spent core.new ≡ true }
{
    let Some(place) = place_of(counts, lane) else {
        return Turned::over(None);
    };
    if !seats.has(lane) {
        return Turned::over(None);
    }
    let Some(item) = take_item(rt, ends, place) else {
        return Turned::nothing();
    };
    let mark = mark_of(&item);
    match seats.meaning(lane, item) {
        Meaning::Silent => {
            seats.mark(lane, mark);
            Turned::on()
        }
        Meaning::Stray => Turned::over(None),
        Meaning::Means(cause) => {
            let is_last = last_behind(counts, seats, lane, kind_of(&cause), *last);
            let turned = act(
                rt,
                counts,
                core,
                ends,
                seats,
                Taken { lane, mark },
                cause,
                woken,
            );
            *last = turned.took && is_last;
            turned
        }
    }
}
