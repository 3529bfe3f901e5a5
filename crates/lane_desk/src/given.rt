// What is ordered of the lanes, out by out.
ghost use Rattle.std.specs.Prelude.{◌≡◌, ◌++◌, ◌∷◌, ◌==◌, ◌<◌, [], ℕ, IfOk, OnOk, filter, fold, length, not};
ghost use Rattle.mux_history.specs.declared.out.Out.TheVariants as out;
ghost use Rattle.lane_lists.specs.declared.item.LaneName.TheVariants as lane;
ghost use Rattle.lane_lists.specs.declared.item.Order.TheVariants as order;
ghost use Rattle.lane_lists.specs.Seats as lists;
ghost use Rattle.lane_lists.specs.Seats.{begin_seat, drop_waiting, give, give_out};
ghost use Rattle.lane_lists.specs.Deeds.{begin_all, with_done};
ghost use Rattle.lane_desk.specs.Kinds.{done_if};
ghost use Rattle.lane_desk.specs.Givens.{Gives, given_by, with_orders};
ghost use Rattle.lane_desk.specs.Places.{IsLane};

use crate::kinds::Kind;
use crate::seats::{Seats, at, begin_at, close_at, free_place, owe_at, place_of};
use lane_lists::{LaneName, Order};
use message_body::{Body, Memory};
use mux_history::{Out, Outs};
use std::alloc::Global;
use std::collections::VecDeque;

/// Orders, each with its lane.
pub type Orders = Vec<(LaneName, Order)>;

// A body to an editor.
fn to_editor(orders: &mut Orders, seats: &mut Seats, editor: u64, body: Body) -> Result<(), Memory>
    ensures { OnOk result (Gives (give_out (with_orders orders.old.items seats.old) (out.ToEditor editor body)) orders.new.items seats.new) }
{
    let Some(i) = place_of(seats.editors.as_slice(), editor) else {
        return Ok(());
    };
    if at(seats.editors.as_slice(), i as u32).is_closed() {
        return Ok(());
    }
    owe_at(&mut seats.editors, i as u32, editor, body.bytes().len())?;
    orders.push((LaneName::Editor(i as u32), Order::Body(body)))?;
    Ok(())
}

// An editor's session is to end.
fn close_editor(orders: &mut Orders, seats: &mut Seats, editor: u64) -> Result<(), Memory>
    ensures { OnOk result (Gives (give_out (with_orders orders.old.items seats.old) (out.CloseEditor editor)) orders.new.items seats.new) }
{
    let Some(i) = place_of(seats.editors.as_slice(), editor) else {
        return Ok(());
    };
    if at(seats.editors.as_slice(), i as u32).is_closed() {
        return Ok(());
    }
    close_at(&mut seats.editors, i as u32);
    orders.push((LaneName::Editor(i as u32), Order::Close))?;
    Ok(())
}

// A body to a start.
fn to_server(orders: &mut Orders, seats: &mut Seats, start: u64, body: Body) -> Result<(), Memory>
    ensures { OnOk result (Gives (give_out (with_orders orders.old.items seats.old) (out.ToServer start body)) orders.new.items seats.new) }
{
    let Some(i) = place_of(seats.servers.as_slice(), start) else {
        return Ok(());
    };
    if at(seats.servers.as_slice(), i as u32).is_closed() {
        return Ok(());
    }
    owe_at(&mut seats.servers, i as u32, start, body.bytes().len())?;
    orders.push((LaneName::Server(i as u32), Order::Body(body)))?;
    Ok(())
}

// These starts but this one.
fn drop_start(waiting: &mut VecDeque<u64>, start: u64)
    ensures { waiting.new.items ≡ filter (λ (w : ℕ). not (w == start)) waiting.old.items }
{
    waiting.retain(|other| *other != start);
}

// A start that waits for a lane gets none.
fn drop_waiting(seats: &mut Seats, start: u64)
    ensures { seats.new ≡ drop_waiting start seats.old }
{
    drop_start(&mut seats.waiting, start);
}

// A start's program is to end.
fn end_server(orders: &mut Orders, seats: &mut Seats, start: u64) -> Result<(), Memory>
    ensures { OnOk result (Gives (give_out (with_orders orders.old.items seats.old) (out.EndServer start)) orders.new.items seats.new) }
{
    drop_waiting(seats, start);
    let Some(i) = place_of(seats.servers.as_slice(), start) else {
        return Ok(());
    };
    if at(seats.servers.as_slice(), i as u32).is_closed() {
        return Ok(());
    }
    close_at(&mut seats.servers, i as u32);
    orders.push((LaneName::Server(i as u32), Order::Close))?;
    Ok(())
}

// A start waits for a lane.
fn wait(seats: &mut Seats, start: u64) -> Result<(), Memory>
    ensures { OnOk result (seats.new ≡ record seats.old { waiting = seats.old.waiting ++ start ∷ [] }) }
{
    seats.waiting.push_back(start)?;
    Ok(())
}

// What one out orders.
fn give_out(orders: &mut Orders, seats: &mut Seats, out: Out) -> Result<(), Memory>
    ensures { OnOk result (Gives (give_out (with_orders orders.old.items seats.old) out) orders.new.items seats.new) }
{
    match out {
        Out::ToEditor(editor, body) => to_editor(orders, seats, editor, body),
        Out::CloseEditor(editor) => close_editor(orders, seats, editor),
        Out::ToServer(start, body) => to_server(orders, seats, start, body),
        Out::EndServer(start) => end_server(orders, seats, start),
        Out::Spawn(start, _) => wait(seats, start),
    }
}

// What the outs order, one behind the other.
fn give_outs(orders: &mut Orders, seats: &mut Seats, outs: Outs) -> Result<(), Memory>
    ensures { OnOk result (Gives (fold give_out (with_orders orders.old.items seats.old) outs) orders.new.items seats.new) }
{
    for out in outs.into_vec() {
        give_out(orders, seats, out)?;
    }
    Ok(())
}

// A start begins in the lane of this number.
fn begin(orders: &mut Orders, seats: &mut Seats, i: usize, start: u64) -> Result<(), Memory>
    requires { i < length seats.old.servers }
    ensures { OnOk result (Gives (give (lane.Server i) (order.Begin start) (begin_seat start)
        (with_orders orders.old.items seats.old)) orders.new.items seats.new) }
{
    begin_at(&mut seats.servers, i as u32, start);
    orders.push((LaneName::Server(i as u32), Order::Begin(start)))?;
    Ok(())
}

// The starts that wait take the lowest free lanes.
#[tactic(auto, using(crate::proofs::Begins::begin_none, crate::proofs::Begins::begin_all_done, crate::proofs::Begins::begin_one))]
fn begin_all(orders: &mut Orders, seats: &mut Seats) -> Result<(), Memory>
    ensures { OnOk result (Gives (begin_all (with_orders orders.old.items seats.old)) orders.new.items seats.new) }
{
    let count = seats.waiting.len();
    for _ in 0..count {
        let Some(i) = free_place(seats.servers.as_slice()) else {
            break;
        };
        let Some(start) = seats.waiting.pop_front() else {
            break;
        };
        begin(orders, seats, i, start)?;
    }
    Ok(())
}

// The order of a session that is over, where it wasn't closed before.
fn first_orders(
    alloc: Global,
    lane: LaneName,
    is_closed: bool,
    kind: Kind,
) -> Result<Orders, Memory>
    ensures { (seats : lists.Seats) → IfOk result (λ v. v.items ≡ (with_done (done_if kind is_closed) lane seats).orders) }
{
    let mut orders = Vec::new(alloc);
    if let Kind::Goes = kind {
        if !is_closed {
            orders.push((lane, Order::Done))?;
        }
    }
    Ok(orders)
}

impl Seats {
    /// The orders of an entry, whose cause is of this kind and came from this lane. Where memory runs out the lanes may stand
    /// for nothing any more.
    pub fn give(
        &mut self,
        lane: LaneName,
        is_side: bool,
        kind: Kind,
        outs: Outs,
    ) -> Result<Orders, Memory>
        requires { IsLane lane self.old }
        ensures { IfOk result (λ orders. Gives (given_by self.old lane is_side kind outs) orders.items self.new) }
    {
        let mut orders = first_orders(self.alloc, lane, self.is_closed(lane), kind)?;
        self.hear(lane, is_side, kind);
        self.count(kind)?;
        give_outs(&mut orders, self, outs)?;
        begin_all(&mut orders, self)?;
        Ok(orders)
    }
}
