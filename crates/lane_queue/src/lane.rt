// The three queues of a lane, and their ends.
ghost use Rattle.std.specs.Prelude.{◌≡◌, ◌++◌, [], ◌∷◌, IfOk, IfErr, OnOk, MatchOption, IsSome, IsNone, length};
ghost use Rattle.lane_queue.specs.Relay.{Begins};

use crate::line;
use crate::line::{PutEnd, TakeEnd};
use lane_lists::{Order, Posted, Side};
use message_body::Memory;
use outside_io::{Ending, Endings};
use std::alloc::Global;
use std::marker::Model;
use std::sync::Wait;

/// A lane: a queue of what its reading part posts, one of what its writing part says of its orders, and one of the orders
/// that it gets. Each is unbounded.
pub struct Lane;

/// The end of the part that reads. Contracts see which queue it is of, and the list of what it pushed.
#[derive(Drop)]
pub struct LaneIn {
    posted: PutEnd<Posted>,
}

impl Model for LaneIn {
    ghost use Rattle.lane_queue.specs.Ends.{Pushing};
    ghost use Rattle.lane_lists.specs.declared.item.Posted.{Posted};

    ghost Value = { Pushing Posted };

    ghost view = { λ e. record { queue = e.posted.0; pushed = e.posted.1 } };
}

/// The ends of the part that writes: it takes orders and pushes what became of them. Contracts see of each end which queue
/// it is of, and the list of what went through it.
#[derive(Drop)]
pub struct LaneOut {
    orders: TakeEnd<Order>,
    sides: PutEnd<Side>,
    endings: Endings,
    // How many sessions were ended by the orders that were taken.
    ended: u64,
}

impl Model for LaneOut {
    ghost use Rattle.lane_queue.specs.Ends.{OutSide};

    ghost Value = { OutSide };

    ghost view = { λ e. record {
      orders = record { queue = e.orders.0; taken = e.orders.1; known = e.orders.2 };
      sides = record { queue = e.sides.0; pushed = e.sides.1 };
    } };
}

/// The ends of the one that takes what is posted and gives orders, which stand under its lock.
#[derive(Drop)]
pub struct HubEnds {
    posted: TakeEnd<Posted>,
    sides: TakeEnd<Side>,
    orders: PutEnd<Order>,
    endings: Endings,
}

impl Model for HubEnds {
    ghost use Rattle.lane_queue.specs.Ends.{HubSide};

    ghost Value = { HubSide };

    ghost view = { λ e. record {
      posted = record { queue = e.posted.0; taken = e.posted.1; known = e.posted.2 };
      sides = record { queue = e.sides.0; taken = e.sides.1; known = e.sides.2 };
      orders = record { queue = e.orders.0; pushed = e.orders.1 };
    } };
}

impl Lane {
    /// The ends of a new lane, through which nothing went yet.
    pub fn new(alloc: Global) -> Result<(LaneIn, LaneOut, HubEnds), Memory>
        ensures posted { IfOk result (λ r. (r.0.queue ≡ r.2.posted.queue) × (r.0.pushed ≡ []) × (r.2.posted.taken ≡ [])) }
        ensures sides { IfOk result (λ r. (r.1.sides.queue ≡ r.2.sides.queue) × (r.1.sides.pushed ≡ []) × (r.2.sides.taken ≡ [])) }
        ensures orders { IfOk result (λ r. (r.1.orders.queue ≡ r.2.orders.queue) × (r.1.orders.taken ≡ []) × (r.2.orders.pushed ≡ [])) }
    {
        let (post, posted) = line::new(alloc)?;
        let (put_side, sides) = line::new(alloc)?;
        let (orders, take_order) = line::new(alloc)?;
        let Ok(endings) = Endings::new(alloc) else {
            return Err(Memory);
        };
        let Ok(theirs) = endings.share() else {
            return Err(Memory);
        };
        Ok((
            LaneIn { posted: post },
            LaneOut {
                orders: take_order,
                sides: put_side,
                endings: theirs,
                ended: 0,
            },
            HubEnds {
                posted,
                sides,
                orders,
                endings,
            },
        ))
    }
}

impl LaneIn {
    /// Puts an item behind those that were posted. Running out of memory hands it back and changes nothing.
    pub fn push<R: Wait>(&mut self, rt: &R, item: Posted) -> Result<(), Posted>
        ensures queue { self.new.queue ≡ self.old.queue }
        ensures ok { OnOk result (self.new.pushed ≡ self.old.pushed ++ item ∷ []) }
        ensures err { IfErr result (λ x. (x ≡ item) × (self.new ≡ self.old)) }
    {
        self.posted.push(rt, item)
    }
}

impl LaneOut {
    /// The end of the session that goes on or comes next, which is ordered as soon as a `Close` or a `Done` that ends it stands
    /// in the queue, whatever orders stand before it.
    pub fn ending(&self) -> Result<Ending, Memory> {
        match self.endings.of_session(self.ended) {
            Ok(ending) => Ok(ending),
            Err(_) => Err(Memory),
        }
    }

    /// Takes the foremost order. None comes only where the queue held none at that step.
    pub fn take<R: Wait>(&mut self, rt: &R) -> Option<Order>
        ensures queue { (self.new.orders.queue ≡ self.old.orders.queue) × (self.new.sides ≡ self.old.sides) }
        ensures item { MatchOption result (self.new.orders.taken ≡ self.old.orders.taken) (λ x. self.new.orders.taken ≡ self.old.orders.taken ++ x ∷ []) }
        ensures seen { IsSome result → Begins self.new.orders.known self.new.orders.taken }
        ensures none { IsNone result → Begins self.old.orders.taken self.old.orders.known }
    {
        let order = self.orders.take(rt);
        if matches!(&order, Some(Order::Close | Order::Done)) {
            self.ended = self.ended.saturating_add(1);
        }
        order
    }

    /// Puts what became of an order behind those before. Running out of memory hands it back and changes nothing.
    pub fn push<R: Wait>(&mut self, rt: &R, item: Side) -> Result<(), Side>
        ensures queue { (self.new.sides.queue ≡ self.old.sides.queue) × (self.new.orders ≡ self.old.orders) }
        ensures ok { OnOk result (self.new.sides.pushed ≡ self.old.sides.pushed ++ item ∷ []) }
        ensures err { IfErr result (λ x. (x ≡ item) × (self.new ≡ self.old)) }
    {
        self.sides.push(rt, item)
    }
}

impl HubEnds {
    /// Takes the foremost posted item. None comes only where the queue held none at that step.
    pub fn next<R: Wait>(&mut self, rt: &R) -> Option<Posted>
        ensures queue { self.new.posted.queue ≡ self.old.posted.queue }
        ensures others { (self.new.sides ≡ self.old.sides) × (self.new.orders ≡ self.old.orders) }
        ensures item { MatchOption result (self.new.posted.taken ≡ self.old.posted.taken) (λ x. self.new.posted.taken ≡ self.old.posted.taken ++ x ∷ []) }
        ensures seen { IsSome result → Begins self.new.posted.known self.new.posted.taken }
        ensures none { IsNone result → Begins self.old.posted.taken self.old.posted.known }
    {
        self.posted.take(rt)
    }

    /// Takes the foremost word on an order. None comes only where the queue held none at that step.
    pub fn next_side<R: Wait>(&mut self, rt: &R) -> Option<Side>
        ensures queue { self.new.sides.queue ≡ self.old.sides.queue }
        ensures others { (self.new.posted ≡ self.old.posted) × (self.new.orders ≡ self.old.orders) }
        ensures item { MatchOption result (self.new.sides.taken ≡ self.old.sides.taken) (λ x. self.new.sides.taken ≡ self.old.sides.taken ++ x ∷ []) }
        ensures seen { IsSome result → Begins self.new.sides.known self.new.sides.taken }
        ensures none { IsNone result → Begins self.old.sides.taken self.old.sides.known }
    {
        self.sides.take(rt)
    }

    /// Puts an order behind those before. Running out of memory hands it back and changes nothing.
    pub fn push<R: Wait>(&mut self, rt: &R, order: Order) -> Result<(), Order>
        ensures queue { self.new.orders.queue ≡ self.old.orders.queue }
        ensures others { (self.new.posted ≡ self.old.posted) × (self.new.sides ≡ self.old.sides) }
        ensures ok { OnOk result (self.new.orders.pushed ≡ self.old.orders.pushed ++ order ∷ []) }
        ensures err { IfErr result (λ x. (x ≡ order) × (self.new ≡ self.old)) }
    {
        let ends = matches!(&order, Order::Close | Order::Done);
        self.orders.push(rt, order)?;
        if ends {
            self.endings.raise();
        }
        Ok(())
    }

    /// The ends of all sessions of the lane are ordered, since no order comes any more.
    pub fn end_all(&self) {
        self.endings.raise_all();
    }
}

/// The joined passes of a lane. Contracts see of each queue what was pushed, what was taken and what is left.
#[derive(Drop)]
pub struct Settled {
    posted: line::Settled<Posted>,
    sides: line::Settled<Side>,
    orders: line::Settled<Order>,
}

impl Model for Settled {
    ghost use Rattle.lane_queue.specs.Ends.{AllQueues};

    ghost Value = { AllQueues };

    ghost view = { λ s. record { posted = s.posted; sides = s.sides; orders = s.orders } };
}

impl Settled {
    /// How many posted items were never taken.
    pub fn posted_left(&self) -> usize
        ensures { result ≡ length self.now.posted.left }
    {
        self.posted.left()
    }

    /// How many words on orders were never taken.
    pub fn sides_left(&self) -> usize
        ensures { result ≡ length self.now.sides.left }
    {
        self.sides.left()
    }

    /// How many orders were never taken.
    pub fn orders_left(&self) -> usize
        ensures { result ≡ length self.now.orders.left }
    {
        self.orders.left()
    }
}

/// Joins the three ends of one lane. Of each queue, what was pushed is what was taken and then what is left.
pub fn settle<R: Wait>(rt: &R, inn: LaneIn, out: LaneOut, hub: HubEnds) -> Settled
    requires posted { inn.queue ≡ hub.posted.queue }
    requires sides { out.sides.queue ≡ hub.sides.queue }
    requires orders { out.orders.queue ≡ hub.orders.queue }
    ensures posted { (result.posted.pushed ≡ inn.pushed) × (result.posted.taken ≡ hub.posted.taken) × (inn.pushed ≡ hub.posted.taken ++ result.posted.left) }
    ensures sides { (result.sides.pushed ≡ out.sides.pushed) × (result.sides.taken ≡ hub.sides.taken)
        × (out.sides.pushed ≡ hub.sides.taken ++ result.sides.left) }
    ensures orders { (result.orders.pushed ≡ hub.orders.pushed) × (result.orders.taken ≡ out.orders.taken)
        × (hub.orders.pushed ≡ out.orders.taken ++ result.orders.left) }
{
    let LaneIn { posted: post } = inn;
    let LaneOut {
        orders: take_order,
        sides: put_side,
        ..
    } = out;
    let HubEnds {
        posted,
        sides,
        orders,
        ..
    } = hub;
    Settled {
        posted: line::settle(rt, post, posted),
        sides: line::settle(rt, put_side, sides),
        orders: line::settle(rt, orders, take_order),
    }
}
