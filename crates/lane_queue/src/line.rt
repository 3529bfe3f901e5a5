// One queue from one thread to another, under the rule of `specs/Relay.antt`: its two ends, and their join.
ghost use Rattle.std.specs.Prelude.{◌≡◌, ◌++◌, [], ◌∷◌, List, ℕ, IfOk, IfErr, OnOk, MatchOption, IsSome, IsNone, length};
ghost use Rattle.std.specs.Arc.{arc_value};
ghost use Rattle.lane_queue.specs.Relay.{Begins};
ghost use Rattle.crossbeam_queue.specs.SegTies.{IsSegPassOf};

use crossbeam_queue::protocol::{Join, Lesson, Outcome, Protocol, Split};
use crossbeam_queue::{RuledSegQueue, SegPass};
use message_body::Memory;
use std::alloc::Global;
use std::collections::LinkedList;
use std::marker::Model;
use std::sync::{Arc, Wait};

// What a pass of the queue may do, and what it has pushed and taken. No value of it is made.
pub struct Log<T> {
    pub pushes: bool,
    pub takes: bool,
    pub sent: LinkedList<T>,
    pub got: LinkedList<T>,
    pub known: LinkedList<T>,
}

// The rule.
pub struct InOrder;

impl<T> Protocol<T, Log<T>> for InOrder {
    ghost use Rattle.std.specs.Prelude.{true, []};
    ghost use Rattle.lane_queue.specs.Relay.{log, Relayed};

    ghost holds = { Relayed };

    ghost first = { log true true [] [] [] };
}

// One pass pushes, the other takes.
pub struct Roles;

impl<T> Split<Log<T>> for Roles {
    ghost use Rattle.std.specs.Prelude.{true, false, []};
    ghost use Rattle.lane_queue.specs.Relay.{log};

    ghost left = { λ v. log true false v.sent [] [] };

    ghost right = { λ v. log false true [] v.got v.known };
}

impl<T> Join<Log<T>> for Roles {
    ghost use Rattle.std.specs.Prelude.{true, false, []};
    ghost use Rattle.lane_queue.specs.Relay.{log};

    ghost both = { λ v w. log true true v.sent w.got w.known };

    ghost spent = { log false false [] [] [] };
}

// A push.
pub struct Sent;

impl<T> Outcome<T, Log<T>> for Sent {
    ghost use Rattle.std.specs.Prelude.{◌≡◌, ◌++◌, ◌∷◌, []};
    ghost use Rattle.lane_queue.specs.Relay.{log};

    ghost then = { λ v x w. w ≡ log v.pushes v.takes (v.sent ++ x ∷ []) v.got v.known };
}

// A take, whether it gives an item or finds nothing.
pub struct Got;

impl<T> Outcome<T, Log<T>> for Got {
    ghost use Rattle.std.specs.Prelude.{◌≡◌, ◌++◌, ◌∷◌, [], List};
    ghost use Rattle.lane_queue.specs.Relay.{log, Begins};

    ghost then = { λ v x w. (known : List T) × (w ≡ log v.pushes v.takes v.sent (v.got ++ x ∷ []) known) × Begins known (v.got ++ x ∷ []) };
}

impl<T> Lesson<T, Log<T>> for Got {
    ghost use Rattle.std.specs.Prelude.{◌++◌};
    ghost use Rattle.lane_queue.specs.Relay.{Begins};

    ghost fact = { λ v items. Begins (v.got ++ items) v.known };
}

// A look at the length.
pub struct Total;

impl<T> Lesson<T, Log<T>> for Total {
    ghost use Rattle.std.specs.Prelude.{◌≡◌, ◌++◌};

    ghost fact = { λ v items. v.sent ≡ v.got ++ items };
}

type Queue<T> = RuledSegQueue<T, Log<T>, InOrder>;

// The queue has no drop of its own.
pub struct Line<T: Drop> {
    queue: Queue<T>,
}

impl<T: Drop> Drop for Line<T> {
    fn drop(self) {
        let Self { queue } = self;
        queue.destroy();
    }
}

/// The end that pushes. Contracts see which queue it is of, and the list of what it pushed.
#[derive(Drop)]
pub struct PutEnd<T: Drop> {
    line: Arc<Line<T>, Global>,
    pass: SegPass<T, Log<T>>,
}

impl<T: Drop> Model for PutEnd<T> {
    ghost use Rattle.std.specs.Prelude.{◌≡◌, List, ℕ, true, false, []};
    ghost use Rattle.std.specs.Arc.{arc_value};
    ghost use Rattle.crossbeam_queue.specs.SegTies.{IsSegPassOf};
    ghost use Rattle.lane_queue.specs.Relay.{log};

    ghost Value = { (ℕ × ℕ) × List T };

    ghost view = { λ e. ((arc_value e.line).queue.web, e.pass.me.view.client.sent) };

    ghost invariant = { λ e. IsSegPassOf (arc_value e.line).queue e.pass × (e.pass.me.view.client ≡ log true false e.pass.me.view.client.sent [] []) };
}

/// The end that takes.
#[derive(Drop)]
pub struct TakeEnd<T: Drop> {
    line: Arc<Line<T>, Global>,
    pass: SegPass<T, Log<T>>,
}

impl<T: Drop> Model for TakeEnd<T> {
    ghost use Rattle.std.specs.Prelude.{◌≡◌, List, ℕ, true, false, []};
    ghost use Rattle.std.specs.Arc.{arc_value};
    ghost use Rattle.crossbeam_queue.specs.SegTies.{IsSegPassOf};
    ghost use Rattle.lane_queue.specs.Relay.{log};

    ghost Value = { (ℕ × ℕ) × List T × List T };

    ghost view = { λ e. ((arc_value e.line).queue.web, e.pass.me.view.client.got, e.pass.me.view.client.known) };

    ghost invariant = { λ e. IsSegPassOf (arc_value e.line).queue e.pass
        × (e.pass.me.view.client ≡ log false true [] e.pass.me.view.client.got e.pass.me.view.client.known) };
}

/// The ends of a new queue.
pub fn new<T: Drop>(alloc: Global) -> Result<(PutEnd<T>, TakeEnd<T>), Memory>
    ensures same { IfOk result (λ r. r.0.0 ≡ r.1.0) }
    ensures empty { IfOk result (λ r. (r.0.1 ≡ []) × (r.1.1 ≡ []) × (r.1.2 ≡ [])) }
{
    let (queue, mut pass) = Queue::<T>::with_rule(alloc)?;
    let taker = queue.another::<Roles>(&mut pass);
    let line = Arc::new(alloc, Line { queue })?;
    let theirs = Arc::try_clone(&line)?;
    Ok((
        PutEnd { line, pass },
        TakeEnd {
            line: theirs,
            pass: taker,
        },
    ))
}

impl<T: Drop> PutEnd<T> {
    /// Puts an item at the back. Running out of memory hands it back.
    pub fn push<R: Wait>(&mut self, rt: &R, item: T) -> Result<(), T>
        ensures queue { self.new.0 ≡ self.old.0 }
        ensures ok { OnOk result (self.new.1 ≡ self.old.1 ++ item ∷ []) }
        ensures err { IfErr result (λ x. (x ≡ item) × (self.new.1 ≡ self.old.1)) }
    {
        self.line.queue.push_as::<Sent, R>(rt, &mut self.pass, item)
    }
}

impl<T: Drop> TakeEnd<T> {
    /// Takes the item at the front, or finds none.
    pub fn take<R: Wait>(&mut self, rt: &R) -> Option<T>
        ensures queue { self.new.0 ≡ self.old.0 }
        ensures item { MatchOption result (self.new.1 ≡ self.old.1) (λ x. self.new.1 ≡ self.old.1 ++ x ∷ []) }
        ensures seen { IsSome result → Begins self.new.2 self.new.1 }
        ensures none { IsNone result → Begins self.old.1 self.old.2 }
    {
        self.line.queue.pop_as::<Got, R>(rt, &mut self.pass)
    }
}

/// Both passes in one. Contracts see what was pushed, what was taken and what is left.
#[derive(Drop)]
pub struct Settled<T: Drop> {
    line: Arc<Line<T>, Global>,
    pass: SegPass<T, Log<T>>,
    count: usize,
}

impl<T: Drop> Model for Settled<T> {
    ghost use Rattle.std.specs.Prelude.{◌≡◌, ◌++◌, List, length};
    ghost use Rattle.lane_queue.specs.Relay.{Queues, lists, queues_code};

    ghost Value = { Queues T };

    ghost coded = { queues_code T.code };

    ghost view = { λ s. lists s.pass.me.view.client };

    ghost invariant = { λ s. (left : List T) × (s.pass.me.view.client.sent ≡ s.pass.me.view.client.got ++ left) × (length left ≡ s.count) };
}

impl<T: Drop> Settled<T> {
    /// How many items are left.
    pub fn left(&self) -> usize
        ensures count { result ≡ length self.now.left }
        ensures parts { self.now.pushed ≡ self.now.taken ++ self.now.left }
    {
        self.count
    }
}

/// Joins the two passes of one queue.
pub fn settle<T: Drop, R: Wait>(rt: &R, put: PutEnd<T>, take: TakeEnd<T>) -> Settled<T>
    requires { put.0 ≡ take.0 }
    ensures pushed { result.pushed ≡ put.1 }
    ensures taken { result.taken ≡ take.1 }
    ensures parts { result.pushed ≡ result.taken ++ result.left }
{
    let PutEnd { line, mut pass } = put;
    let TakeEnd {
        line: theirs,
        pass: other,
    } = take;
    line.queue.absorb::<Roles>(&mut pass, other);
    let count = line.queue.len_as::<Total, R>(rt, &mut pass);
    drop(theirs);
    Settled { line, pass, count }
}
