// One editor's session at a deck, on one thread.
ghost use Rattle.std.specs.Prelude.{◌≡◌, [], ◌∷◌, IfSome};
ghost use Rattle.lane_desk.specs.Desks.{IsUnused, ids};

use crate::echo::Echo;
use lane_desk::{Deck, Naming};
use lane_lists::{LaneName, Order, Posted, Side};
use lane_queue::{HubEnds, Lane, LaneIn, LaneOut};
use std::alloc::Global;
use std::marker::Brand;
use std::sync::Wait;

/// How the deck stands before the session.
#[derive(Clone, Copy, Debug, PartialEq, Eq)]
pub enum Begin {
    Fresh,
    /// A lane wanted memory.
    Failed,
}

/// What a session left.
#[derive(Drop)]
pub struct Ran {
    pub echo: Echo,
    /// What the lane was ordered to write, in its order.
    pub orders: Vec<Order>,
    /// The core goes on no more.
    pub spent: bool,
}

// The ends of an editors' lane and of the ticker's.
pub fn two(alloc: Global, editor: HubEnds, ticker: HubEnds) -> Option<Vec<HubEnds>>
    ensures { IfSome result (λ v. v.items ≡ editor ∷ ticker ∷ []) }
{
    let mut ends = Vec::new(alloc);
    ends.push(editor).ok()?;
    ends.push(ticker).ok()?;
    Some(ends)
}

// Takes all orders, and says of each body that it was written.
fn orders_of<R: Wait>(rt: &R, alloc: Global, out: &mut LaneOut, most: usize) -> Option<Vec<Order>> {
    let mut orders = Vec::new(alloc);
    for _ in 0..most {
        let Some(order) = out.take(rt) else { break };
        if let Order::Body(_) = order {
            out.push(rt, Side::Wrote).ok()?;
        }
        orders.push(order).ok()?;
    }
    Some(orders)
}

// Posts these items one by one, and has the deck take each.
fn post_all<N: Naming, R: Wait>(
    rt: &R,
    deck: &Deck<Echo, N>,
    inn: &mut LaneIn,
    items: Vec<Posted>,
) -> Option<()> {
    for item in items {
        inn.push(rt, item).ok()?;
        deck.pump(rt, LaneName::Editor(0));
    }
    Some(())
}

// Plays these items at an editors' lane, and takes what it is ordered.
fn play<N: Naming, R: Wait>(
    rt: &R,
    alloc: Global,
    deck: &Deck<Echo, N>,
    inn: &mut LaneIn,
    out: &mut LaneOut,
    items: Vec<Posted>,
) -> Option<Vec<Order>> {
    let most = items.len().saturating_add(1);
    post_all(rt, deck, inn, items)?;
    let orders = orders_of(rt, alloc, out, most)?;
    deck.pump(rt, LaneName::Editor(0));
    Some(orders)
}

fn named<N: Naming, R: Wait>(
    rt: &R,
    alloc: Global,
    editor: (LaneIn, LaneOut, HubEnds),
    ticker: HubEnds,
    items: Vec<Posted>,
    begin: Begin,
) -> Option<Ran>
    requires editor { IsUnused editor.2 }
    requires ticker { IsUnused ticker }
    requires queues { ids editor.2 ∷ ids ticker ∷ [] ≡ N.queues }
    requires counts { (1 ≡ N.editors) × (0 ≡ N.servers) × (0 ≡ N.before) }
{
    let (mut inn, mut out, hub) = editor;
    let ends = two(alloc, hub, ticker)?;
    let deck: Deck<Echo, N> = Deck::new(alloc, Echo::new(alloc), 1, 0, ends).ok()?;
    if matches!(begin, Begin::Failed) {
        deck.fail(rt);
    }
    let orders = play(rt, alloc, &deck, &mut inn, &mut out, items);
    let closed = deck.close();
    Some(Ran {
        echo: closed.core,
        orders: orders?,
        spent: closed.spent,
    })
}

/// A session of these items over an echo; none where memory runs out.
pub fn run<R: Wait>(rt: &R, alloc: Global, items: Vec<Posted>, begin: Begin) -> Option<Ran> {
    let (inn, out, hub) = Lane::new(alloc).ok()?;
    let (_, _, ticker) = Lane::new(alloc).ok()?;
    named::<Brand, R>(rt, alloc, (inn, out, hub), ticker, items, begin)
}
