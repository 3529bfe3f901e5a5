// One editor's session at the deck of a core, and the clock's, on one thread.
ghost use Rattle.std.specs.Prelude.{◌≡◌, [], ◌∷◌, IfSome, false};
ghost use Rattle.lane_desk.specs.Desks.{IsUnused, ids};

use lane_desk::{Deck, Naming};
use lane_lists::{LaneName, Order, Posted, Side};
use lane_queue::{HubEnds, Lane, LaneIn, LaneOut};
use message_body::Body;
use mux_lanes::{Switchboard, ticker_lane};
use mux_steps::Steps;
use outside_io::SetClock;
use std::alloc::Global;
use std::marker::Brand;
use std::sync::Wait;

/// What a session left.
#[derive(Drop)]
pub(crate) struct Ran<K: Drop> {
    pub(crate) core: K,
    /// What the editor's lane was ordered to write.
    pub(crate) order: Option<Order>,
}

// The ends of an editor's lane, of a server's, and of the ticker's.
fn three(alloc: Global, editor: HubEnds, server: HubEnds, ticker: HubEnds) -> Option<Vec<HubEnds>>
    ensures { IfSome result (λ v. v.items ≡ editor ∷ server ∷ ticker ∷ []) }
{
    let mut ends = Vec::new(alloc);
    ends.push(editor).ok()?;
    ends.push(server).ok()?;
    ends.push(ticker).ok()?;
    Some(ends)
}

// A link comes, and a body of it, each of which the deck takes; then what the lane is ordered is written.
fn speak<K: Steps + Drop, N: Naming, R: Wait>(
    rt: &R,
    board: &Switchboard<K, N>,
    inn: &mut LaneIn,
    out: &mut LaneOut,
    body: Body,
) -> Option<Order> {
    let lane = LaneName::Editor(0);
    inn.push(rt, Posted::Link).ok()?;
    board.pump(rt, lane);
    inn.push(rt, Posted::Body(body)).ok()?;
    board.pump(rt, lane);
    let order = out.take(rt)?;
    out.push(rt, Side::Wrote).ok()?;
    board.pump(rt, lane);
    Some(order)
}

fn named<K: Steps + Drop, N: Naming, R: Wait>(
    rt: &R,
    alloc: Global,
    core: K,
    editor: (LaneIn, LaneOut, HubEnds),
    server: HubEnds,
    ticker: (LaneIn, HubEnds),
    body: Body,
    clock: SetClock,
) -> Option<Ran<K>>
    requires core { K.stands core [] }
    requires ready { K.spent core ≡ false }
    requires unused { IsUnused editor.2 × IsUnused server × IsUnused ticker.1 }
    requires queues { ids editor.2 ∷ ids server ∷ ids ticker.1 ∷ [] ≡ N.queues }
    requires counts { (1 ≡ N.editors) × (1 ≡ N.servers) × (K.faults core ≡ N.before) }
{
    let (mut inn, mut out, hub) = editor;
    let (mut ticks, ticker) = ticker;
    let ends = three(alloc, hub, server, ticker)?;
    let deck: Deck<K, N> = Deck::new(alloc, core, 1, 1, ends).ok()?;
    let board = match Switchboard::new(alloc, deck, 1, 1) {
        Ok(board) => board,
        Err(deck) => {
            deck.close();
            return None;
        }
    };
    let mut clock = clock;
    let order = speak(rt, &board, &mut inn, &mut out, body);
    ticker_lane(rt, &board, &mut clock, &mut ticks);
    Some(Ran {
        core: board.close().close().core,
        order,
    })
}

// The ends of a lane through which nothing went yet.
fn lane(alloc: Global) -> Option<(LaneIn, LaneOut, HubEnds)>
    ensures { IfSome result (λ lane. IsUnused lane.2) }
{
    match Lane::new(alloc) {
        Ok(lane) => Some(lane),
        Err(_) => None,
    }
}

/// An editor comes and says this body, and then the clock gives its moments; none where memory runs out.
pub(crate) fn run<K: Steps + Drop, R: Wait>(
    rt: &R,
    alloc: Global,
    core: K,
    body: Body,
    clock: SetClock,
) -> Option<Ran<K>>
    requires core { K.stands core [] }
    requires ready { K.spent core ≡ false }
{
    let editor = lane(alloc)?;
    let (_, _, server) = lane(alloc)?;
    let (ticks, _, ticker) = lane(alloc)?;
    named::<K, Brand, R>(
        rt,
        alloc,
        core,
        editor,
        server,
        (ticks, ticker),
        body,
        clock,
    )
}
