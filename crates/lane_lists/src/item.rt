// The items of the queues of a lane.
use message_body::Body;
use mux_history::{Cause, Why};

/// A lane of the deck.
#[derive(Clone, Copy, Debug, PartialEq, Eq)]
pub enum LaneName {
    Editor(u32),
    Server(u32),
    Ticker,
}

/// What a lane that reads posts.
#[derive(Debug, Drop)]
pub enum Posted {
    Link,
    Up,
    NoStart,
    Body(Body),
    Ended(Why),
    Tick(u64),
}

/// What a lane that writes says of an order of a body.
#[derive(Clone, Copy, Debug, PartialEq, Eq)]
pub enum Side {
    Wrote,
    Broke,
}

/// What the deck orders of a lane.
#[derive(Debug, Drop)]
pub enum Order {
    Begin(u64),
    Body(Body),
    Close,
    Done,
}

/// An item that the deck takes.
#[derive(Debug, Drop)]
pub enum Item {
    Posted(Posted),
    Side(Side),
}

/// What an item is to the deck: a cause, nothing, or that it can't come there.
#[derive(Debug, Drop)]
pub enum Meaning {
    Means(Cause),
    Silent,
    Stray,
}
