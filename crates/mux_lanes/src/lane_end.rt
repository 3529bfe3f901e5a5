// How a lane's work ended, and what it leaves.
use crate::session::Ends;

/// How a lane's work ended.
#[derive(Clone, Copy, Debug, PartialEq, Eq)]
pub enum LaneEnd {
    /// What it serves has no more.
    Through,
    /// A stop is done, and so its work too.
    Stopped,
    /// The core goes on no more.
    Over,
    /// What it did last was cut off: memory ran out, or the core goes on no more.
    Cut,
}

/// What a lane leaves.
#[derive(Drop)]
pub struct Lane {
    pub ends: Ends,
    pub end: LaneEnd,
}

/// What one session leaves of its lane.
#[derive(Drop)]
pub struct Served {
    pub ends: Ends,
    pub is_whole: bool,
}
