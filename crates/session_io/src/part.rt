// What the two parts of a session ask of the outside of it.
use std::sync::Wait;

/// How the writing part was ordered to end its session.
#[derive(Clone, Copy, Debug, PartialEq, Eq)]
pub enum End {
    /// The session is to be closed.
    Closed,
    /// It was over already.
    Done,
}

/// The core that takes what sessions post and orders what they write, as one session sees it.
///
/// Nothing is known of what its calls do but that they return a value; what the session posts and takes goes through its
/// lane's own ends.
pub trait Core {
    /// Waits, as a part begins, until the other one has begun as well. False says that it can't.
    fn begins(&self) -> bool {
        true
    }

    /// Has the core take what was posted. False says that it goes on no more.
    fn pump<R: Wait>(&self, rt: &R) -> bool;

    /// Sleeps until there may be an order.
    fn sleep<R: Wait>(&self, rt: &R);

    /// How the writing part of this session ended, where it has.
    fn ended(&self) -> Option<End>;
}
