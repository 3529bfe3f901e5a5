// How many sessions of a lane were ordered to end, which its threads share.

use crate::meter::{Memory, Meter};
use std::alloc::Global;

/// How many sessions of a lane were ordered to end, which any thread may read. Sessions are numbered from 0, in their order.
#[derive(Drop)]
pub struct Endings {
    ordered: Meter,
}

impl Endings {
    /// Of a lane none of whose sessions was ordered to end.
    pub fn new(alloc: Global) -> Result<Endings, Memory> {
        let ordered = Meter::new(alloc)?;
        Ok(Endings { ordered })
    }

    /// Another owner of the same number.
    pub fn share(&self) -> Result<Endings, Memory> {
        let ordered = self.ordered.share()?;
        Ok(Endings { ordered })
    }

    /// One session more was ordered to end.
    pub fn raise(&self) {
        self.ordered.add(1);
    }

    /// All sessions, and each that is to come, were ordered to end.
    pub fn raise_all(&self) {
        self.ordered.add(1 << 63);
    }

    /// The end of the session with this number.
    pub fn of_session(&self, session: u64) -> Result<Ending, Memory> {
        let ordered = self.ordered.share()?;
        Ok(Ending { ordered, session })
    }
}

/// Whether one session of a lane was ordered to end.
#[derive(Drop)]
pub struct Ending {
    ordered: Meter,
    session: u64,
}

impl Ending {
    /// Whether its end was ordered. Once it was, it stays so.
    pub fn is_ordered(&self) -> bool {
        self.ordered.shown() > self.session
    }
}
