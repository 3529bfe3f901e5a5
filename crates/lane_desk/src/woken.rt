// Which lanes were given orders.

use lane_lists::LaneName;

/// The lanes that were given orders, of those with the first 64 numbers, and whether another one was. It is told so that these
/// lanes are woken, and no clause speaks of it.
#[derive(Clone, Copy, Debug)]
pub struct Woken {
    editors: u64,
    servers: u64,
    others: bool,
}

impl Woken {
    /// None yet.
    pub fn none() -> Woken {
        Woken {
            editors: 0,
            servers: 0,
            others: false,
        }
    }

    // One that was given an order.
    pub(crate) fn note(&mut self, lane: LaneName) {
        match lane {
            LaneName::Editor(i) if i < 64 => self.editors |= 1 << i,
            LaneName::Server(i) if i < 64 => self.servers |= 1 << i,
            _ => self.others = true,
        }
    }

    /// Whether this lane may have been given an order.
    pub fn has(&self, lane: LaneName) -> bool {
        match lane {
            LaneName::Editor(i) if i < 64 => self.editors >> i & 1 == 1,
            LaneName::Server(i) if i < 64 => self.servers >> i & 1 == 1,
            _ => self.others,
        }
    }
}
