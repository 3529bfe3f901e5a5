// What wakes a lane.
ghost use Rattle.std.specs.Prelude.{◌≡◌, IfOk, vec_len};

use message_body::Memory;
use std::alloc::Global;
use std::sync::{Condvar, Mutex, Wait};

/// The bell of a lane, which says that there may be something to do.
#[derive(Drop)]
pub struct Bell {
    is_rung: Mutex<bool>,
    heard: Condvar,
}

impl Bell {
    fn new() -> Bell {
        Bell {
            is_rung: Mutex::new(false),
            heard: Condvar::new(),
        }
    }

    /// Wakes the one that waits, or who waits next.
    pub fn ring<R: Wait>(&self, rt: &R) {
        *self.is_rung.lock(rt) = true;
        self.heard.notify_all();
    }

    /// Sleeps until it is rung, and silences it.
    pub fn wait<R: Wait>(&self, rt: &R) {
        let mut is_rung = self
            .heard
            .wait_while(rt, self.is_rung.lock(rt), |is_rung| !*is_rung);
        *is_rung = false;
    }
}

/// So many bells, none of them rung.
pub fn bells(alloc: Global, count: u32) -> Result<Vec<Bell>, Memory>
    ensures { IfOk result (λ bells. vec_len bells ≡ count) }
{
    let mut bells = Vec::new(alloc);
    for _ in 0..count {
        bells.push(Bell::new())?;
    }
    Ok(bells)
}
