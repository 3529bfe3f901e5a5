//! Plays the sessions of its input, each over a hub of its own, and writes what each of them brings; and behind them what a hub says as a
//! core.
//!
//! A line `session NAME LIMIT=NUMBER ..` begins a session, whose hub has the program's own limits but for those that are named. The lines
//! behind it are its cause lines. Empty lines, and those that begin with `#`, are for the reader.
#![tactic(auto)]

mod cores;
mod play;
mod session;

use crate::play::play;
use crate::session::sessions;
use std::test::Fail;

fn main(rt: HostRuntime) -> Result<(), Fail> {
    for session in sessions(rt)? {
        play(rt, &session)?;
    }
    cores::a_hub_is_a_core(rt)?;
    cores::a_start_that_failed_is_renewed_once(rt)?;
    cores::a_core_whose_journal_failed_is_spent(rt)
}
