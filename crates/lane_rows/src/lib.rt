//! Tests of the deck, of the queues of a lane and of a session's reading and writing.
#![tactic(auto)]

#[cfg(test)]
mod io;
#[cfg(test)]
mod queue;
#[cfg(test)]
mod tests;
