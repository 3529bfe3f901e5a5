//! Tests of capabilities, and of what the routing table reads in bodies, through the public calls.
#![tactic(auto)]

#[cfg(test)]
mod capabilities;
#[cfg(test)]
mod members;
