//! Tests of sources and sinks and of histories, through the public calls of their crates.
#![tactic(auto)]

#[cfg(test)]
mod history;
#[cfg(test)]
mod outside;
