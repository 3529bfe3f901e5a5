//! Tests of the crates of JSON, through their public calls.
#![tactic(auto)]

#[cfg(test)]
mod nodes;
#[cfg(test)]
mod spans;
#[cfg(test)]
mod texts;
#[cfg(test)]
mod tokens;
