//! Tests of the texts of documents, through their public calls.
#![tactic(auto)]

#[cfg(test)]
mod change;
#[cfg(test)]
mod documents;
#[cfg(test)]
mod pieces;
