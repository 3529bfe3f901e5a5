//! Tests of positions in texts, through the public calls of position_codec.
#![tactic(auto)]

#[cfg(test)]
mod positions;
