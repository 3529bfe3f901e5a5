//! Tests of frames, through the public calls of base_frame.
#![tactic(auto)]

#[cfg(test)]
mod frames;
