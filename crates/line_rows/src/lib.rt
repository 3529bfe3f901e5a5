//! Tests of the lines that causes are read from and that outs are written as, through the public calls of drive_text.
#![tactic(auto)]

#[cfg(test)]
mod lines;
