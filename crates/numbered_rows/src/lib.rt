//! Rows by numbers that rise in the order in which they are put, and an index of these by keys: definitions and lemmas, which nothing runs.
#![tactic(auto)]
