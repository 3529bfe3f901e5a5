//! Which causes of a made input can come, whatever the core says to those before them: lemmas for the command that drives one.
#![tactic(auto)]
