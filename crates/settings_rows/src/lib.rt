//! Tests of the settings, through the public calls of mux_config.
#![tactic(auto)]

#[cfg(test)]
mod settings;
