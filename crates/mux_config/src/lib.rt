//! The settings of a daemon, a TOML document (TOML 1.1).
#![tactic(auto)]

mod config;
mod fault;
mod first;
mod keys;
mod laws;
mod read;
mod servers;
mod values;

pub use config::Config;
pub use fault::ConfigFault;
pub use laws::first_law;
