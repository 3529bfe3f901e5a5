//! Why settings are refused.
use std::alloc::AllocError;

/// Why settings are refused. A path is a key's, as `idle` or `server.main.command`.
#[derive(Debug, Drop)]
pub enum ConfigFault {
    /// The bytes are no TOML document.
    NotToml,
    /// The least path in byte order that names no setting.
    Unknown(String),
    /// No path is unknown, and this is the least that has to be there and isn't.
    Missing(String),
    /// No path is unknown or missing, and this is the least whose value has another type or is out of its range.
    Range(String),
    /// Want of memory.
    Memory,
}

impl From<AllocError> for ConfigFault {
    ghost use Rattle.std.specs.Prelude.{◌≡◌};
    ghost use Rattle.mux_config.specs.declared.fault.ConfigFault.TheVariants.{Memory};

    ghost from_gives = { λ _ fault. fault ≡ Memory };

    fn from(_: AllocError) -> ConfigFault {
        ConfigFault::Memory
    }
}
