// Why a command has no settings.
ghost use Rattle.std.specs.Prelude.{◌≡◌, IfOk, string_bytes};
ghost use Rattle.program_settings.specs.Lines.{line_of};

use message_body::Memory;
use std::alloc::Global;

/// Why a command has no settings. A path is a key's, as `idle` or `server.main.command`.
#[derive(Debug, Drop)]
pub enum SettingsFault {
    /// The file can't be read, or has more than 1,048,576 bytes.
    Unread,
    /// Its bytes are no TOML document.
    NotToml,
    /// The least path in byte order that names no setting.
    Unknown(String),
    /// No path is unknown, and this is the least that has to be there and isn't.
    Missing(String),
    /// No path is unknown or missing, and this is the least whose value has another type or is out of its range.
    Range(String),
    /// Memory was wanted.
    Memory,
}

impl SettingsFault {
    /// The fault line, with its line feed; no bytes where memory was wanted.
    pub fn line(&self, alloc: Global) -> Result<String, Memory>
        ensures { IfOk result (λ line. string_bytes line ≡ line_of self.now) }
    {
        match self {
            SettingsFault::Unread => Ok(format!(in alloc; "!settings unread\n")?),
            SettingsFault::NotToml => Ok(format!(in alloc; "!settings not toml\n")?),
            SettingsFault::Unknown(path) => Ok(format!(in alloc; "!settings unknown {path}\n")?),
            SettingsFault::Missing(path) => Ok(format!(in alloc; "!settings missing {path}\n")?),
            SettingsFault::Range(path) => Ok(format!(in alloc; "!settings range {path}\n")?),
            SettingsFault::Memory => Ok(String::new(alloc)),
        }
    }
}
