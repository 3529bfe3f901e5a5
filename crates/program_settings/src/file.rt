// Settings by their file.
ghost use Rattle.std.specs.Prelude.{◌≡◌, ℕ, ◌≤◌, Option, OnErr, option_map, length};
ghost use Rattle.outside_io.specs.Faults.{Rose};
ghost use Rattle.program_settings.specs.Readings.{IsReading, ReadsAs};

use crate::fault::SettingsFault;
use mux_config::{Config, ConfigFault};
use outside_io::{Folder, FolderFault};
use std::alloc::Global;

// The most bytes of a settings' file.
const MOST: u64 = 1_048_576;

// Settings by these bytes.
fn settings_in(alloc: Global, bytes: &[u8]) -> Result<Config, SettingsFault>
    ensures { ReadsAs bytes.now result }
{
    match Config::read(alloc, bytes) {
        Ok(config) => Ok(config),
        Err(ConfigFault::NotToml) => Err(SettingsFault::NotToml),
        Err(ConfigFault::Unknown(path)) => Err(SettingsFault::Unknown(path)),
        Err(ConfigFault::Missing(path)) => Err(SettingsFault::Missing(path)),
        Err(ConfigFault::Range(path)) => Err(SettingsFault::Range(path)),
        Err(ConfigFault::Memory) => Err(SettingsFault::Memory),
    }
}

/// The settings in the file of this path, of at most 1,048,576 bytes, or the built-in ones where no file is named. A file is read
/// once. `Unread` comes only where the folder's count rose.
pub fn settings<F: Folder>(
    alloc: Global,
    folder: &mut F,
    file: Option<&str>,
) -> Result<Config, SettingsFault>
    ensures read { IsReading (F.files folder.old) (option_map (λ path. path.now) file.entry) (Rose (F.faults folder.old) (F.faults folder.new)) result }
    ensures files { F.files folder.new ≡ F.files folder.old }
    ensures later { F.faults folder.old ≤ F.faults folder.new }
{
    let Some(path) = file else {
        return match Config::built_in(alloc) {
            Ok(config) => Ok(config),
            Err(_) => Err(SettingsFault::Memory),
        };
    };
    match folder.read(path, MOST) {
        Ok(bytes) => settings_in(alloc, bytes.as_slice()),
        Err(FolderFault::Failed) => Err(SettingsFault::Unread),
        Err(FolderFault::Memory) => Err(SettingsFault::Memory),
    }
}
