//! How the program is called.

/// The forms of the words, one line each, for the standard error.
pub const USAGE: &str = "\
usage: lspmux drive [--config FILE]
       lspmux serve [--config FILE] [--log error|warn|info|debug|trace]
       lspmux client [--config FILE] [--server NAME]
       lspmux status [--config FILE]
       lspmux stop [--config FILE]
       lspmux make [--lines] N SEED
";
