//! The settings of a daemon.
ghost use Rattle.std.proofs.Props.{props};
ghost use Rattle.mux_config.specs.Chosen.{IsInRange, chosen_by};

use event_model::{Limits, Server};
use outside_io::Place;

/// The settings of a daemon. Each field is in its range, there is one command for each server, and the servers' names are
/// UTF-8, of which no two are equal.
#[derive(Debug, Drop)]
pub struct Config {
    /// Where links come: a path of 1 to 100 bytes, a port from 1 on, or the standard input and output.
    pub place: Place,
    /// Links at one time, 1 to 32.
    pub links: u32,
    /// Bytes of one body, 1,024 to 268,435,456.
    pub content: u32,
    pub limits: Limits,
    /// The place among the servers of that which is meant where an editor names none.
    pub default: u32,
    /// The servers in byte order of their names, 1 to 1,024.
    pub servers: Vec<Server>,
    /// The command of each, one or more words.
    pub commands: Vec<Vec<String>>,
    ghost in_range: { IsInRange (chosen_by place links content limits default servers.items commands.items) } by { Prim.hlevel props },
}
