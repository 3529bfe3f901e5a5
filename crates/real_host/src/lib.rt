//! The real outside: Unix sockets, loopback TCP, programs, the clock, files and the standard streams behind the traits of
//! `outside_io`, each but the clock with a count of its faults. None tells what it carries.
#![tactic(auto)]

mod berth;
mod clock;
mod door;
mod folder;
mod guarded;
mod halves;
mod input;
mod link_over;
mod listener;
mod notes;
mod output;
mod patience;
mod place;
mod port;
mod program;
mod reading;
mod reason;
mod socket_file;
mod standard;
mod wire;
mod writing;

pub use berth::RealBerth;
pub use clock::RealClock;
pub use door::RealDoor;
pub use folder::RealFolder;
pub use halves::{LinkInput, LinkOutput};
pub use input::Input;
pub use link_over::LinkOver;
pub use notes::Notes;
pub use output::Output;
pub use port::RealPort;
pub use program::{ProgramInput, ProgramOutput};
pub use reading::Reading;
pub use standard::Standard;
pub use wire::Wire;
pub use writing::{Channel, Writing};
