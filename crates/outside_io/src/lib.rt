//! The outside as the daemon sees it: sources and sinks of bytes, ports, berths, doors, folders and clocks, each but
//! the clock with a count of its faults, and forms of them in memory.
#![tactic(auto)]

mod berth;
mod clock;
mod door;
mod ending;
mod folder;
mod memory;
mod meter;
mod narrow;
mod port;
mod sink;
mod source;

pub use berth::{Berth, StartFault};
pub use clock::Clock;
pub use door::{Door, DoorFault, Place};
pub use ending::{Ending, Endings};
pub use folder::{Folder, FolderFault};
pub use memory::berth::{Asked, MemBerth};
pub use memory::clock::SetClock;
pub use memory::door::MemDoor;
pub use memory::folder::MemFolder;
pub use memory::port::MemPort;
pub use memory::sink::MemSink;
pub use memory::source::MemSource;
pub use memory::sure::{SureSink, SureSource};
pub use meter::{Gate, Memory, Meter};
pub use narrow::{Drip, Sip};
pub use port::{Arrival, Port};
pub use sink::{Cut, Sink, WriteFault, write_whole};
pub use source::{ReadFault, Source};
