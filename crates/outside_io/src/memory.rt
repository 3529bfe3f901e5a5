// Forms of the outside in memory, which tell their contents.

pub(crate) mod berth;
pub(crate) mod clock;
pub(crate) mod door;
pub(crate) mod folder;
pub(crate) mod links;
pub(crate) mod port;
pub(crate) mod sink;
pub(crate) mod source;
pub(crate) mod sure;
