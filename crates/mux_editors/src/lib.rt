//! Rows of the routing table of what editors say, as code over the tables.
#![tactic(auto)]

mod cancelled;
mod doubled;
mod handed;
mod initializes;
mod notices;
mod opened;
mod parting;
mod passed;
mod quiet;
mod requests;
mod running;
mod shows;
mod status;
mod stops;
mod worked;

pub use cancelled::{Target, take_cancel};
pub use doubled::{take_doubled, take_doubled_own};
pub use handed::take_reply;
pub use initializes::take_initialize;
pub use mux_turns::{asks_lspmux, doubles};
pub use notices::take_notice;
pub use opened::take_open;
pub use parting::{take_down, take_exit, take_gone, take_shutdown};
pub use passed::{keep_configuration, take_passed};
pub use quiet::{take_closed, take_early, take_malformed, take_quiet, take_wrong};
pub use requests::take_request;
pub use status::take_status;
pub use stops::take_stop;
pub use worked::take_work_cancel;
