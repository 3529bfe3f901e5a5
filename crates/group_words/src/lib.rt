//! The groups of editors: what is known of one, and where an editor is placed.
#![tactic(auto)]

mod idle;
mod kept;
mod key;
mod placed;

pub use capability_meet;
pub use capability_meet::json_span;
pub use idle::Idle;
pub use kept::Kept;
pub use key::Key;
pub use placed::Placed;
