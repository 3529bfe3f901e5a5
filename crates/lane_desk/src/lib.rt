//! The core behind a lock, with the ends of all lanes: what is taken of them, what it means, and what is ordered.
#![tactic(auto)]

mod deck;
mod desk;
mod given;
mod kinds;
mod meaning;
mod seat;
mod seats;
mod woken;

pub use deck::{Closed, Deck, Desk, Naming, Took};
pub use seat::Seat;
pub use seats::Seats;
pub use woken::Woken;
