//! The table of groups: which editors share a server, by what they have in common and what is declared for them.
#![tactic(auto)]

mod compare;
mod groups;

pub use groups::Groups;
