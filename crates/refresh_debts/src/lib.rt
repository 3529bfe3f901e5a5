//! What starts of servers want asked anew, and owe to editors (LSP 3.17, the refresh requests of Language Features).
#![tactic(auto)]

mod debts;

pub use debts::{Debt, Debts};
