//! Parts that rows of the routing table share, as code over the tables: where editors are placed, how groups end, what editors leave, and what is refused.
#![tactic(auto)]

mod answered;
mod calls;
mod carried;
mod creates;
mod doubled;
mod evicting;
mod greeting;
mod held;
mod initials;
mod leaves;
mod lists;
mod live_texts;
mod own;
mod placing;
mod refusals;
mod tokens;

pub use answered::{answered_ask, answered_number};
pub use calls::{call_registered, call_unregistered, call_unregistered_any};
pub use carried::{Carried, Carries, lives};
pub use creates::{created_mark, created_text, held_text, kind_of, offer, told_text};
pub use doubled::doubles;
pub use evicting::{end_groups, evict, replace, stage_at};
pub use greeting::{add_comma, bytes_of, folders_text, opening, quoted, shown_of};
pub use group_facts::mux_members;
pub use held::{refuse_held, refuse_ids};
pub use initials::{refuse_id, refuse_initialize};
pub use leaves::{Departure, cancel_request, depart, leaving};
pub use lists::listed_text;
pub use live_texts::{register_text, unregister_text};
pub use mux_tables;
pub use own::asks_lspmux;
pub use placing::{found, turn_away, waits, welcome};
pub use refusals::{
    asked_at, refuse, refuse_early, refuse_request, refuse_reserved, refuse_wrong, reject,
};
pub use tokens::{
    forwarded_text, is_reserved, mark_text, marked, marked_text, reserves, token_text,
};
