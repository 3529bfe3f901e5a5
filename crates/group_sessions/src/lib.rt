//! The rules of a conforming session, each a law of every legal history of several editors and groups.
#![tactic(auto)]

mod laws;

pub use laws::{
    client_1, client_2, client_3, client_4, client_5, client_6, client_7, exits_end, last_lists,
    progress_due, refreshes, replays, server_1, server_2, server_3, server_4, server_5, server_6,
    server_7, server_8, spawned_in_order, spawned_once,
};
