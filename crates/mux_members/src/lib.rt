//! What the routing table reads in bodies: methods, ids, and the members of params and of results.
#![tactic(auto)]

mod cancel;
mod envelope;
mod look;
mod method;
mod notice;
mod outcome;
mod params;

pub use cancel::{cancelled_id, cancelled_token};
pub use look::{first_item, is_object, member, member_bytes, next_value};
pub use method::{
    asked_class, cancels_work, class_in, goes_on, is_cancel, is_dollar, is_exit, is_initialize,
    is_initialized, is_message_request, is_open, is_status, is_stop, is_wrong, told_class,
};
pub use notice::{Notice, notice_in, opened_uri, speaks, string};
pub use outcome::{encoding, is_first_result, reads_versions};
pub use params::{has_token, named_token, text, token};
pub use rpc_message;
pub use rpc_message::json_span;
