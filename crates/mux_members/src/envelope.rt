//! The parts of a message, by the numbers of their values.
ghost use Rattle.std.specs.Prelude.{◌≡◌};
ghost use Rattle.mux_members.specs.Envelopes.{notification_method, notification_params, outcome_id, outcome_value, request_method, request_params};

use rpc_message::{Envelope, Message};

/// A request's params, where it has some.
pub fn request_params(m: &Message) -> Option<u32>
    ensures { result ≡ request_params m.now.envelope }
{
    match m.envelope() {
        Envelope::Request { params, .. } => params,
        _ => None,
    }
}

/// A request's method.
pub fn request_method(m: &Message) -> Option<u32>
    ensures { result ≡ request_method m.now.envelope }
{
    match m.envelope() {
        Envelope::Request { method, .. } => Some(method),
        _ => None,
    }
}

/// A notification's method.
pub fn notification_method(m: &Message) -> Option<u32>
    ensures { result ≡ notification_method m.now.envelope }
{
    match m.envelope() {
        Envelope::Notification { method, .. } => Some(method),
        _ => None,
    }
}

/// A notification's params, where it has some.
pub fn notification_params(m: &Message) -> Option<u32>
    ensures { result ≡ notification_params m.now.envelope }
{
    match m.envelope() {
        Envelope::Notification { params, .. } => params,
        _ => None,
    }
}

/// The value of a response with a result, where it has one.
pub fn outcome_value(m: &Message) -> Option<u32>
    ensures { result ≡ outcome_value m.now.envelope }
{
    match m.envelope() {
        Envelope::Outcome { value, .. } => value,
        _ => None,
    }
}

/// The id of a response with a result.
pub fn outcome_id(m: &Message) -> Option<u32>
    ensures { result ≡ outcome_id m.now.envelope }
{
    match m.envelope() {
        Envelope::Outcome { id, .. } => Some(id),
        _ => None,
    }
}
