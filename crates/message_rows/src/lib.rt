//! Tests of which body is which message, through the public calls of rpc_message.
#![tactic(auto)]

#[cfg(test)]
mod messages;
