//! Tests of the parts of messages, through the public calls of rpc_message.
#![tactic(auto)]

#[cfg(test)]
mod parts;
