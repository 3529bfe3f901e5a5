//! Tests of the messages that are written, through the public calls of rpc_message.
#![tactic(auto)]

#[cfg(test)]
mod written;
