//! Words of the routing table that speak of no group: which causes can come, the row of a body that is no message, and what a start has of a document.
#![tactic(auto)]
