//! The rules of a conforming session, as definitions, and what is proved of them whatever the routing table is.
#![tactic(auto)]
