//! What events and outs change of the words over a history, whatever the routing table: lemmas that the laws of legal histories are proved from.
#![tactic(auto)]
