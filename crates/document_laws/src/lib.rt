//! What the rows of the documents that a group shares send and keep: the documents follow what editors have, and a start has
//! each holder's text.
#![tactic(auto)]
