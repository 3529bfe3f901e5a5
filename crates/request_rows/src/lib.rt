//! Tests of the tables of asks, of registrations, of progress tokens and of last lists of diagnostics, of what no session of mux_rows
//! comes to, through the public calls of ask_route, registrations, progress_route and diagnostics_route. Each call stands in a function
//! without clauses, since a test is dear by what is known of the calls before.
#![tactic(auto)]

#[cfg(test)]
mod asks;
#[cfg(test)]
mod diagnostics;
#[cfg(test)]
mod held;
#[cfg(test)]
mod live;
#[cfg(test)]
mod progress;
#[cfg(test)]
mod texts;
