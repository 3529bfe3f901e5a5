//! Plays links of a daemon to a client and to questions, and writes of each how it ended, what was sent on the link, and what was shown.
#![tactic(auto)]

mod links;
mod rows;
mod runs;

use std::test::Fail;

fn main(rt: HostRuntime) -> Result<(), Fail> {
    rows::clients(&rt, rt)?;
    rows::questions(rt)?;
    rows::both_ways_at_once(&rt, rt)?;
    rows::failed_calls(&rt, rt)?;
    rows::no_links(&rt, rt)?;
    rows::an_input_that_ends(&rt, rt)?;
    rows::an_input_that_never_ends(&rt, rt)
}
