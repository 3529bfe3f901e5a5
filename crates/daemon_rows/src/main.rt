//! Serves links and programs in memory by the daemon's threads, over an echo, and writes of each run how it ended.
#![tactic(auto)]

mod daemon;
mod faults;
mod left;
mod peers;
mod sides;

use std::test::Fail;

fn main(rt: HostRuntime) -> Result<(), Fail> {
    daemon::closed_ports_end_the_work(&rt, rt)?;
    daemon::without_ports_there_is_the_own_link_alone(&rt, rt)?;
    daemon::each_of_two_waits_for_the_other(&rt, rt)?;
    daemon::a_failed_write_ends_its_session_alone(&rt, rt)?;
    daemon::many_editors_at_once(&rt, rt)?;
    daemon::a_thousand_links_one_after_the_other(&rt, rt)?;
    daemon::a_stop_ends_the_work(&rt, rt)?;
    daemon::sixteen_starts_are_up_until_a_stop(&rt, rt)?;
    daemon::a_start_that_fails_makes_room(&rt, rt)?;
    daemon::editors_and_starts_are_there_at_once(&rt, rt)?;
    faults::links_fail_at_each_call(&rt, rt)?;
    faults::programs_fail_at_each_call(&rt, rt)?;
    faults::a_peer_that_stops_reading_stops_no_other(&rt, rt)
}
