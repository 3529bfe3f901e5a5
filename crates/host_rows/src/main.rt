//! Tries the real outside, over sockets, programs, files and the clock of this machine. A fault ends it, and says what it was.
#![tactic(auto)]

mod links;
mod pairs;
mod places;
mod programs;
mod streams;
mod writes;

use std::test::Fail;

fn main(rt: HostRuntime) -> Result<(), Fail> {
    links::a_unix_socket(&rt, rt)?;
    links::a_tcp_port(&rt, rt)?;
    places::a_stale_file_and_two_doors(rt)?;
    places::files_of_others(rt)?;
    places::a_file_that_was_replaced(rt)?;
    programs::a_program_that_hears_its_end(rt)?;
    programs::a_program_whose_child_stays(rt)?;
    programs::a_program_that_ignores_its_end(rt)?;
    programs::a_program_that_reads_nothing(rt)?;
    programs::no_program(rt)?;
    programs::the_level_of_a_shell(rt)?;
    programs::the_folder_of_a_program(rt)?;
    streams::a_folder(rt)?;
    streams::a_clock(rt)?;
    streams::an_input_ends_with_its_link(rt)?;
    streams::an_output_and_notes(rt)?;
    writes::a_peer_that_reads_late_over_unix(&rt, rt)?;
    writes::a_peer_that_reads_late_over_tcp(&rt, rt)?;
    writes::a_peer_that_never_reads_over_unix(&rt, rt)?;
    writes::a_peer_that_never_reads_over_tcp(&rt, rt)?;
    writes::a_peer_that_reads_little(&rt, rt)?;
    Ok(())
}
