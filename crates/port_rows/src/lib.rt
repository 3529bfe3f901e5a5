//! Tests of ports, of berths, of doors, of folders and of clocks, through the public calls of outside_io.
#![tactic(auto)]

#[cfg(test)]
mod ports;
