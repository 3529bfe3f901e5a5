//! Runs the command `drive` on each input that its own input has, over a journal that keeps its entries and over one that drops them, and
//! writes what it wrote, its status, and how many entries were kept.
//!
//! A line `run NAME WORD ..` begins an input, whose lines are those behind it. `append=N`, `read=N` and `write=N` say that the append, read
//! or write of this number, from 0, fails, `cut` that no line feed stands behind the last line, and `each` that all of these fail in turn,
//! also where reads and writes move a byte at a time. `LETTERS` stands for 300,000 letters, in a line and in what is written. Lines that
//! begin with `#` are for the reader. Behind them it runs `make` on made inputs of one draw.
#![tactic(auto)]

mod faults;
mod input;
mod made;
mod run;

use crate::input::inputs;
use crate::run::run;
use std::test::Fail;

fn main(rt: HostRuntime) -> Result<(), Fail> {
    for input in inputs(rt)? {
        run(rt, &input)?;
        if input.is_each {
            faults::each(rt, &input)?;
        }
    }
    made::count(rt, "make", None)?;
    made::count(rt, "make append=7", Some(7))?;
    made::write(rt, "make lines", None)?;
    made::write(rt, "make lines write=1", Some(1))
}
