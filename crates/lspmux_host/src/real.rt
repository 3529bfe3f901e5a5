// What the program meets on this machine.
use core_notes::{News, NotingClock, NotingJournal};
use log::LevelFilter;
use lspmux_program::{Level, Outside};
use real_host::{
    Input, LinkOver, Notes, Reading, RealBerth, RealClock, RealDoor, RealFolder, Standard, Writing,
};
use std::io;

// How many programs of servers run at one time.
const BERTHS: usize = 16;

pub(crate) type RealOutside = Outside<
    RealDoor,
    RealBerth,
    NotingClock<RealClock>,
    NotingJournal,
    RealFolder,
    Reading<Input>,
    Writing<Standard>,
    Writing<Standard>,
>;

fn filter_of(level: Level) -> LevelFilter {
    match level {
        Level::Error => LevelFilter::Error,
        Level::Warn => LevelFilter::Warn,
        Level::Info => LevelFilter::Info,
        Level::Debug => LevelFilter::Debug,
        Level::Trace => LevelFilter::Trace,
    }
}

// The berths of the daemon.
fn berths(rt: HostRuntime, notes: Notes) -> io::Result<Vec<RealBerth>> {
    let mut berths = Vec::new(rt.alloc());
    for _ in 0..BERTHS {
        berths.push(RealBerth::new(rt, notes))?;
    }
    Ok(berths)
}

// The real outside, whose notes have this level.
pub(crate) fn outside(rt: HostRuntime, level: Level) -> io::Result<RealOutside> {
    let notes = Notes::new(rt, filter_of(level));
    let over = LinkOver::new(rt.alloc())?;
    let news = News::new(rt.alloc())?;
    Ok(Outside {
        door: RealDoor::new(rt, notes, Some(over.share()?)),
        berths: berths(rt, notes)?,
        clock: NotingClock::new(RealClock::new(rt)?, news.share()?, notes),
        journal: NotingJournal::new(news),
        folder: RealFolder::new(rt),
        output: Writing::telling(rt, Standard::Output(rt.stdout()), over.share()?),
        input: Reading::new(Input::new(rt.stdin(), over)),
        notes: Writing::new(rt, Standard::Error(rt.stderr())),
    })
}
