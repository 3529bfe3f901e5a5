// What the daemon's work left.
use lane_echo::Echo;
use mux_daemon::{Answer, Lanes, Served, serve_core};
use mux_lanes::LaneEnd;
use mux_serve::LaneJob;
use outside_io::{Asked, Berth, Clock, MemBerth, MemPort, Port, SetClock};
use std::alloc::{AllocError, Global};
use std::sync::Wait;
use std::test::Fail;
use std::thread::Threads;

/// What keeps the links that it gave, or the programs that it started.
pub trait Kept {
    /// How many bytes the link or the program of this number was written.
    fn written(&self, number: usize) -> Option<usize>;

    /// The starts that it was asked for, where it keeps them.
    fn asked(&self) -> &[Asked] {
        &[]
    }
}

impl Kept for MemPort {
    fn written(&self, number: usize) -> Option<usize> {
        Some(self.session(number)?.1.bytes().len())
    }
}

impl Kept for MemBerth {
    fn written(&self, number: usize) -> Option<usize> {
        Some(self.run(number)?.1.bytes().len())
    }

    fn asked(&self) -> &[Asked] {
        MemBerth::asked(self)
    }
}

/// How a run ended, how many editors joined, how many bytes each link and each program was written, by port and berth, and whether the
/// lanes of all berths ended by the stop and the clock came to its end.
#[derive(Drop)]
pub struct Left {
    answer: Answer,
    joined: u64,
    ports: Vec<Vec<usize>>,
    own: Vec<usize>,
    berths: Vec<Vec<usize>>,
    /// What each berth was asked for.
    asked: Vec<String>,
    all_stopped: bool,
    clock_ended: bool,
}

// The lanes of these ports or berths.
fn jobs<T: Drop>(alloc: Global, all: Vec<T>) -> Result<Vec<LaneJob<T>>, AllocError> {
    let mut jobs = Vec::new(alloc);
    for outside in all {
        jobs.push(LaneJob::new(outside))?;
    }
    Ok(jobs)
}

// How many bytes each link or program of one was written.
fn written<T: Kept>(alloc: Global, kept: &T) -> Result<Vec<usize>, AllocError> {
    let mut all = Vec::new(alloc);
    for number in 0..1_000_000 {
        match kept.written(number) {
            Some(count) => all.push(count)?,
            None => break,
        }
    }
    Ok(all)
}

// The same of each.
fn all_written<T: Kept>(alloc: Global, jobs: &[LaneJob<T>]) -> Result<Vec<Vec<usize>>, AllocError> {
    let mut all = Vec::new(alloc);
    for job in jobs {
        all.push(written(alloc, &job.outside)?)?;
    }
    Ok(all)
}

// What each was asked for.
fn all_asked<T: Kept>(alloc: Global, jobs: &[LaneJob<T>]) -> Result<Vec<String>, AllocError> {
    let mut all = Vec::new(alloc);
    for job in jobs {
        all.push(format!(in alloc; "{:?}", job.outside.asked())?)?;
    }
    Ok(all)
}

// The command of the one server.
fn commands(alloc: Global) -> Result<Vec<Vec<String>>, AllocError> {
    let mut words = Vec::new(alloc);
    words.push(String::from_str(alloc, "server")?)?;
    let mut commands = Vec::new(alloc);
    commands.push(words)?;
    Ok(commands)
}

// Whether all lanes ended by the stop.
fn all_stopped<T>(jobs: &[LaneJob<T>]) -> bool {
    for job in jobs {
        if job.end != LaneEnd::Stopped {
            return false;
        }
    }
    true
}

// Serves these lanes over an echo.
fn served<P: Port + Send + Drop, B: Berth + Send + Drop, R: Threads + Wait + Sync>(
    threads: &R,
    alloc: Global,
    commands: &[Vec<String>],
    lanes: Lanes<P, B, SetClock>,
) -> Served<Echo, P, B, SetClock> {
    serve_core(threads, alloc, Echo::new(alloc), 1024, commands, lanes)
}

// What is to be told of it.
fn left_of<P: Kept + Drop, B: Kept + Drop>(
    alloc: Global,
    served: Served<Echo, P, B, SetClock>,
) -> Result<Left, AllocError> {
    let mut served = served;
    Ok(Left {
        answer: served.answer,
        joined: served.core.joined(),
        ports: all_written(alloc, served.lanes.ports.as_slice())?,
        own: written(alloc, &served.lanes.own.outside)?,
        berths: all_written(alloc, served.lanes.berths.as_slice())?,
        asked: all_asked(alloc, served.lanes.berths.as_slice())?,
        all_stopped: all_stopped(served.lanes.berths.as_slice()),
        clock_ended: served.lanes.clock.outside.next().is_none(),
    })
}

/// Serves these ports and berths, with this own link behind the ports, and with a clock of these moments.
pub fn serve<P: Port + Kept + Send + Drop, B: Berth + Kept + Send + Drop, R: Threads + Wait + Sync>(
    threads: &R,
    alloc: Global,
    ports: Vec<P>,
    own: MemPort,
    berths: Vec<B>,
    moments: Vec<u64>,
) -> Result<Left, AllocError> {
    let lanes = Lanes {
        ports: jobs(alloc, ports)?,
        own: LaneJob::new(own),
        berths: jobs(alloc, berths)?,
        clock: LaneJob::new(SetClock::new(moments)),
    };
    let commands = commands(alloc)?;
    left_of(alloc, served(threads, alloc, commands.as_slice(), lanes))
}

/// Writes what a run left.
pub fn tell(rt: HostRuntime, name: &str, left: &Left) -> Result<(), Fail> {
    println!(rt; "{name}: {:?}, {} editors", left.answer, left.joined)?;
    println!(rt; "  ports {:?}, own link {:?}", left.ports, left.own)?;
    println!(rt;
        "  programs {:?}, all stopped: {}",
        left.berths, left.all_stopped
    )?;
    Ok(())
}

/// Writes whether the clock came to its end.
pub fn tell_clock(rt: HostRuntime, left: &Left) -> Result<(), Fail> {
    println!(rt; "  clock ended: {}", left.clock_ended)?;
    Ok(())
}

/// Writes what each berth was asked for.
pub fn tell_asked(rt: HostRuntime, left: &Left) -> Result<(), Fail> {
    for asked in &left.asked {
        println!(rt; "  asked {asked}")?;
    }
    Ok(())
}
