// The program, from its words to its status.
ghost use Rattle.std.specs.Prelude.{◌≡◌, [], MatchBool, None, map, option_map, string_bytes};
ghost use Rattle.outside_io.specs.Doors.{address_of};
ghost use Rattle.outside_io.specs.Faults.{Rose};
ghost use Rattle.mux_hub.specs.Hubs.{Tells};
ghost use Rattle.program_settings.specs.Lines.{Reported};
ghost use Rattle.serve_program.specs.Faults.{ended_line, ended_status};
ghost use Rattle.lspmux_words.specs.Meaning as meaning;
ghost use Rattle.lspmux_program.specs.Programs.{AskedBy, Came, Did, DroveBy, Idle, JoinedBy, MadeBy, Says, ServedBy, WroteLines, file_of, is_streams, words_line};

use crate::client::report;
use crate::notes::{note_end, note_settings};
use crate::outside::{Left, Outside};
use drive_program::drive_command;
use lspmux_words::{Command, Level, USAGE, WordsFault, command_of};
use make_program::{make_command, make_lines_command};
use mux_client::{Question, ask, client};
use mux_config::Config;
use mux_steps::Journal;
use outside_io::{Berth, Clock, Door, Folder, Place, Sink, Source};
use program_settings::{refuse, settings, write_line};
use serve_program::{Ended, ServeFault, serve_by};
use std::alloc::Global;
use std::sync::Wait;
use std::thread::Threads;

// A run that did nothing but to say why.
fn idle<
    D: Door + Drop,
    B: Berth + Send + Drop,
    C: Clock + Send + Drop,
    J: Journal + Send + Drop,
    F: Folder + Drop,
    I: Source + Send + Drop,
    O: Sink + Send + Drop,
    N: Sink + Drop,
>(outside: Outside<D, B, C, J, F, I, O, N>, status: u8) -> Left<D, D::Port, B, C, J, F, I, O, N>
    ensures { result ≡ record {
      status = status;
      door = outside.door;
      lanes = None;
      port = None;
      journal = outside.journal;
      folder = outside.folder;
      input = outside.input;
      output = outside.output;
      notes = outside.notes;
    } }
{
    let Outside {
        door,
        berths: _,
        clock: _,
        journal,
        folder,
        input,
        output,
        notes,
    } = outside;
    Left {
        status,
        door,
        lanes: None,
        port: None,
        journal,
        folder,
        input,
        output,
        notes,
    }
}

// `drive`.
fn drive<
    D: Door + Drop,
    B: Berth + Send + Drop,
    C: Clock + Send + Drop,
    J: Journal + Send + Drop,
    F: Folder + Drop,
    I: Source + Send + Drop,
    O: Sink + Send + Drop,
    N: Sink + Drop,
>(
    alloc: Global,
    config: Config,
    outside: Outside<D, B, C, J, F, I, O, N>,
) -> Left<D, D::Port, B, C, J, F, I, O, N>
    requires { Tells (J.told outside.journal) [] }
    ensures { DroveBy D.calls D.left D.faults D.Port.Port.sessions D.Port.Port.links D.Port.Port.held D.Port.Port.faults B.runs B.left B.faults C.given C.left
        J.told J.faults F.files F.faults I.taken I.left I.faults O.written O.faults config outside result }
{
    let Outside {
        door,
        berths: _,
        clock: _,
        journal,
        folder,
        mut input,
        mut output,
        notes,
    } = outside;
    let (journal, status) = drive_command(alloc, config, journal, &mut input, &mut output);
    Left {
        status,
        door,
        lanes: None,
        port: None,
        journal,
        folder,
        input,
        output,
        notes,
    }
}

// Whether a daemon's links are the standard input and output.
fn is_on_streams(place: &Place) -> bool
    ensures { result ≡ is_streams (address_of place.now) }
{
    matches!(place, Place::Streams)
}

// Says how a daemon ended: on the output, or on the notes where its links are the output.
fn report_end<O: Sink, N: Sink>(
    on_streams: bool,
    output: &mut O,
    notes: &mut N,
    ended: Result<(), ServeFault>,
) -> u8
    ensures { MatchBool on_streams ((result ≡ ended_status ended) × (output.new ≡ output.old))
        (Reported result (ended_status ended) (O.written output.old) (O.written output.new) (ended_line ended) (Rose (O.faults output.old) (O.faults output.new))) }
{
    if on_streams {
        serve_program::report(notes, ended)
    } else {
        serve_program::report(output, ended)
    }
}

// `serve`.
#[tactic(auto, using(crate::proofs::Serving::served_end))]
fn serve<
    R: Threads + Wait + Sync,
    D: Door + Drop,
    B: Berth + Send + Drop,
    C: Clock + Send + Drop,
    J: Journal + Send + Drop,
    F: Folder + Drop,
    I: Source + Send + Drop,
    O: Sink + Send + Drop,
    N: Sink + Drop,
>(
    rt: &R,
    alloc: Global,
    config: Config,
    outside: Outside<D, B, C, J, F, I, O, N>,
) -> Left<D, D::Port, B, C, J, F, I, O, N>
    requires { Tells (J.told outside.journal) [] }
    ensures { ServedBy D.calls D.left D.faults D.Port.Port.sessions D.Port.Port.links D.Port.Port.held D.Port.Port.faults B.runs B.left B.faults C.given C.left
        J.told J.faults F.files F.faults I.taken I.left I.faults O.written O.faults config outside result }
{
    let Outside {
        mut door,
        berths,
        clock,
        journal,
        folder,
        input,
        mut output,
        mut notes,
    } = outside;
    let on_streams = is_on_streams(&config.place);
    let Ended {
        result,
        journal,
        lanes,
    } = serve_by(rt, alloc, config, &mut door, berths, clock, journal);
    let status = report_end(on_streams, &mut output, &mut notes, result);
    Left {
        status,
        door,
        lanes,
        port: None,
        journal,
        folder,
        input,
        output,
        notes,
    }
}

// `client`.
fn join<
    R: Threads + Wait + Sync,
    D: Door + Drop,
    B: Berth + Send + Drop,
    C: Clock + Send + Drop,
    J: Journal + Send + Drop,
    F: Folder + Drop,
    I: Source + Send + Drop,
    O: Sink + Send + Drop,
    N: Sink + Drop,
>(
    rt: &R,
    alloc: Global,
    config: &Config,
    server: Option<&str>,
    outside: Outside<D, B, C, J, F, I, O, N>,
) -> Left<D, D::Port, B, C, J, F, I, O, N>
    ensures { JoinedBy D.calls D.left D.faults D.Port.Port.sessions D.Port.Port.links D.Port.Port.held D.Port.Port.faults B.runs B.left B.faults C.given C.left
        J.told J.faults F.files F.faults I.taken I.left I.faults O.written O.faults config.now (option_map (λ name. name.now) server.entry) outside result }
{
    let Outside {
        mut door,
        berths: _,
        clock: _,
        journal,
        folder,
        mut input,
        mut output,
        mut notes,
    } = outside;
    let mut port = None;
    let ended = client(
        rt,
        alloc,
        config,
        server,
        &mut door,
        &mut port,
        &mut input,
        &mut output,
    );
    note_end(alloc, &mut notes, config, server, ended);
    let status = report(&mut output, ended);
    Left {
        status,
        door,
        lanes: None,
        port,
        journal,
        folder,
        input,
        output,
        notes,
    }
}

// `status` and `stop`.
fn inquire<
    D: Door + Drop,
    B: Berth + Send + Drop,
    C: Clock + Send + Drop,
    J: Journal + Send + Drop,
    F: Folder + Drop,
    I: Source + Send + Drop,
    O: Sink + Send + Drop,
    N: Sink + Drop,
>(
    alloc: Global,
    config: &Config,
    question: Question,
    outside: Outside<D, B, C, J, F, I, O, N>,
) -> Left<D, D::Port, B, C, J, F, I, O, N>
    ensures { AskedBy D.calls D.left D.faults D.Port.Port.sessions D.Port.Port.links D.Port.Port.held D.Port.Port.faults B.runs B.left B.faults C.given C.left
        J.told J.faults F.files F.faults I.taken I.left I.faults O.written O.faults config.now question outside result }
{
    let Outside {
        mut door,
        berths: _,
        clock: _,
        journal,
        folder,
        input,
        mut output,
        mut notes,
    } = outside;
    let mut port = None;
    let ended = ask(alloc, config, question, &mut door, &mut port, &mut output);
    note_end(alloc, &mut notes, config, None, ended);
    let status = report(&mut output, ended);
    Left {
        status,
        door,
        lanes: None,
        port,
        journal,
        folder,
        input,
        output,
        notes,
    }
}

// `make`.
fn make<
    D: Door + Drop,
    B: Berth + Send + Drop,
    C: Clock + Send + Drop,
    J: Journal + Send + Drop,
    F: Folder + Drop,
    I: Source + Send + Drop,
    O: Sink + Send + Drop,
    N: Sink + Drop,
>(
    alloc: Global,
    config: Config,
    count: u32,
    seed: u64,
    outside: Outside<D, B, C, J, F, I, O, N>,
) -> Left<D, D::Port, B, C, J, F, I, O, N>
    requires { Tells (J.told outside.journal) [] }
    ensures { MadeBy D.calls D.left D.faults D.Port.Port.sessions D.Port.Port.links D.Port.Port.held D.Port.Port.faults B.runs B.left B.faults C.given C.left
        J.told J.faults F.files F.faults I.taken I.left I.faults O.written O.faults config count seed outside result }
{
    let Outside {
        door,
        berths: _,
        clock: _,
        journal,
        folder,
        input,
        mut output,
        notes,
    } = outside;
    let (journal, status) = make_command(alloc, config, journal, count, seed, &mut output);
    Left {
        status,
        door,
        lanes: None,
        port: None,
        journal,
        folder,
        input,
        output,
        notes,
    }
}

// `make --lines`.
fn make_lines<
    D: Door + Drop,
    B: Berth + Send + Drop,
    C: Clock + Send + Drop,
    J: Journal + Send + Drop,
    F: Folder + Drop,
    I: Source + Send + Drop,
    O: Sink + Send + Drop,
    N: Sink + Drop,
>(
    alloc: Global,
    count: u32,
    seed: u64,
    outside: Outside<D, B, C, J, F, I, O, N>,
) -> Left<D, D::Port, B, C, J, F, I, O, N>
    ensures { WroteLines D.calls D.left D.faults D.Port.Port.sessions D.Port.Port.links D.Port.Port.held D.Port.Port.faults B.runs B.left B.faults C.given C.left
        J.told J.faults F.files F.faults I.taken I.left I.faults O.written O.faults count seed outside result }
{
    let mut outside = outside;
    let status = make_lines_command(alloc, count, seed, &mut outside.output);
    idle(outside, status)
}

// Says that the words are none of the program's, and nothing else.
fn refuse_words<
    D: Door + Drop,
    B: Berth + Send + Drop,
    C: Clock + Send + Drop,
    J: Journal + Send + Drop,
    F: Folder + Drop,
    I: Source + Send + Drop,
    O: Sink + Send + Drop,
    N: Sink + Drop,
>(outside: Outside<D, B, C, J, F, I, O, N>, why: &str) -> Left<D, D::Port, B, C, J, F, I, O, N>
    ensures idle { Idle D.calls D.left D.faults D.Port.Port.sessions D.Port.Port.links D.Port.Port.held D.Port.Port.faults B.runs B.left B.faults C.given C.left
        J.told J.faults F.files F.faults I.taken I.left I.faults O.written O.faults outside result }
    ensures says { Says D.calls D.left D.faults D.Port.Port.sessions D.Port.Port.links D.Port.Port.held D.Port.Port.faults B.runs B.left B.faults C.given C.left
        J.told J.faults F.files F.faults I.taken I.left I.faults O.written O.faults outside.output result 2 words_line }
{
    let mut outside = outside;
    write_line(&mut outside.output, b"!words\n");
    write_line(&mut outside.notes, why.as_bytes());
    write_line(&mut outside.notes, USAGE.as_bytes());
    idle(outside, 2)
}

// Does what a command asks for.
fn obey<
    R: Threads + Wait + Sync,
    D: Door + Drop,
    B: Berth + Send + Drop,
    C: Clock + Send + Drop,
    J: Journal + Send + Drop,
    F: Folder + Drop,
    I: Source + Send + Drop,
    O: Sink + Send + Drop,
    N: Sink + Drop,
>(
    rt: &R,
    alloc: Global,
    command: Command<'_>,
    config: Config,
    outside: Outside<D, B, C, J, F, I, O, N>,
) -> Left<D, D::Port, B, C, J, F, I, O, N>
    requires { Tells (J.told outside.journal) [] }
    ensures { Did D.calls D.left D.faults D.Port.Port.sessions D.Port.Port.links D.Port.Port.held D.Port.Port.faults B.runs B.left B.faults C.given C.left
        J.told J.faults F.files F.faults I.taken I.left I.faults O.written O.faults (meaning.asked command.entry) config outside result }
{
    match command {
        Command::Drive { config: _ } => drive(alloc, config, outside),
        Command::Serve { config: _, log: _ } => serve(rt, alloc, config, outside),
        Command::Client { config: _, server } => join(rt, alloc, &config, server, outside),
        Command::Status { config: _ } => inquire(alloc, &config, Question::Status, outside),
        Command::Stop { config: _ } => inquire(alloc, &config, Question::Stop, outside),
        Command::Make { count, seed } => make(alloc, config, count, seed, outside),
        Command::MakeLines { count, seed } => make_lines(alloc, count, seed, outside),
    }
}

// The settings' file that a command names.
fn file_of<'a>(command: Command<'a>) -> Option<&'a str>
    ensures { option_map (λ path. path.now) result ≡ file_of (meaning.asked command.entry) }
{
    match command {
        Command::Drive { config }
        | Command::Serve { config, .. }
        | Command::Client { config, .. }
        | Command::Status { config }
        | Command::Stop { config } => config,
        Command::Make { .. } | Command::MakeLines { .. } => None,
    }
}

/// How much these words have a daemon note.
pub fn log_level(alloc: Global, words: &[String]) -> Level {
    match command_of(alloc, words) {
        Ok(Command::Serve { log, .. }) => log,
        _ => Level::Warn,
    }
}

/// Runs the program on these words: reads the settings that they name, and does what they ask for.
///
/// The status is 0 where it was done. Else it is that of the fault, whose line was written to the output: 1 for a line of `drive`
/// or a cause of `make` that is refused, 2 for words that are none of the program's, 3 for refused settings, 4 where a place isn't opened or dialled, 5
/// where memory was wanted (no line), 6 for the journal, 7 for the input, 8 for the output (no line), 9 for numbers, 10 for a
/// server's name that the daemon refuses, 11 for an answer that isn't the one asked for, 12 for a link.
pub fn lspmux<
    R: Threads + Wait + Sync,
    D: Door + Drop,
    B: Berth + Send + Drop,
    C: Clock + Send + Drop,
    J: Journal + Send + Drop,
    F: Folder + Drop,
    I: Source + Send + Drop,
    O: Sink + Send + Drop,
    N: Sink + Drop,
>(
    rt: &R,
    alloc: Global,
    words: &[String],
    outside: Outside<D, B, C, J, F, I, O, N>,
) -> Left<D, D::Port, B, C, J, F, I, O, N>
    requires { Tells (J.told outside.journal) [] }
    ensures { Came D.calls D.left D.faults D.Port.Port.sessions D.Port.Port.links D.Port.Port.held D.Port.Port.faults B.runs B.left B.faults C.given C.left
        J.told J.faults F.files F.faults I.taken I.left I.faults O.written O.faults (map string_bytes words.now) outside result }
{
    let command = match command_of(alloc, words) {
        Ok(command) => command,
        Err(WordsFault::Refused(why)) => return refuse_words(outside, why.as_str()),
        Err(WordsFault::Memory) => return idle(outside, 5),
    };
    let mut outside = outside;
    let file = file_of(command);
    let config = match settings(alloc, &mut outside.folder, file) {
        Ok(config) => config,
        Err(fault) => {
            note_settings(alloc, &mut outside.notes, &outside.folder, file, &fault);
            let status = refuse(alloc, &mut outside.output, &fault);
            return idle(outside, status);
        }
    };
    obey(rt, alloc, command, config, outside)
}
