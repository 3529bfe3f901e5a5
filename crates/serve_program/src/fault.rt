// Why a daemon doesn't serve, or served no longer.
ghost use Rattle.std.specs.Prelude.{◌≡◌, ◌≤◌, ℕ};
ghost use Rattle.outside_io.specs.Faults.{Rose};
ghost use Rattle.program_settings.specs.Lines.{Reported};
ghost use Rattle.serve_program.specs.Faults.{ended_line, ended_status, fault_line, result_of, status_of};

use mux_service::Answer;
use outside_io::Sink;
use program_settings::write_line;

/// Why a daemon doesn't serve, or served no longer.
#[derive(Clone, Copy, Debug, PartialEq, Eq)]
pub enum ServeFault {
    /// No link can come at the settings' place.
    Door,
    /// Memory was wanted.
    Memory,
    /// The journal's append failed.
    Journal,
    /// The causes and outs would be more than 2^63 - 1.
    Numbers,
}

impl ServeFault {
    // The program's status: 4 for the door, 5 for memory, 6 for the journal, and 9 for numbers.
    fn status(self) -> u8
        ensures { result ≡ status_of self }
    {
        match self {
            ServeFault::Door => 4,
            ServeFault::Memory => 5,
            ServeFault::Journal => 6,
            ServeFault::Numbers => 9,
        }
    }

    // The fault line; none where memory was wanted.
    fn line(self) -> &'static str
        ensures { result.now ≡ fault_line self }
    {
        match self {
            ServeFault::Door => "!door\n",
            ServeFault::Memory => "",
            ServeFault::Journal => "!journal\n",
            ServeFault::Numbers => "!numbers\n",
        }
    }
}

// The status of what a daemon's work came to.
fn status(ended: Result<(), ServeFault>) -> u8
    ensures { result ≡ ended_status ended }
{
    match ended {
        Ok(()) => 0,
        Err(fault) => fault.status(),
    }
}

// The fault line of what a daemon's work came to; empty where it has none.
fn line(ended: Result<(), ServeFault>) -> &'static str
    ensures { result.now ≡ ended_line ended }
{
    match ended {
        Ok(()) => "",
        Err(fault) => fault.line(),
    }
}

/// Writes the fault line of what a daemon's work came to, and gives the status: 0, or that of its fault.
pub fn report<O: Sink>(output: &mut O, ended: Result<(), ServeFault>) -> u8
    ensures status { result ≡ ended_status ended }
    ensures reported { Reported result (ended_status ended) (O.written output.old) (O.written output.new) (ended_line ended) (Rose (O.faults output.old) (O.faults output.new)) }
    ensures later { O.faults output.old ≤ O.faults output.new }
{
    write_line(output, line(ended).as_bytes());
    status(ended)
}

/// What a daemon's answer comes to: a fault, but behind a stop and behind closed ports.
pub fn fault_of(answer: Answer) -> Result<(), ServeFault>
    ensures { result ≡ result_of answer }
{
    match answer {
        Answer::Stopped | Answer::PortsClosed => Ok(()),
        Answer::Memory => Err(ServeFault::Memory),
        Answer::Journal => Err(ServeFault::Journal),
        Answer::Numbers => Err(ServeFault::Numbers),
    }
}
