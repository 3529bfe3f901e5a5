// Why a run stops before the end of its input.
ghost use Rattle.std.specs.Prelude.{◌≡◌};
ghost use Rattle.drive_program.specs.Stops.{stop_at, fault_at};

use crate::line::LineStop;
use crate::refusal::Refusal;
use crate::step::TakeFault;
use message_body::Memory;

/// Why a run stops before the end of its input.
#[derive(Clone, Copy, Debug, PartialEq, Eq)]
pub enum Stop {
    /// Memory was wanted.
    Memory,
    /// The journal's append failed.
    Journal,
    /// The causes and outs would be more than 2^63 - 1.
    Numbers,
    /// A read of the input failed.
    Input,
    /// A write to the output failed.
    Output,
    /// The line with this number, counted from 1, is refused.
    Refused(u64, Refusal),
}

impl From<Memory> for Stop {
    ghost use Rattle.std.specs.Prelude.{◌≡◌};
    ghost use Rattle.drive_program.specs.declared.stop.Stop.TheVariants as stop;

    ghost from_gives = { λ _ e. e ≡ stop.Memory };

    fn from(_: Memory) -> Self {
        Stop::Memory
    }
}

/// Why the run stops where no line comes.
pub fn stop_at(number: u64, stop: LineStop) -> Stop
    ensures { result ≡ stop_at number stop }
{
    match stop {
        LineStop::Memory => Stop::Memory,
        LineStop::Input => Stop::Input,
        LineStop::Passed => Stop::Refused(number, Refusal::Form),
    }
}

/// Why the run stops where a line isn't taken and answered.
pub fn fault_at(number: u64, fault: TakeFault) -> Stop
    ensures { result ≡ fault_at number fault }
{
    match fault {
        TakeFault::Memory => Stop::Memory,
        TakeFault::Journal => Stop::Journal,
        TakeFault::Numbers => Stop::Numbers,
        TakeFault::Output => Stop::Output,
        TakeFault::Refused(refusal) => Stop::Refused(number, refusal),
    }
}
