// Why a step gave no outs.
use crate::journal::JournalFault;
use message_body::Memory;

/// Why a step of a core gave no outs. The core is spent from then on.
#[derive(Clone, Copy, Debug, PartialEq, Eq)]
pub enum StepFault {
    /// Memory was wanted.
    Memory,
    /// The journal's append failed.
    Journal,
    /// The causes and outs would be more than 2^63 - 1.
    Numbers,
    /// An earlier step had a fault.
    Spent,
}

impl From<Memory> for StepFault {
    ghost use Rattle.std.specs.Prelude.{◌≡◌};
    ghost use Rattle.mux_steps.specs.declared.fault.StepFault.TheVariants as step_fault;

    ghost from_gives = { λ _ e. e ≡ step_fault.Memory };

    fn from(_: Memory) -> Self {
        StepFault::Memory
    }
}

impl From<JournalFault> for StepFault {
    ghost use Rattle.std.specs.Prelude.{◌≡◌};
    ghost use Rattle.mux_steps.specs.Faults.{step_fault_of};

    ghost from_gives = { λ fault e. e ≡ step_fault_of fault };

    fn from(fault: JournalFault) -> Self {
        match fault {
            JournalFault::Failed => StepFault::Journal,
            JournalFault::Memory => StepFault::Memory,
        }
    }
}
