// Why a client ended, but by the end of its input and its link.
ghost use Rattle.std.specs.Prelude.{◌≡◌};
ghost use Rattle.mux_client.specs.Faults.{status_of};

/// Why a client or a question to the daemon failed.
#[derive(Clone, Copy, Debug, PartialEq, Eq)]
pub enum ClientFault {
    /// The settings' place can't be dialled.
    Door,
    /// Memory was wanted.
    Memory,
    /// A read of the input failed.
    Input,
    /// A write to the output failed.
    Output,
    /// The daemon refused the server's name.
    Refused,
    /// The dialled port gave no link, or the link's first frame isn't the answer: its bytes are faulty, it says something else,
    /// or the link ended before it.
    Answer,
    /// A read or a write of the link failed.
    Link,
}

impl ClientFault {
    /// The program's status: 4 for the door, 5 for memory, 7 for the input, 8 for the output, 10 for a refused name, 11 for the
    /// answer, and 12 for the link.
    pub fn status(self) -> u8
        ensures { result ≡ status_of self }
    {
        match self {
            ClientFault::Door => 4,
            ClientFault::Memory => 5,
            ClientFault::Input => 7,
            ClientFault::Output => 8,
            ClientFault::Refused => 10,
            ClientFault::Answer => 11,
            ClientFault::Link => 12,
        }
    }
}
