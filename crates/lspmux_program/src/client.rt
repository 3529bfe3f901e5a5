// The commands that dial a daemon.
ghost use Rattle.std.specs.Prelude.{◌≡◌, ◌≤◌, option_map};
ghost use Rattle.outside_io.specs.Faults.{Rose};
ghost use Rattle.program_settings.specs.Lines.{Reported};
ghost use Rattle.lspmux_program.specs.Clients.{client_line, client_status};

use mux_client::ClientFault;
use outside_io::Sink;
use program_settings::write_line;

fn line(ended: Result<(), ClientFault>) -> &'static str
    ensures { result.now ≡ client_line ended }
{
    match ended {
        Ok(()) | Err(ClientFault::Memory | ClientFault::Output) => "",
        Err(ClientFault::Door) => "!door\n",
        Err(ClientFault::Input) => "!input\n",
        Err(ClientFault::Refused) => "!server\n",
        Err(ClientFault::Answer) => "!answer\n",
        Err(ClientFault::Link) => "!link\n",
    }
}

fn status(ended: Result<(), ClientFault>) -> u8
    ensures { result ≡ client_status ended }
{
    match ended {
        Ok(()) => 0,
        Err(fault) => fault.status(),
    }
}

/// Writes the fault line of what a client or a question came to, and gives its status: 0, or that of the fault.
pub fn report<O: Sink>(output: &mut O, ended: Result<(), ClientFault>) -> u8
    ensures reported { Reported result (client_status ended) (O.written output.old) (O.written output.new) (client_line ended) (Rose (O.faults output.old) (O.faults output.new)) }
    ensures later { O.faults output.old ≤ O.faults output.new }
{
    write_line(output, line(ended).as_bytes());
    status(ended)
}
