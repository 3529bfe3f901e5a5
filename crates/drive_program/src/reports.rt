// Statuses and fault lines.
ghost use Rattle.std.specs.Prelude.{◌≡◌, ◌≢◌, ℕ, ◌≤◌, ◌++◌, List, IfOk, string_bytes, ◌⊎◌};
ghost use Rattle.std.specs.Io.KnownBytes.{append_known};
ghost use Rattle.outside_io.specs.Faults.{Rose};
ghost use Rattle.drive_program.specs.Program.{status_of, refusal_word, refused_line, journal_line, input_line, numbers_line, fault_line};
ghost use Rattle.program_settings.specs.Lines.{Reported, Wrote, WroteFront};

use crate::refusal::Refusal;
use crate::stop::Stop;
use message_body::Memory;
use outside_io::Sink;
use program_settings::write_line;
use std::alloc::Global;

fn refusal_word(refusal: Refusal) -> &'static str
    ensures { result.now ≡ refusal_word refusal }
{
    match refusal {
        Refusal::Form => "form",
        Refusal::Absent => "absent",
    }
}

// The line about a refused line.
fn refused_line(alloc: Global, line: u64, refusal: Refusal) -> Result<String, Memory>
    ensures { IfOk result (λ text. string_bytes text ≡ refused_line (record { line = line; refusal = refusal })) }
{
    let word = refusal_word(refusal);
    Ok(format!(in alloc; "!line {line} {word}\n")?)
}

fn write_refused<O: Sink>(alloc: Global, output: &mut O, line: u64, refusal: Refusal) -> u8
    ensures reported { Reported result 1 (O.written output.old) (O.written output.new) (refused_line (record { line = line; refusal = refusal }))
        (Rose (O.faults output.old) (O.faults output.new)) }
    ensures later { O.faults output.old ≤ O.faults output.new }
{
    let Ok(text) = refused_line(alloc, line, refusal) else {
        return 5;
    };
    write_line(output, text.as_bytes());
    1
}

/// Writes the fault line of a stop and answers the status: 1 and the number of a refused line, 5 when memory runs out,
/// 6, 7 and 8 for faults of journal, input and output, and 9 where the causes and outs would be more than 2^63 - 1.
pub fn report<O: Sink>(alloc: Global, output: &mut O, stop: Stop) -> u8
    ensures reported { Reported result (status_of stop) (O.written output.old) (O.written output.new) (fault_line stop)
        (Rose (O.faults output.old) (O.faults output.new)) }
    ensures later { O.faults output.old ≤ O.faults output.new }
{
    match stop {
        Stop::Refused(line, refusal) => write_refused(alloc, output, line, refusal),
        Stop::Memory => 5,
        Stop::Journal => {
            write_line(output, b"!journal\n");
            6
        }
        Stop::Input => {
            write_line(output, b"!input\n");
            7
        }
        Stop::Output => 8,
        Stop::Numbers => {
            write_line(output, b"!numbers\n");
            9
        }
    }
}
