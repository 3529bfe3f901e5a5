// What a history counts.
ghost use Rattle.std.specs.Prelude.{◌≡◌, ◌+◌, ◌<◌, ◌≤◌, [], IfOk, fold, length, string_bytes};
ghost use Rattle.make_program.specs.Counts.{IsSound, counts_of, summary_line, with_out};

use message_body::Memory;
use mux_history::{Out, Outs};
use std::alloc::Global;

/// How many causes and outs a history has, and how many of the outs are bodies to editors, bodies to servers, and starts.
#[derive(Clone, Copy, Debug, PartialEq, Eq)]
pub struct Counts {
    pub causes: u64,
    pub outs: u64,
    pub to_editors: u64,
    pub to_servers: u64,
    pub starts: u64,
}

impl Counts {
    /// The counts of no entry.
    pub fn new() -> Counts
        ensures { result ≡ counts_of [] }
    {
        Counts {
            causes: 0,
            outs: 0,
            to_editors: 0,
            to_servers: 0,
            starts: 0,
        }
    }

    // The counts with one more out.
    fn with_out(self, out: &Out) -> Counts
        requires sound { IsSound self }
        requires few { self.outs < 9223372036854775807 }
        ensures counts { result ≡ with_out self out.now }
        ensures sound { IsSound result }
        ensures outs { result.outs ≡ self.outs + 1 }
    {
        let outs = self.outs + 1;
        match out {
            Out::ToEditor(..) => Counts {
                outs,
                to_editors: self.to_editors + 1,
                ..self
            },
            Out::ToServer(..) => Counts {
                outs,
                to_servers: self.to_servers + 1,
                ..self
            },
            Out::Spawn(..) => Counts {
                outs,
                starts: self.starts + 1,
                ..self
            },
            Out::CloseEditor(_) | Out::EndServer(_) => Counts { outs, ..self },
        }
    }

    /// The counts with one more entry, which has these outs.
    pub fn with_entry(self, outs: &Outs) -> Counts
        requires sound { IsSound self }
        requires few { self.causes + self.outs + (1 + length outs.now) ≤ 9223372036854775807 }
        ensures { result ≡ fold with_out (record self { causes = self.causes + 1 }) outs.now }
    {
        let mut counts = Counts {
            causes: self.causes + 1,
            ..self
        };
        for out in outs.as_slice() {
            counts = counts.with_out(out);
        }
        counts
    }

    /// The line that says them, with its line feed.
    pub fn line(self, alloc: Global) -> Result<String, Memory>
        ensures { IfOk result (λ line. string_bytes line ≡ summary_line self) }
    {
        let Counts {
            causes,
            outs,
            to_editors,
            to_servers,
            starts,
        } = self;
        Ok(format!(in alloc;
            "causes {causes} outs {outs} to-editors {to_editors} to-servers {to_servers} starts {starts}\n"
        )?)
    }
}
