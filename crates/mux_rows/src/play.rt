// A session is played: its lines are driven through a hub.
ghost use Rattle.std.specs.Prelude.{◌≡◌, [], IfSome, false};
ghost use Rattle.mux_hub.specs.Hubs.{HubStands};

use crate::session::Session;
use drive_program::{Hub, Limits, Stop, drive};
use mux_config::Config;
use mux_steps::{Journal, MemJournal};
use outside_io::{MemSink, MemSource};
use settled_hub::{Settled, hub_of};
use std::alloc::Global;
use std::test::Fail;

// The most bytes of a body.
const CONTENT: u32 = 67_108_864;

// The settings with these limits and the servers `main` and `aux`.
fn config(alloc: Global, limits: Limits) -> Result<Config, Fail> {
    let text = format!(in alloc;
        "groups = {}\nrestarts = {}\nbacklog = {}\nrequests = {}\nversions = {}\ndefault = \"main\"\n[server.main]\ncommand = [\"main\"]\n[server.aux]\ncommand = [\"aux\"]\n",
        limits.groups, limits.restarts, limits.backlog, limits.requests, limits.versions
    )?;
    match Config::read(alloc, text.as_bytes()) {
        Ok(config) => Ok(config),
        Err(_fault) => Err(Fail::new("settings that are refused")),
    }
}

// A hub by these settings.
fn hub(alloc: Global, config: Config) -> Option<Hub<MemJournal>>
    ensures stands { IfSome result (λ hub. HubStands ⟦<MemJournal as Journal>⟧.told hub []) }
    ensures ready { IfSome result (λ hub. hub.spent ≡ false) }
{
    let journal = MemJournal::new(alloc, Vec::new(alloc));
    match hub_of(alloc, config, journal) {
        Ok(settled) => {
            let Settled { hub, .. } = settled;
            Some(hub)
        }
        Err(_journal) => None,
    }
}

// What these bytes bring over a hub by these settings, and how the run ends; none where there is no hub.
fn driven(alloc: Global, config: Config, input: MemSource) -> Option<(MemSink, Result<(), Stop>)> {
    let mut hub = hub(alloc, config)?;
    let mut input = input;
    let mut output = MemSink::new(alloc, Vec::new(alloc), None);
    let end = drive(alloc, &mut hub, CONTENT, &mut input, &mut output);
    Some((output, end))
}

/// Plays a session. It writes its name, its out lines and how it ended.
pub fn play(rt: HostRuntime, session: &Session) -> Result<(), Fail> {
    let alloc = rt.alloc();
    let lines = Vec::from_slice(alloc, session.lines.as_bytes())?;
    let input = MemSource::new(lines, Vec::new(alloc), None);
    let Some((output, end)) = driven(alloc, config(alloc, session.limits)?, input) else {
        return Err(Fail::new("no hub"));
    };
    let Ok(outs) = str::from_utf8(output.bytes()) else {
        return Err(Fail::new("outs that are no text"));
    };
    print!(rt; "session {}\n{outs}= {end:?}\n", session.name.as_str())?;
    Ok(())
}
