// A hub by its settings.
ghost use Rattle.std.specs.Prelude.{◌≡◌, [], IfOk, IfErr, false};
ghost use Rattle.mux_hub.specs.Hubs.{HubStands, HubView, Tells};
ghost use Rattle.settled_hub.specs.Settings.{hub_settings};

use mux_config::Config;
use mux_hub::Hub;
use mux_steps::Journal;
use std::alloc::Global;

/// A hub, and what stands beside it in the settings.
#[derive(Drop)]
pub struct Settled<J: Journal> {
    pub hub: Hub<J>,
    /// The most bytes of a body.
    pub content: u32,
    /// The command of each server.
    pub commands: Vec<Vec<String>>,
}

/// A hub without a history, with these settings' limits and servers. Where memory is wanted the journal comes back.
pub fn hub_of<J: Journal + Drop>(alloc: Global, config: Config, journal: J) -> Result<Settled<J>, J>
    requires { Tells (J.told journal) [] }
    ensures stands { IfOk result (λ settled. HubStands J.told settled.hub []) }
    ensures ready { IfOk result (λ settled. settled.hub.spent ≡ false) }
    ensures settings { IfOk result (λ settled. settled.hub.settings ≡ hub_settings config) }
    ensures content { IfOk result (λ settled. settled.content ≡ config.content) }
    ensures commands { IfOk result (λ settled. settled.commands ≡ config.commands) }
    ensures faults { IfOk result (λ settled. J.faults settled.hub.journal ≡ J.faults journal) }
    ensures back { IfErr result (λ back. back ≡ journal) }
{
    let Config {
        content,
        limits,
        default,
        servers,
        commands,
        ..
    } = config;
    let hub = Hub::new(alloc, limits, servers, default, journal)?;
    Ok(Settled {
        hub,
        content,
        commands,
    })
}
