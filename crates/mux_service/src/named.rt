// A hub whose settings its type names, so that they are known of it behind a lock.
ghost use Rattle.std.specs.Prelude.{◌≡◌, ℕ, ◌≤◌, ◌↔◌, List, ◌++◌, ◌∷◌, [], IfOk, OnOk, OnErr, IsErrOf, IsOkUnless, IsNone, IsTrue, Bool, true, false};
ghost use Rattle.mux_hub.specs.Hubs.{HubView};

use message_body::Memory;
use mux_history::{Cause, Outs};
use mux_hub::Hub;
use mux_steps::{Journal, StepFault, Steps};
use std::marker::{Brand, PhantomData};

/// The settings of one hub.
pub trait Named {
    ghost use Rattle.event_model.specs.Settings.{Settings};

    ghost settings: { Settings };
}

impl Named for Brand {
    ghost use Rattle.mux_service.specs.Names.{no_settings};

    ghost settings = { no_settings };
}

/// A hub with the settings that `N` names.
#[derive(Drop)]
pub struct NamedHub<J: Journal, N: Named> {
    pub hub: Hub<J>,
    of: PhantomData<N>,
    ghost is: { hub.settings ≡ N.settings },
}

impl<J: Journal, N: Named> NamedHub<J, N> {
    /// This hub, whose settings are so named.
    pub fn new(hub: Hub<J>) -> NamedHub<J, N>
        requires { hub.settings ≡ N.settings }
        ensures { result.hub ≡ hub }
    {
        NamedHub {
            hub,
            of: PhantomData,
        }
    }

    /// The hub.
    pub fn into_hub(self) -> Hub<J>
        ensures same { result ≡ self.hub }
        ensures settings { result.settings ≡ N.settings }
    {
        let NamedHub { hub, .. } = self;
        hub
    }
}

impl<J: Journal, N: Named> Steps for NamedHub<J, N> {
    ghost use Rattle.mux_model.specs.Fits.{fits};
    ghost use Rattle.mux_hub.specs.Entries.{asks_stop, passes, was_stopped};
    ghost use Rattle.mux_hub.specs.Hubs.{HubStands};

    ghost stands = { λ core history. HubStands J.told core.hub history };

    ghost faults = { λ core. J.faults core.hub.journal };

    ghost spent = { λ core. core.hub.spent };

    ghost allows = { fits };

    ghost passes = { λ core history cause. passes core.hub.settings history cause };

    ghost asks_stop = { asks_stop };

    ghost stops = { was_stopped };

    fn fits(&self, cause: &Cause) -> bool {
        self.hub.fits(cause)
    }

    fn next_editor(&self) -> u64 {
        self.hub.next_editor()
    }

    fn stopped(&self) -> bool {
        self.hub.stopped()
    }

    fn server_of(&self, start: u64) -> Option<u32> {
        self.hub.server_of(start)
    }

    fn folder_of(&self, start: u64) -> Result<Option<String>, Memory> {
        self.hub.folder_of(start)
    }

    fn step(&mut self, cause: Cause) -> Result<Outs, StepFault> {
        match self.hub.step(cause) {
            Ok(outs) => Ok(outs),
            Err(fault) => Err(fault),
        }
    }
}
