//! What is held for an editor until it answers a create.
ghost use Rattle.std.specs.Prelude.{◌≡◌, option_copied, IfOk, OnOk};
ghost use Rattle.progress_route.specs.Tables.{held_first, held_more};

use crate::kind::{Kind, is_begin, is_end};
use message_body::{Body, Memory};
use std::alloc::Global;
use std::marker::Model;

/// Bodies in order, and whether a `begin` is among them.
#[derive(Drop)]
pub struct Waiting {
    bodies: Vec<Body>,
    begun: bool,
}

impl Model for Waiting {
    ghost use Rattle.progress_route.specs.Tables.{Held};

    ghost Value = { Held };

    ghost view = { λ w. record { bodies = w.bodies.items; begun = w.begun } };
}

impl Waiting {
    /// A token's first `begin`, where there is one.
    pub fn new(alloc: Global, begin: Option<&Body>) -> Result<Waiting, Memory>
        ensures { IfOk result (λ waiting. waiting ≡ held_first (option_copied begin.entry)) }
    {
        let mut bodies = Vec::new(alloc);
        match begin {
            Some(body) => {
                bodies.push(body.copy(alloc)?)?;
                Ok(Waiting {
                    bodies,
                    begun: true,
                })
            }
            None => Ok(Waiting {
                bodies,
                begun: false,
            }),
        }
    }

    /// A body is held behind the others, where fewer than 1,024 are or it is an end.
    pub fn hold(&mut self, alloc: Global, body: &Body, kind: Kind) -> Result<(), Memory>
        ensures { OnOk result (self.new ≡ held_more body.now kind self.old) }
    {
        if self.bodies.len() < 1024 || is_end(kind) {
            self.bodies.push(body.copy(alloc)?)?;
            self.begun = self.begun || is_begin(kind);
        }
        Ok(())
    }

    /// Whether a `begin` is among them.
    pub fn has_begun(&self) -> bool
        ensures { result ≡ self.now.begun }
    {
        self.begun
    }

    /// The bodies.
    pub fn into_bodies(self) -> Vec<Body>
        ensures { result.items ≡ self.bodies }
    {
        self.bodies
    }
}
