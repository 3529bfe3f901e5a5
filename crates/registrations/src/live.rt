// The live registrations.
ghost use Rattle.std.specs.Prelude.{◌≡◌, ◌++◌, [], Some, None, ◌∷◌, List, ℕ, false, filter, not, option_map, IfOk, OnOk, if◌then◌else◌};
ghost use Rattle.std.specs.List.{list_all};
ghost use Rattle.registrations.specs.Items.{again, are_live, others};
ghost use Rattle.registrations.specs.Names.{is_named, stands_under};
ghost use Rattle.registrations.specs.declared.registration.Registration.{Registration};

use crate::names::{Names, names_of};
use crate::registration::Registration;
use message_body::Memory;
use std::alloc::Global;
use std::marker::Model;

/// The live registrations of one start of a server, in the order in which they were registered.
///
/// A call takes time in its items and in those that are live, times the logarithm of how many. Where memory runs out the table may
/// only be dropped.
#[derive(Drop)]
pub struct Live {
    alloc: Global,
    items: Vec<Registration>,
}

impl Model for Live {
    ghost use Rattle.std.specs.Prelude.{List};
    ghost use Rattle.registrations.specs.declared.registration.Registration.{Registration};

    ghost Value = { List Registration };

    ghost view = { λ l. l.items.items };
}

// Whether each of these has one of the names.
fn are_all_named(items: &[Registration], names: &Names) -> bool
    ensures { result ≡ list_all (λ r. stands_under names.now r.name) items.now }
{
    for item in items {
        if !names.contains(item.name.bytes()) {
            return false;
        }
    }
    true
}

impl Live {
    /// No registrations. It takes no memory.
    pub fn new(alloc: Global) -> Live
        ensures { result ≡ [] }
    {
        Live {
            alloc,
            items: Vec::new(alloc),
        }
    }

    /// All of them, in their order.
    pub fn all(&self) -> &[Registration]
        ensures { result.now ≡ self.now }
    {
        &self.items
    }

    // Takes those out that have one of the names, and gives them in their order.
    fn take(&mut self, names: &Names) -> Result<Vec<Registration>, Memory>
        ensures gone { IfOk result (λ gone. gone.items ≡ filter (λ r. stands_under names.now r.name) self.old) }
        ensures left { OnOk result (self.new ≡ filter (λ r. not (stands_under names.now r.name)) self.old) }
    {
        let mut gone = Vec::new(self.alloc);
        let mut left = Vec::new(self.alloc);
        let items = std::mem::replace(&mut self.items, Vec::new(self.alloc));
        for item in items {
            if names.contains(item.name.bytes()) {
                gone.push(item)?;
            } else {
                left.push(item)?;
            }
        }
        self.items = left;
        Ok(gone)
    }

    /// S6: these are registered, behind the others. Those of their ids that were live are no more, and are given in their order.
    pub fn register(&mut self, items: Vec<Registration>) -> Result<Vec<Registration>, Memory>
        ensures gone { IfOk result (λ gone. gone.items ≡ again items.items self.old) }
        ensures left { OnOk result (self.new ≡ others items.items self.old ++ items.items) }
    {
        let names = names_of(self.alloc, &items)?;
        let gone = self.take(&names)?;
        let mut items = items;
        self.items.append(&mut items)?;
        Ok(gone)
    }

    /// S7: these are live no more, and are given in the order in which they were registered; where not all of them are live, None, and
    /// nothing changes.
    pub fn unregister(
        &mut self,
        items: &[Registration],
    ) -> Result<Option<Vec<Registration>>, Memory>
        ensures gone { IfOk result (λ gone. option_map (λ v. v.items) gone ≡ (if are_live items.now self.old then Some (again items.now self.old) else None)) }
        ensures left { OnOk result (self.new ≡ (if are_live items.now self.old then others items.now self.old else self.old)) }
    {
        let live = names_of(self.alloc, &self.items)?;
        if !are_all_named(items, &live) {
            return Ok(None);
        }
        let names = names_of(self.alloc, items)?;
        Ok(Some(self.take(&names)?))
    }

    /// The start is gone: all its registrations end. It takes no memory.
    pub fn over(&mut self)
        ensures { self.new ≡ [] }
    {
        self.items = Vec::new(self.alloc);
    }
}
