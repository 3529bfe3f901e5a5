//! The requests that wait, by the numbers of groups.
ghost use Rattle.std.specs.Prelude.{◌≡◌, ◌++◌, [], ◌∷◌, ℕ, drop, filter, find, length, not, option_copied, slice_get, true, IfOk, OnOk};
ghost use Rattle.held_requests.specs.Tables.{asked, ids_of, is_of, is_under, of_editor, takes};
ghost use Rattle.numbered_rows.specs.Rows.{less};
ghost use Rattle.mux_waits.specs.Rows.{Becomes, BecomesAt, changed, edited, held_of};

use held_requests::{Held, Request};
use message_body::{Body, Memory};
use std::alloc::Global;
use std::collections::BTreeMap;
use std::marker::Model;

/// The requests that wait of each group in which some do.
///
/// A call looks up a group in time logarithmic in how many of these there are; what follows is as `Held` says. Where a call answers
/// `Memory` nothing is said of the tables.
#[derive(Drop)]
pub struct Waiting {
    alloc: Global,
    groups: BTreeMap<u64, Held>,
}

impl Model for Waiting {
    ghost use Rattle.mux_waits.specs.Rows.{Rows};

    ghost Value = { Rows };

    ghost view = { λ w. w.groups.entries };
}

// A request waits in a group, in which none need wait yet.
fn add(
    alloc: Global,
    groups: &mut BTreeMap<u64, Held>,
    g: u64,
    editor: u64,
    id: Body,
    body: Body,
) -> Result<(), Memory>
    requires { takes editor (length body) (held_of g groups.old.entries) ≡ true }
    ensures { OnOk result (groups.new.entries ≡ changed g (λ rs. rs ++ asked editor id body ∷ []) groups.old.entries) }
{
    match groups.get_mut(&g) {
        Some(held) => held.put(editor, id, body),
        None => {
            let mut held = Held::new(alloc);
            held.put(editor, id, body)?;
            groups.insert(g, held)?;
            Ok(())
        }
    }
}

// The first of a group waits no more.
fn drop_first(groups: &mut BTreeMap<u64, Held>, g: u64)
    ensures { groups.new.entries ≡ edited g (drop 1) groups.old.entries }
{
    if let Some(held) = groups.get_mut(&g) {
        let _request = held.pop();
    }
}

// An editor's first request under an id doesn't.
fn drop_under(groups: &mut BTreeMap<u64, Held>, g: u64, editor: u64, id: &[u8])
    ensures { groups.new.entries ≡ edited g (less (is_under editor id.now)) groups.old.entries }
{
    if let Some(held) = groups.get_mut(&g) {
        held.cancel(editor, id);
    }
}

// None of an editor does.
fn drop_editor(groups: &mut BTreeMap<u64, Held>, g: u64, editor: u64)
    ensures { groups.new.entries ≡ edited g (filter (λ r. not (is_of editor r))) groups.old.entries }
{
    if let Some(held) = groups.get_mut(&g) {
        held.clear(editor);
    }
}

// Whether a table is kept of a group in which nothing waits.
fn is_idle(groups: &BTreeMap<u64, Held>, g: u64) -> bool
    ensures { result ≡ true → held_of g groups.now.entries ≡ [] }
{
    match groups.get(&g) {
        Some(held) => match held.first() {
            Some(_) => false,
            None => true,
        },
        None => false,
    }
}

// Where nothing waits any more none is kept.
fn sweep(groups: &mut BTreeMap<u64, Held>, g: u64)
    ensures { (n : ℕ) → held_of n groups.new.entries ≡ held_of n groups.old.entries }
{
    if is_idle(groups, g) {
        let _held = groups.remove(&g);
    }
}

impl Waiting {
    /// Nothing waits. It takes no memory.
    pub fn new(alloc: Global) -> Waiting
        ensures { result ≡ [] }
    {
        Waiting {
            alloc,
            groups: BTreeMap::new(alloc),
        }
    }

    /// E10: whether one more request of an editor may wait in a group, of so many bytes. It takes no memory.
    pub fn takes(&self, g: u64, editor: u64, bytes: usize) -> bool
        ensures { result ≡ takes editor bytes (held_of g self.now) }
    {
        match self.groups.get(&g) {
            Some(held) => held.takes(editor, bytes),
            None => Held::new(self.alloc).takes(editor, bytes),
        }
    }

    /// E10: a request of an editor waits in a group from now on, behind all others.
    pub fn put(&mut self, g: u64, editor: u64, id: Body, body: Body) -> Result<(), Memory>
        requires { takes editor (length body) (held_of g self.old) ≡ true }
        ensures { OnOk result (Becomes g (λ rs. rs ++ asked editor id body ∷ []) self.old self.new) }
    {
        add(self.alloc, &mut self.groups, g, editor, id, body)?;
        Ok(())
    }

    /// S2: the first that waits in a group; None exactly where none does. It takes no memory.
    pub fn first(&self, g: u64) -> Option<&Request>
        ensures { option_copied result ≡ slice_get (held_of g self.now) 0 }
    {
        match self.groups.get(&g) {
            Some(held) => held.first(),
            None => None,
        }
    }

    /// S2: the first that waits in a group waits no more. It takes no memory.
    pub fn pop(&mut self, g: u64)
        ensures { Becomes g (drop 1) self.old self.new }
    {
        drop_first(&mut self.groups, g);
        sweep(&mut self.groups, g);
    }

    /// E3 and E11: the one of an editor that waits in a group under this id. It takes no memory.
    pub fn find(&self, g: u64, editor: u64, id: &[u8]) -> Option<&Request>
        ensures { option_copied result ≡ find (is_under editor id.now) (held_of g self.now) }
    {
        match self.groups.get(&g) {
            Some(held) => held.find(editor, id),
            None => None,
        }
    }

    /// The ids of an editor's requests that wait in a group, in the order in which they came.
    pub fn ids_of(&self, g: u64, editor: u64) -> Result<Vec<Body>, Memory>
        ensures { IfOk result (λ ids. ids.items ≡ ids_of (of_editor editor (held_of g self.now))) }
    {
        match self.groups.get(&g) {
            Some(held) => held.of_editor(editor),
            None => Ok(Vec::new(self.alloc)),
        }
    }

    /// An editor's request is answered, which waits no more if it did; `home` is the group of the editor, where it has one. It takes no
    /// memory.
    pub fn answer(&mut self, home: Option<u64>, editor: u64, id: &[u8])
        ensures { BecomesAt home (less (is_under editor id.now)) self.old self.new }
    {
        match home {
            None => {}
            Some(g) => {
                drop_under(&mut self.groups, g, editor, id);
                sweep(&mut self.groups, g);
            }
        }
    }

    /// L1: an editor's requests wait no more. It takes no memory.
    pub fn leave(&mut self, home: Option<u64>, editor: u64)
        ensures { BecomesAt home (filter (λ r. not (is_of editor r))) self.old self.new }
    {
        match home {
            None => {}
            Some(g) => {
                drop_editor(&mut self.groups, g, editor);
                sweep(&mut self.groups, g);
            }
        }
    }
}
