//! What groups carry from one of their starts to the next: what editors were shown of the last result of `initialize` (S2), and the
//! configuration (E16; LSP 3.17, Initialize Request and DidChangeConfiguration Notification).
ghost use Rattle.std.specs.Prelude.{◌≡◌, ◌<◌, ℕ, List, [], Some, length, IfOk, MatchOption, OnOk, is_none, option_copied};
ghost use Rattle.capability_meet.specs.Answers.{IsRead};
ghost use Rattle.event_model.specs.Settings.{Settings};
ghost use Rattle.group_facts.specs.Lively.{lives_at};
ghost use Rattle.group_facts.specs.group_rows.specs.Earlier.{same_shown};
ghost use Rattle.json_nodes.specs.At.{At, Found};
ghost use Rattle.json_text.specs.Json.{Json};
ghost use Rattle.mux_turns.specs.Carried.{CarriedStand, ReadsTo, capabilities_in, carried, differs_shown, with_carried};

use json_span::{JsonFault, Tape, same};
use message_body::{Body, Memory};
use mux_tables::Tables;
use std::alloc::Global;
use std::marker::Model;

/// A body of a group.
#[derive(Drop)]
pub struct Carried {
    /// The group's number.
    pub group: u64,
    pub body: Body,
}

/// What the groups that live carry, and at most as many others, each at most once.
#[derive(Drop)]
pub struct Carries {
    shown: Vec<Carried>,
    configurations: Vec<Carried>,
}

impl Model for Carries {
    ghost use Rattle.mux_turns.specs.Carried.{CarriesView};

    ghost Value = { CarriesView };

    ghost view = { λ c. record { shown = c.shown.items; configurations = c.configurations.items } };
}

// Bytes as a JSON text, where they are one.
fn read<'a>(alloc: Global, bytes: &'a [u8]) -> Result<Option<Tape<'a>>, Memory>
    ensures { IfOk result (λ tape. ReadsTo tape bytes.now) }
{
    if bytes.len() > 268_435_456 {
        return Err(Memory);
    }
    match Tape::read(alloc, bytes) {
        Ok(tape) => Ok(Some(tape)),
        Err(JsonFault::Memory) => Err(Memory),
        Err(JsonFault::Syntax(_)) => Ok(None),
        Err(JsonFault::TooDeep(_)) => Ok(None),
    }
}

// The place of the capabilities.
fn capabilities(tape: &Tape) -> Option<u32>
    ensures found { (bytes : List ℕ) → IsRead tape.now bytes → Found tape.now (capabilities_in bytes) result }
    ensures inside { MatchOption result (Unit {0}) (λ member. member < length tape.now.nodes) }
{
    tape.maybe_member(Some(tape.root()), "capabilities")
}

// Whether these capabilities of one text are the same value as those of another.
fn same_at(left: &Tape, one: u32, right: &Tape) -> bool
    requires { one < length left.now.nodes }
    ensures { (t : Json) (b : List ℕ) → At left.now one t → IsRead right.now b → result ≡ same_shown (Some t) (capabilities_in b) }
{
    match capabilities(right) {
        None => false,
        Some(other) => same(left, one, right, other),
    }
}

// Whether those of two texts are the same value, or neither has them.
fn same_in(left: &Tape, right: &Tape) -> bool
    ensures { (a b : List ℕ) → IsRead left.now a → IsRead right.now b → result ≡ same_shown (capabilities_in a) (capabilities_in b) }
{
    match capabilities(left) {
        None => capabilities(right).is_none(),
        Some(one) => same_at(left, one, right),
    }
}

// Whether bytes have none; what is no JSON text has none.
fn lacks(alloc: Global, bytes: &[u8]) -> Result<bool, Memory>
    ensures { IfOk result (λ answer. answer ≡ is_none (capabilities_in bytes.now)) }
{
    let found = read(alloc, bytes)?;
    match found {
        None => Ok(true),
        Some(tape) => Ok(capabilities(&tape).is_none()),
    }
}

// Whether those of a text are the same value as those of bytes, or neither has them.
fn same_read(alloc: Global, left: &Tape, bytes: &[u8]) -> Result<bool, Memory>
    ensures { (a : List ℕ) → IsRead left.now a → IfOk result (λ answer. answer ≡ same_shown (capabilities_in a) (capabilities_in bytes.now)) }
{
    let found = read(alloc, bytes)?;
    match found {
        None => Ok(capabilities(left).is_none()),
        Some(right) => Ok(same_in(left, &right)),
    }
}

// Whether those of two bytes are the same value, or neither has them.
fn same_capabilities(alloc: Global, a: &[u8], b: &[u8]) -> Result<bool, Memory>
    ensures { IfOk result (λ answer. answer ≡ same_shown (capabilities_in a.now) (capabilities_in b.now)) }
{
    let found = read(alloc, a)?;
    match found {
        None => {
            let answer = lacks(alloc, b)?;
            Ok(answer)
        }
        Some(left) => {
            let answer = same_read(alloc, &left, b)?;
            Ok(answer)
        }
    }
}

// The body of a group.
fn get(list: &[Carried], g: u64) -> Option<&Body>
    ensures { option_copied result ≡ carried g list.now }
{
    for one in list {
        if one.group == g {
            return Some(&one.body);
        }
    }
    None
}

/// Whether the group of this number lives.
pub fn lives(tables: &Tables, g: u64) -> bool
    ensures { result ≡ lives_at g tables.now.groups.groups }
{
    match tables.groups.get(g) {
        None => false,
        Some(kept) => kept.live,
    }
}

// A group has this body from now on; those of groups that live no more are dropped.
fn put(list: &mut Vec<Carried>, tables: &Tables, g: u64, body: Body) -> Result<(), Memory>
    ensures { OnOk result (list.new.items ≡ with_carried tables.now.groups.groups g body list.old.items) }
{
    list.retain(|one| one.group != g && lives(tables, one.group));
    list.push(Carried { group: g, body })?;
    Ok(())
}

impl Carries {
    /// No group has a start. It takes no memory.
    pub fn new(alloc: Global) -> Carries
        ensures { (settings : Settings) → CarriedStand settings result [] }
    {
        Carries {
            shown: Vec::new(alloc),
            configurations: Vec::new(alloc),
        }
    }

    /// S2: whether the capabilities that editors of a group are shown now differ from those that they were shown of an earlier start.
    pub fn differs(&self, alloc: Global, g: u64, shown: &[u8]) -> Result<bool, Memory>
        ensures { IfOk result (λ answer. answer ≡ differs_shown (carried g self.now.shown) shown.now) }
    {
        match get(&self.shown, g) {
            None => Ok(false),
            Some(earlier) => {
                let same = same_capabilities(alloc, earlier.bytes(), shown)?;
                Ok(!same)
            }
        }
    }

    /// The configuration of a group, where an editor of it gave one.
    pub fn configuration(&self, g: u64) -> Option<&Body>
        ensures { option_copied result ≡ carried g self.now.configurations }
    {
        get(&self.configurations, g)
    }

    /// S2: editors of a group are shown this of a result.
    pub fn give(&mut self, tables: &Tables, g: u64, shown: Body) -> Result<(), Memory>
        ensures shown { OnOk result (self.new.shown ≡ with_carried tables.now.groups.groups g shown self.old.shown) }
        ensures configurations { self.new.configurations ≡ self.old.configurations }
    {
        put(&mut self.shown, tables, g, shown)
    }

    /// E16: an editor of a group changes the configuration.
    pub fn configure(&mut self, tables: &Tables, g: u64, body: Body) -> Result<(), Memory>
        ensures shown { self.new.shown ≡ self.old.shown }
        ensures configurations { OnOk result (self.new.configurations ≡ with_carried tables.now.groups.groups g body self.old.configurations) }
    {
        put(&mut self.configurations, tables, g, body)
    }
}
