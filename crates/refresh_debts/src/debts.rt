//! The table of debts: one behind the other, in the order in which they came to be owed.
ghost use Rattle.std.specs.Prelude.{◌≡◌, ◌<◌, [], None, length, IfOk, IfSome, OnErr, OnOk};
ghost use Rattle.std.specs.List.{list_any};
ghost use Rattle.refresh_debts.specs.Tables.{is_at, is_of, is_same, is_with, of, place_in, with_debt, without};

use message_body::{Body, Memory};
use std::alloc::Global;
use std::marker::Model;

/// A request by which a start of a server wants something asked anew, and that it owes to an editor.
#[derive(Debug, Drop)]
pub struct Debt {
    /// The start's number.
    pub start: u64,
    /// The editor's number.
    pub editor: u64,
    /// The characters of the request's method, in UTF-8.
    pub method: Body,
    /// The request, as it came.
    pub body: Body,
}

/// What starts owe to editors: of each method to each editor the last request, in the order in which the methods came to be owed.
///
/// A call looks at each debt. There are as many as methods of such requests, at most, for each editor that is owed something.
#[derive(Drop)]
pub struct Debts {
    alloc: Global,
    rows: Vec<Debt>,
}

impl Model for Debts {
    ghost use Rattle.std.specs.Prelude.{List};
    ghost use Rattle.refresh_debts.specs.declared.debts.Debt.{Debt};

    ghost Value = { List Debt };

    ghost view = { λ d. d.rows.items };
}

// Whether a start owes it to an editor.
fn is_of(debt: &Debt, start: u64, editor: u64) -> bool
    ensures { result ≡ is_of start editor debt.now }
{
    debt.start == start && debt.editor == editor
}

// The same of a method.
fn is_same(debt: &Debt, start: u64, editor: u64, method: &[u8]) -> bool
    ensures { result ≡ is_same start editor method.now debt.now }
{
    is_of(debt, start, editor) && debt.method.bytes() == method
}

// The place of the debt of a method, where there is one.
fn place_in(debts: &[Debt], start: u64, editor: u64, method: &[u8]) -> Option<usize>
    ensures place { result ≡ place_in 0 (is_same start editor method.now) debts.now }
    ensures inside { IfSome result (λ i. i < length debts.now) }
{
    for i in 0..debts.len() {
        if is_same(&debts[i], start, editor, method) {
            return Some(i);
        }
    }
    None
}

impl Debts {
    /// Nothing is owed. It takes no memory.
    pub fn new(alloc: Global) -> Debts
        ensures { result ≡ [] }
    {
        Debts {
            alloc,
            rows: Vec::new(alloc),
        }
    }

    /// Whether a start owes an editor something. It takes no memory.
    pub fn has(&self, start: u64, editor: u64) -> bool
        ensures { result ≡ list_any (is_of start editor) self.now }
    {
        for debt in &self.rows {
            if is_of(debt, start, editor) {
                return true;
            }
        }
        false
    }

    /// A request is owed, in the place of one of its method that the start owes to the editor, or behind all others. Where memory runs out
    /// nothing changes.
    pub fn owe(&mut self, debt: Debt) -> Result<(), Memory>
        ensures ok { OnOk result (self.new ≡ with_debt debt self.old) }
        ensures err { OnErr result (self.new ≡ self.old) }
    {
        match place_in(&self.rows, debt.start, debt.editor, debt.method.bytes()) {
            Some(place) => {
                self.rows[place] = debt;
                Ok(())
            }
            None => {
                self.rows.push(debt)?;
                Ok(())
            }
        }
    }

    /// A start owes an editor nothing of a method any more. It takes no memory.
    pub fn settle(&mut self, start: u64, editor: u64, method: &[u8])
        ensures { self.new ≡ without (is_same start editor method.now) self.old }
    {
        self.rows
            .retain(|debt| !is_same(debt, start, editor, method));
    }

    /// What a start owes to an editor is taken out, and given in its order. Where memory runs out the table may only be dropped.
    pub fn take(&mut self, start: u64, editor: u64) -> Result<Vec<Debt>, Memory>
        ensures taken { IfOk result (λ taken. taken.items ≡ of start editor self.old) }
        ensures left { OnOk result (self.new ≡ without (is_of start editor) self.old) }
    {
        let mut taken = Vec::new(self.alloc);
        let mut left = Vec::new(self.alloc);
        let rows = std::mem::replace(&mut self.rows, Vec::new(self.alloc));
        for debt in rows {
            if is_of(&debt, start, editor) {
                taken.push(debt)?;
            } else {
                left.push(debt)?;
            }
        }
        self.rows = left;
        Ok(taken)
    }

    /// An editor is gone: nothing is owed to it. It takes no memory.
    pub fn leave(&mut self, editor: u64)
        ensures { self.new ≡ without (is_with editor) self.old }
    {
        self.rows.retain(|debt| debt.editor != editor);
    }

    /// A start is gone: it owes nothing. It takes no memory.
    pub fn over(&mut self, start: u64)
        ensures { self.new ≡ without (is_at start) self.old }
    {
        self.rows.retain(|debt| debt.start != start);
    }
}
