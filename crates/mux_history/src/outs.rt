// A list of outs.
ghost use Rattle.std.specs.Prelude.{◌≡◌, [], ◌∷◌, ◌++◌, length, take, IfOk, OnOk, OnErr, option_copied, slice_get, nat_eq};

use crate::out::Out;
use message_body::Memory;
use std::alloc::Global;
use std::marker::Model;

/// Outs in their order.
#[derive(Debug, Drop)]
pub struct Outs {
    list: Vec<Out>,
}

impl Model for Outs {
    ghost use Rattle.std.specs.Prelude.{List};
    ghost use Rattle.mux_history.specs.declared.out.Out.{Out};

    ghost Value = { List Out };

    ghost view = { λ o. o.list.items };
}

impl Outs {
    /// No outs. It takes no memory.
    pub fn new(alloc: Global) -> Self
        ensures { result ≡ [] }
    {
        Outs {
            list: Vec::new(alloc),
        }
    }

    /// How many outs there are.
    pub fn len(&self) -> usize
        ensures { result ≡ length self.now }
    {
        self.list.len()
    }

    /// Whether there are none.
    pub fn is_empty(&self) -> bool
        ensures { result ≡ nat_eq (length self.now) 0 }
    {
        self.list.is_empty()
    }

    /// The out at this place, counted from 0; none at the length and behind it.
    pub fn get(&self, i: usize) -> Option<&Out>
        ensures { option_copied result ≡ slice_get self.now i }
    {
        self.list.as_slice().get(i)
    }

    /// All outs, in their order.
    pub fn as_slice(&self) -> &[Out]
        ensures { result.now ≡ self.now }
    {
        self.list.as_slice()
    }

    /// The outs as a list of their own, without a copy.
    pub fn into_vec(self) -> Vec<Out>
        ensures { result.items ≡ self }
    {
        self.list
    }

    /// Puts `out` behind the list. Running out of memory leaves the list as it was and drops `out`.
    pub fn push(&mut self, out: Out) -> Result<(), Memory>
        ensures ok { OnOk result (self.new ≡ self.old ++ out ∷ []) }
        ensures err { OnErr result (self.new ≡ self.old) }
    {
        self.list.push(out)?;
        Ok(())
    }

    /// Puts the outs of `more` behind the list. Running out of memory leaves the list as it was and drops `more`.
    pub fn append(&mut self, more: Outs) -> Result<(), Memory>
        ensures ok { OnOk result (self.new ≡ self.old ++ more) }
        ensures err { OnErr result (self.new ≡ self.old) }
    {
        let Outs { mut list } = more;
        self.list.append(&mut list)?;
        Ok(())
    }

    /// The same list, its bodies copied. The time is linear in all of them.
    pub fn copy(&self, alloc: Global) -> Result<Outs, Memory>
        ensures { IfOk result (λ outs. outs ≡ self.now) }
    {
        let mut copied = Outs::new(alloc);
        for out in self.list.iter() {
            copied.push(out.copy(alloc)?)?;
        }
        Ok(copied)
    }
}
