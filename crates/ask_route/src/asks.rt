//! The table of asks.
ghost use Rattle.std.specs.Prelude.{◌≡◌, Some, None, ◌++◌, [], ◌∷◌, filter, find, not, option_map, IfOk, OnErr, OnOk};
ghost use Rattle.std.specs.List.{list_any};
ghost use Rattle.id_rewrite.specs.rpc_message.specs.Message.{Id};
ghost use Rattle.id_rewrite.specs.rpc_message.specs.ValueTexts.{IsIdText};
ghost use Rattle.ask_route.specs.Tables.{AreIds, ask_of, asked, has_id, is_seated, is_under, is_with, less, numbers_of, parked, seat_in};

use crate::ask::{Ask, Place, Seat, seat_of};
use crate::rows::Rows;
use message_body::{Body, Memory};
use std::alloc::Global;
use std::marker::Model;

/// The asks of one start of a server: its requests that wait for an editor's answer, in the order in which they were put.
///
/// Each was asked of an editor under a number, or is parked until an editor can be asked. A call compares keys as often as
/// the logarithm of how many asks there are, for each ask that it gives or takes out. By an id its time is linear in the id
/// beside; by a number it looks at the asks that any editors have under this number.
#[derive(Drop)]
pub struct Asks {
    alloc: Global,
    rows: Rows,
}

impl Model for Asks {
    ghost use Rattle.std.specs.Prelude.{List};
    ghost use Rattle.std.specs.Map.{values_of};
    ghost use Rattle.ask_route.specs.declared.ask.Ask.{Ask};

    ghost Value = { List Ask };

    ghost view = { λ a. values_of a.rows.rows };
}

impl Asks {
    /// No asks. It takes no memory.
    pub fn new(alloc: Global) -> Asks
        ensures { result ≡ [] }
    {
        Asks {
            alloc,
            rows: Rows::new(alloc),
        }
    }

    /// An editor is asked under a number, for the server's request of this id. Where memory runs out nothing changes.
    pub fn ask(&mut self, editor: u64, number: u128, id: Body) -> Result<(), Memory>
        ensures ok { OnOk result (self.new ≡ self.old ++ asked editor number id ∷ []) }
        ensures err { OnErr result (self.new ≡ self.old) }
    {
        self.rows.push(Ask {
            id,
            place: Place::Asked(Seat { editor, number }),
        })
    }

    /// The server's request of this id is parked, with its body. Where memory runs out nothing changes.
    pub fn park(&mut self, id: Body, body: Body) -> Result<(), Memory>
        ensures ok { OnOk result (self.new ≡ self.old ++ parked id body ∷ []) }
        ensures err { OnErr result (self.new ≡ self.old) }
    {
        self.rows.push(Ask {
            id,
            place: Place::Parked(body),
        })
    }

    /// Whether an ask has this id, a parked one too.
    ///
    /// `id` is the text of an id, as the kept ones are. Other bytes that begin with a quotation mark count as a string, by
    /// the characters that are read of them; all others count by themselves. It takes no memory.
    pub fn is_open(&self, id: &[u8]) -> bool
        ensures exact { result ≡ list_any (is_under id.now) self.now }
        ensures same { (meaning : _) (i : Id) → IsIdText i id.now → AreIds meaning self.now → result ≡ has_id meaning i self.now }
    {
        self.rows.find_under(id).is_some()
    }

    /// The editor that has the first ask with this id, and its number there (LSP 3.17, Cancellation Support). None where
    /// no ask has the id, or where it is parked. `id` is as in `is_open`. It takes no memory.
    pub fn find(&self, id: &[u8]) -> Option<Seat>
        ensures exact { result ≡ seat_in (find (is_under id.now) self.now) }
        ensures same { (meaning : _) (i : Id) → IsIdText i id.now → AreIds meaning self.now → result ≡ seat_in (ask_of meaning i self.now) }
    {
        self.found(id)
    }

    // Where the first ask with this id is.
    fn found(&self, id: &[u8]) -> Option<Seat>
        ensures { result ≡ seat_in (find (is_under id.now) self.now) }
    {
        match self.rows.find_under(id) {
            Some(ask) => seat_of(ask),
            None => None,
        }
    }

    /// An editor answers what it was asked under a number: the ask ends. It gives the id that the server gave it; None
    /// where the editor has no such ask, and then nothing changes. It takes no memory.
    pub fn answer(&mut self, editor: u64, number: u128) -> Option<Body>
        ensures id { result ≡ option_map (λ ask. ask.id) (find (is_seated editor number) self.old) }
        ensures left { self.new ≡ less (is_seated editor number) self.old }
    {
        match self.rows.take_seated(editor, number) {
            Some(ask) => Some(ask.id),
            None => None,
        }
    }

    /// An editor leaves: its asks end, and are given in their order. Where memory runs out nothing changes.
    pub fn leave(&mut self, editor: u64) -> Result<Vec<Ask>, Memory>
        ensures asks { IfOk result (λ asks. asks.items ≡ filter (is_with (Some editor)) self.old) }
        ensures left { OnOk result (self.new ≡ filter (λ ask. not (is_with (Some editor) ask)) self.old) }
        ensures err { OnErr result (self.new ≡ self.old) }
    {
        self.rows.take_with(Some(editor))
    }

    /// The parked asks are parked no more, and are given in their order. Where memory runs out nothing changes.
    pub fn take_parked(&mut self) -> Result<Vec<Ask>, Memory>
        ensures asks { IfOk result (λ asks. asks.items ≡ filter (is_with None) self.old) }
        ensures left { OnOk result (self.new ≡ filter (λ ask. not (is_with None ask)) self.old) }
        ensures err { OnErr result (self.new ≡ self.old) }
    {
        self.rows.take_with(None)
    }

    /// The numbers under which an editor was asked, in the order of its asks.
    pub fn numbers_of(&self, editor: u64) -> Result<Vec<u128>, Memory>
        ensures { IfOk result (λ numbers. numbers.items ≡ numbers_of editor self.now) }
    {
        self.rows.numbers_of(editor)
    }

    /// The start is gone: all its asks end. It takes no memory.
    pub fn over(&mut self)
        ensures { self.new ≡ [] }
    {
        self.rows = Rows::new(self.alloc);
    }
}
