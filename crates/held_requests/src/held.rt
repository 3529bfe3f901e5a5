//! The table of waiting requests.
ghost use Rattle.std.specs.Prelude.{◌≡◌, true, [], ◌++◌, ◌∷◌, drop, filter, find, length, not, option_copied, slice_get, IfOk, OnErr, OnOk};
ghost use Rattle.std.specs.List.{list_any};
ghost use Rattle.numbered_rows.specs.Rows.{less};
ghost use Rattle.held_requests.specs.Tables.{asked, ids_of, is_of, is_under, of_editor, takes};

use crate::request::Request;
use crate::rows::Rows;
use message_body::{Body, Memory};
use std::alloc::Global;
use std::marker::Model;

/// The requests of the editors of one group that wait until a start is ready, in the order in which they came.
///
/// At most 256 of an editor wait, and at most 16,777,216 bytes of their bodies. A call compares numbers as often as the logarithm of how
/// many requests wait, for each of the editor's own that it looks at; by an id it is linear in the ids of these beside.
#[derive(Drop)]
pub struct Held {
    rows: Rows,
}

impl Model for Held {
    ghost use Rattle.std.specs.Prelude.{List};
    ghost use Rattle.std.specs.Map.{values_of};
    ghost use Rattle.held_requests.specs.declared.request.Request.{Request};

    ghost Value = { List Request };

    ghost view = { λ h. values_of h.rows.rows };
}

impl Held {
    /// No requests. It takes no memory.
    pub fn new(alloc: Global) -> Held
        ensures { result ≡ [] }
    {
        Held {
            rows: Rows::new(alloc),
        }
    }

    /// E10: whether one more request of an editor may wait, of so many bytes. It takes no memory.
    pub fn takes(&self, editor: u64, bytes: usize) -> bool
        ensures { result ≡ takes editor bytes self.now }
    {
        self.rows.has_room(editor, bytes)
    }

    /// E10: a request of an editor waits from now on, behind all others. Where memory runs out nothing changes.
    pub fn put(&mut self, editor: u64, id: Body, body: Body) -> Result<(), Memory>
        requires { takes editor (length body) self.old ≡ true }
        ensures ok { OnOk result (self.new ≡ self.old ++ asked editor id body ∷ []) }
        ensures err { OnErr result (self.new ≡ self.old) }
    {
        self.rows.push(Request { editor, id, body })
    }

    /// S2: the first request; None exactly where none waits. It takes no memory.
    pub fn first(&self) -> Option<&Request>
        ensures { option_copied result ≡ slice_get self.now 0 }
    {
        self.rows.first_request()
    }

    /// E3 and E11: the first request of an editor under this id, as `cancel` finds it. It takes no memory.
    pub fn find(&self, editor: u64, id: &[u8]) -> Option<&Request>
        ensures { option_copied result ≡ find (is_under editor id.now) self.now }
    {
        self.rows.find(editor, id)
    }

    /// S2: the first request waits no more, and is given; None exactly where none waits. It takes no memory.
    pub fn pop(&mut self) -> Option<Request>
        ensures request { result ≡ slice_get self.old 0 }
        ensures left { self.new ≡ drop 1 self.old }
    {
        self.rows.take_first()
    }

    /// E11: the first request of an editor under this id waits no more; it says whether there was one.
    ///
    /// `id` is the text of an id, as the kept ones are. Other bytes that begin with a quotation mark count as a string, by the characters
    /// that are read of them; all others count by themselves. It takes no memory.
    pub fn cancel(&mut self, editor: u64, id: &[u8]) -> bool
        ensures found { result ≡ list_any (is_under editor id.now) self.old }
        ensures left { self.new ≡ less (is_under editor id.now) self.old }
    {
        self.rows.take_under(editor, id)
    }

    /// The ids of an editor's requests, in the order in which they came.
    pub fn of_editor(&self, editor: u64) -> Result<Vec<Body>, Memory>
        ensures { IfOk result (λ ids. ids.items ≡ ids_of (of_editor editor self.now)) }
    {
        self.rows.ids_of(editor)
    }

    /// L1: an editor's requests wait no more. It takes no memory.
    pub fn clear(&mut self, editor: u64)
        ensures { self.new ≡ filter (λ r. not (is_of editor r)) self.old }
    {
        self.rows.take_all(editor);
    }
}
