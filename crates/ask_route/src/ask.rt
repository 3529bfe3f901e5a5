// What is kept of an ask.
ghost use Rattle.std.specs.Prelude.{◌≡◌, option_copied};
ghost use Rattle.id_rewrite.specs.Forms.{same_form};
ghost use Rattle.ask_route.specs.Tables.{is_seated, is_under, is_with, seat_of};

use id_rewrite::same_form;
use message_body::Body;

/// An editor that was asked, and the number under which it was: the id of the request that it got.
#[derive(Clone, Copy, Debug, PartialEq, Eq)]
pub struct Seat {
    pub editor: u64,
    pub number: u128,
}

/// Where an ask is.
#[derive(Debug, Drop)]
pub enum Place {
    /// An editor was asked.
    Asked(Seat),
    /// No editor was asked yet: the server's body is kept.
    Parked(Body),
}

/// A request of a server that waits for an editor's answer. `id` is the text of the id that the server gave it
/// (JSON-RPC 2.0, section 4: a string or a number).
#[derive(Debug, Drop)]
pub struct Ask {
    pub id: Body,
    pub place: Place,
}

/// Whether an ask has an id, by what the bytes of both stand for.
pub fn is_under(ask: &Ask, id: &[u8]) -> bool
    ensures { result ≡ is_under id.now ask.now }
{
    same_form(id, ask.id.bytes())
}

/// The editor that was asked, and the number.
pub fn seat_of(ask: &Ask) -> Option<Seat>
    ensures { result ≡ seat_of ask.now }
{
    match &ask.place {
        Place::Asked(seat) => Some(*seat),
        Place::Parked(_) => None,
    }
}

/// Whether an editor was asked under a number.
pub fn is_seated(ask: &Ask, editor: u64, number: u128) -> bool
    ensures { result ≡ is_seated editor number ask.now }
{
    match &ask.place {
        Place::Asked(seat) => seat.editor == editor && seat.number == number,
        Place::Parked(_) => false,
    }
}

/// Whether an editor was asked; of None, whether none was.
pub fn is_with(ask: &Ask, holder: Option<u64>) -> bool
    ensures { result ≡ is_with holder ask.now }
{
    match (&ask.place, holder) {
        (Place::Asked(seat), Some(editor)) => seat.editor == editor,
        (Place::Parked(_), None) => true,
        _ => false,
    }
}
