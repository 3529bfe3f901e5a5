//! What a start of the server is told of a document.
ghost use Rattle.std.specs.Prelude.{◌≡◌, ◌^◌, ◌+◌, ◌≤◌, length, map, IfOk};
ghost use Rattle.mux_history.specs.declared.out.Out.TheVariants.{ToServer};
ghost use Rattle.focus_switch.specs.Rows.{bodies_told, switch, version_told};
ghost use Rattle.document_table.specs.Shown.{shown};
ghost use Rattle.document_table.specs.document_model.specs.Bodies.{full_text, open_text};

use crate::texts::{close_text, full_text, open_text};
use document_table::Opening;
use document_table::doc_text::Text;
use message_body::{Body, Memory};
use mux_history::{Out, Outs};
use std::alloc::Global;

/// What a start is told of a document, with the bodies that say so.
#[derive(Debug, Drop)]
pub enum Telling {
    Opens(Body),
    /// The version that the document has then.
    Changes(u32, Body),
    Closes(Body),
    /// It is closed and opened again.
    OpensAnew(Body, Body),
}

impl Telling {
    /// The bodies, to a start.
    pub fn outs(self, alloc: Global, start: u64) -> Result<Outs, Memory>
        ensures { IfOk result (λ outs. outs ≡ map (λ b. ToServer start b) (bodies_told self)) }
    {
        let mut outs = Outs::new(alloc);
        match self {
            Telling::Opens(body) | Telling::Changes(_, body) | Telling::Closes(body) => outs.push(
                Out::ToServer(start, body),
            )?,
            Telling::OpensAnew(closing, opening) => {
                outs.push(Out::ToServer(start, closing))?;
                outs.push(Out::ToServer(start, opening))?;
            }
        }
        Ok(outs)
    }

    /// The version that the start has of the document then, where it has the document.
    pub fn version(&self) -> Option<u32>
        ensures { result ≡ version_told self.now }
    {
        match self {
            Telling::Opens(_) | Telling::OpensAnew(_, _) => Some(1),
            Telling::Changes(version, _) => Some(*version),
            Telling::Closes(_) => None,
        }
    }

    /// How many bodies say so.
    pub fn count(&self) -> u128
        ensures { result ≡ length (bodies_told self.now) }
    {
        match self {
            Telling::Opens(_) | Telling::Changes(_, _) | Telling::Closes(_) => 1,
            Telling::OpensAnew(_, _) => 2,
        }
    }
}

/// didOpen of a document, in a language and with the text that an editor has.
pub fn opens<T: Text + Drop>(alloc: Global, uri: &str, opening: &Opening<T>) -> Result<Body, Memory>
    ensures { IfOk result (λ body. body ≡ open_text uri.now (shown T.bytes opening.now).language (shown T.bytes opening.now).text) }
{
    let text = opening.text.whole(alloc)?;
    let text = std::str::from_utf8(text.bytes()).unwrap();
    open_text(alloc, uri, opening.language.as_str(), text)
}

// didChange of a document to the text that an editor has.
fn changes<T: Text + Drop>(
    alloc: Global,
    opening: &Opening<T>,
    version: u32,
) -> Result<Body, Memory>
    ensures { IfOk result (λ body. body ≡ full_text (shown T.bytes opening.now).uri version (shown T.bytes opening.now).text) }
{
    let text = opening.text.whole(alloc)?;
    let text = std::str::from_utf8(text.bytes()).unwrap();
    full_text(alloc, opening.uri.as_str(), version, text)
}

/// The start is told the whole text that an editor has: as a change, or, where its language isn't the same or at the limit of versions, by closing and opening.
pub fn switch<T: Text + Drop>(
    alloc: Global,
    same_language: bool,
    versions: u32,
    opening: &Opening<T>,
    version: u32,
) -> Result<Telling, Memory>
    ensures { IfOk result (λ x. x ≡ switch same_language versions (shown T.bytes opening.now) version) }
{
    if same_language && version < versions {
        let body = changes(alloc, opening, version + 1)?;
        Ok(Telling::Changes(version + 1, body))
    } else {
        let closing = close_text(alloc, opening.uri.as_str())?;
        let opening = opens(alloc, opening.uri.as_str(), opening)?;
        Ok(Telling::OpensAnew(closing, opening))
    }
}
