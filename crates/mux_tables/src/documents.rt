// The documents of the groups, by their places.
ghost use Rattle.std.specs.Prelude.{◌≡◌, ◌<◌, ℕ, List, Some, IfOk, OnOk, length, slice_get, slice_set};
ghost use Rattle.std.specs.List.{remove};
ghost use Rattle.document_model.specs.Sayings.{saying_of};
ghost use Rattle.focus_switch.specs.Documents.{Documents};
ghost use Rattle.focus_switch.specs.Rows.{leave_row, ready_row, sync_row, unready_row};
ghost use Rattle.group_laws.specs.Steps.{document_step};
ghost use Rattle.rpc_message.specs.Message.{message_of};
ghost use Rattle.rpc_message.specs.Parsed.{IsRead};
ghost use Rattle.mux_tables.specs.Documents.{StepAt, StepFrom, left_all};

use focus_switch::Shared;
use group_laws::mux_members::{Notice, notice_in};
use message_body::Memory;
use mux_history::Outs;
use position_codec::Encoding;
use rpc_message::Message;
use std::alloc::Global;
use text_pieces::PieceText;

// No start of the group is ready.
pub fn unready(documents: &mut Vec<Shared<PieceText>>, g: usize)
    ensures { (d : Documents) → slice_get documents.old.items g ≡ Some d → documents.new.items ≡ slice_set documents.old.items g (unready_row d) }
{
    if g >= documents.len() {
        return;
    }
    documents[g].unready();
}

// Those of the group of this place are forgotten.
pub fn remove(documents: &mut Vec<Shared<PieceText>>, g: usize)
    ensures { g < length documents.old.items → documents.new.items ≡ remove documents.old.items g }
{
    if g < documents.len() {
        documents.remove(g);
    }
}

// Editors leave a group, of which no start is told anything of it.
fn leave_each(documents: &mut Shared<PieceText>, editors: &[u64]) -> Result<(), Memory>
    ensures { OnOk result (documents.new ≡ left_all editors.now documents.old) }
{
    for e in editors {
        documents.leave(*e)?;
    }
    Ok(())
}

// A start of the group is ready, and counts positions in this encoding, and these editors leave before it is told anything: what it is owed.
pub fn ready(
    alloc: Global,
    documents: &mut Vec<Shared<PieceText>>,
    g: usize,
    parted: &[u64],
    start: u64,
    encoding: Encoding,
) -> Result<Outs, Memory>
    ensures { IfOk result (λ outs. StepAt (λ d. ready_row start encoding (left_all parted.now d)) g (slice_get documents.old.items g) documents.old.items outs documents.new.items) }
{
    if g >= documents.len() {
        return Ok(Outs::new(alloc));
    }
    let shared = &mut documents[g];
    leave_each(shared, parted)?;
    let owed = shared.ready(start, encoding)?;
    Ok(owed)
}

// An editor leaves the group of this place: what the group's start is owed.
fn leave_at(
    alloc: Global,
    documents: &mut Vec<Shared<PieceText>>,
    g: usize,
    e: u64,
) -> Result<Outs, Memory>
    ensures { IfOk result (λ outs. StepAt (leave_row e) g (slice_get documents.old.items g) documents.old.items outs documents.new.items) }
{
    if g >= documents.len() {
        return Ok(Outs::new(alloc));
    }
    let owed = documents[g].leave(e)?;
    Ok(owed)
}

// The same where it may be in none.
pub fn leave(
    alloc: Global,
    documents: &mut Vec<Shared<PieceText>>,
    place: Option<usize>,
    e: u64,
) -> Result<Outs, Memory>
    ensures { IfOk result (λ outs. StepFrom (leave_row e) place documents.old.items outs documents.new.items) }
{
    let Some(g) = place else {
        return Ok(Outs::new(alloc))
    };
    let owed = leave_at(alloc, documents, g, e)?;
    Ok(owed)
}

// What an editor says of a document of its group: what the group's start is owed.
fn note_in(
    alloc: Global,
    documents: &mut Shared<PieceText>,
    e: u64,
    message: &Message,
) -> Result<Outs, Memory>
    ensures { (body : List ℕ) → IsRead message.now body
        → IfOk result (λ outs. record { outs = outs; after = documents.new } ≡ document_step e body (saying_of (message_of body)) documents.old) }
{
    match notice_in(alloc, message)? {
        Notice::Opens {
            uri,
            language,
            version,
            text,
        } => documents.open(e, uri, language, version, text),
        Notice::Changes => documents.change(e, message),
        Notice::Closes(uri) => documents.close(e, uri.bytes()),
        Notice::Nothing => Ok(Outs::new(alloc)),
    }
}

// The same of the group of this place.
fn note_at(
    alloc: Global,
    documents: &mut Vec<Shared<PieceText>>,
    g: usize,
    e: u64,
    message: &Message,
) -> Result<Outs, Memory>
    ensures { (body : List ℕ) → IsRead message.now body
        → IfOk result (λ outs. StepAt (λ d. document_step e body (saying_of (message_of body)) d) g
        (slice_get documents.old.items g) documents.old.items outs documents.new.items) }
{
    if g >= documents.len() {
        return Ok(Outs::new(alloc));
    }
    let owed = note_in(alloc, &mut documents[g], e, message)?;
    Ok(owed)
}

// The same where the editor may be in none.
pub fn note(
    alloc: Global,
    documents: &mut Vec<Shared<PieceText>>,
    place: Option<usize>,
    e: u64,
    message: &Message,
) -> Result<Outs, Memory>
    ensures { (body : List ℕ) → IsRead message.now body
        → IfOk result (λ outs. StepFrom (λ d. document_step e body
        (saying_of (message_of body)) d) place documents.old.items outs documents.new.items) }
{
    let Some(g) = place else {
        return Ok(Outs::new(alloc))
    };
    let owed = note_at(alloc, documents, g, e, message)?;
    Ok(owed)
}

// Before a message of an editor goes on: what the group's start is sent of the editor's documents.
pub fn sync(
    alloc: Global,
    documents: &mut Vec<Shared<PieceText>>,
    g: usize,
    e: u64,
) -> Result<Outs, Memory>
    ensures { IfOk result (λ outs. StepAt (sync_row e) g (slice_get documents.old.items g) documents.old.items outs documents.new.items) }
{
    if g >= documents.len() {
        return Ok(Outs::new(alloc));
    }
    let told = documents[g].sync(e)?;
    Ok(told)
}
