//! The documents that a group of editors shares.
ghost use Rattle.std.specs.Prelude.{◌≡◌, ◌≤◌, ◌<◌, ◌^◌, ◌+◌, ◌&&◌, bytes_eq, ℕ, List, [], Option, Some, None, IsUtf8, find, IfOk, OnOk, fold, length, map, option_map};
ghost use Rattle.std.specs.List.{list_all};
ghost use Rattle.json_text.specs.Json.{Json};
ghost use Rattle.json_nodes.specs.At.{At};
ghost use Rattle.document_table.specs.document_model.specs.Notices.{DidChange};
ghost use Rattle.document_table.specs.document_model.specs.Opens.{Open, is_open_at, put_open};
ghost use Rattle.document_table.specs.Rows.{touched_at};
ghost use Rattle.document_table.specs.Shown.{all_bytes, shown};
ghost use Rattle.focus_switch.specs.Documents.{held_of, version_held};
ghost use Rattle.focus_switch.specs.Holders.{change_from, is_alike, is_own, speaks_alike};
ghost use Rattle.focus_switch.specs.Noted.{FoundChange};
ghost use Rattle.focus_switch.specs.Rows.{Step, agreement, agreement_of, agrees_on_all, is_agreed, change_row, change_sends, changed, close_next, close_row, close_sends, differing, differing_own, each, open_row, open_sends, leave_row, nothing, ready_row, replay_all, send, switch, sync_row, sync_sends, synced, text_after, unready_row};
ghost use Rattle.focus_switch.specs.Versions.{version_of, versions_of};
ghost use Rattle.focus_switch.specs.Walks.{and_version, replay_at, replay_at_sends, replay_next, sync_at, sync_next};

use crate::held::Helds;
use crate::notice::{Change, did_change, with_version};
use crate::telling::{Telling, opens, switch};
use crate::texts::close_text;
use crate::version::DocumentVersion;
use document_table::doc_text::{ChangeFault, Text};
use document_table::json_span::Tape;
use document_table::rpc_message::Message;
use document_table::{Agreement, Opening, Opens};
use message_body::{Body, Memory};
use mux_history::Outs;
use position_codec::Encoding;
use std::alloc::Global;
use std::marker::Model;

/// The documents that are open at the editors of a group, and those that the ready start of its server has. It keeps nothing of a document that is closed everywhere.
///
/// A look-up of a document costs the logarithm of how many are open, for each editor that has this one open. `open`, `change`, `close`
/// and `agrees` make a few; `sync`, `agrees_on_all`, `leave` and `versions_of` make a few for each document of the editor, and `ready` for each that is open.
#[derive(Drop)]
pub struct Shared<T: Text> {
    alloc: Global,
    start: Option<u64>,
    encoding: Option<Encoding>,
    versions: u32,
    turn: u128,
    opens: Opens<T>,
    sent: u128,
    helds: Helds,
}

impl<T: Text> Model for Shared<T> {
    ghost use Rattle.focus_switch.specs.Documents.{Documents};

    ghost Value = { Documents };

    ghost view = { λ s. record { start = s.start; encoding = s.encoding; versions = s.versions; turn = s.turn; opens = s.opens; sent = s.sent; helds = s.helds } };
}

// Whether the start agrees.
fn is_agreed(agreement: Agreement) -> bool
    ensures { result ≡ is_agreed agreement }
{
    matches!(agreement, Agreement::Agrees { .. })
}

impl<T: Text + Drop> Shared<T> {
    /// No documents, and no start that is ready. A document has at most `versions` versions at a start before it is closed and opened again.
    pub fn new(alloc: Global, versions: u32) -> Self
        requires { 1 ≤ versions }
        ensures { result ≡ record { start = None; encoding = None; versions = versions; turn = 0; opens = []; sent = 0; helds = [] } }
    {
        Shared {
            alloc,
            start: None,
            encoding: None,
            versions,
            turn: 0,
            opens: Opens::new(alloc),
            sent: 0,
            helds: Helds::new(alloc),
        }
    }

    /// An editor opens a document (LSP 3.17, DidOpenTextDocumentParams).
    pub fn open(
        &mut self,
        e: u64,
        uri: Body,
        language: Body,
        version: Body,
        text: Body,
    ) -> Result<Outs, Memory>
        requires uri { IsUtf8 uri }
        requires language { IsUtf8 language }
        requires text { IsUtf8 text }
        ensures { IfOk result (λ outs. record { outs = outs; after = self.new } ≡ open_row e uri language version text self.old) }
    {
        let opening = opening_of(self.alloc, e, &uri, &language, version, &text, self.turn)?;
        let telling = self.opening_tells(&opening)?;
        let outs = self.tell(opening.uri.as_bytes(), telling)?;
        self.touch(opening)?;
        Ok(outs)
    }

    /// An editor changes a document (LSP 3.17, DidChangeTextDocumentParams), by a message. One that is no change of a document that is
    /// open there changes nothing.
    pub fn change(&mut self, e: u64, message: &Message) -> Result<Outs, Memory>
        ensures { (t : Json) → At message.now.doc 0 t
            → IfOk result (λ outs. record { outs = outs; after = self.new } ≡ change_row e message.now.doc.bytes t self.old) }
    {
        let tape = message.tape();
        let Some(change) = did_change(self.alloc, tape)? else {
            return Ok(Outs::new(self.alloc))
        };
        let Some(opening) = self.opens.find(e, change.uri.bytes()) else {
            return Ok(Outs::new(self.alloc))
        };
        let Some(changed) = self.changed(opening, tape, change)? else {
            return Ok(Outs::new(self.alloc))
        };
        let telling = self.changing_tells(tape, opening, &changed)?;
        let outs = self.tell(changed.uri.as_bytes(), telling)?;
        self.touch(changed)?;
        Ok(outs)
    }

    // A document behind a change, where the list of changes has the right shape.
    fn changed(
        &self,
        opening: &Opening<T>,
        tape: &Tape,
        change: Change,
    ) -> Result<Option<Opening<T>>, Memory>
        requires { change.changes < length tape.now.nodes }
        ensures { (q : DidChange) → FoundChange tape.now (Some q) (Some change) → IfOk result (λ o. option_map (shown T.bytes) o
            ≡ option_map (λ text. changed (shown T.bytes opening.now) q text self.now.turn)
            (text_after self.now.encoding q.changes (shown T.bytes opening.now).text)) }
    {
        let Some(text) = self.text_behind(&opening.text, tape, change.changes)? else {
            return Ok(None)
        };
        let uri = String::from_str(self.alloc, opening.uri.as_str())?;
        let language = String::from_str(self.alloc, opening.language.as_str())?;
        Ok(Some(Opening {
            editor: opening.editor,
            uri,
            language,
            version: change.version,
            text,
            touched: self.turn,
        }))
    }

    // A text behind the changes that a node lists, where it lists changes and a start was ready.
    fn text_behind(&self, text: &T, tape: &Tape, changes: u32) -> Result<Option<T>, Memory>
        requires { changes < length tape.now.nodes }
        ensures { (cs : Json) → At tape.now changes cs → IfOk result (λ x. option_map T.bytes x ≡ text_after self.now.encoding cs (T.bytes text.now)) }
    {
        let Some(encoding) = self.encoding else {
            return Ok(None)
        };
        match text.changed(self.alloc, encoding, tape, changes) {
            Ok(changed) => Ok(Some(changed)),
            Err(ChangeFault::BadShape) => Ok(None),
            Err(ChangeFault::Memory) => Err(Memory),
        }
    }

    /// An editor closes a document (LSP 3.17, DidCloseTextDocumentParams). One that isn't open there changes nothing.
    pub fn close(&mut self, e: u64, uri: &[u8]) -> Result<Outs, Memory>
        ensures { IfOk result (λ outs. record { outs = outs; after = self.new } ≡ close_row e uri.now self.old) }
    {
        let Some(opening) = self.opens.find(e, uri) else {
            return Ok(Outs::new(self.alloc))
        };
        let uri = String::from_str(self.alloc, opening.uri.as_str())?;
        let telling = self.closing_tells(e, uri.as_str())?;
        let outs = self.tell(uri.as_bytes(), telling)?;
        self.opens.remove(e, uri.as_bytes());
        Ok(outs)
    }

    /// Before a message of an editor goes on to the start: it is told the editor's text of each document, where it has another, or another language.
    pub fn sync(&mut self, e: u64) -> Result<Outs, Memory>
        ensures { IfOk result (λ outs. record { outs = outs; after = self.new } ≡ sync_row e self.old) }
    {
        let outs = self.sync_all(e)?;
        self.touch_all(e)?;
        Ok(outs)
    }

    // An editor touches each of its documents.
    fn touch_all(&mut self, e: u64) -> Result<(), Memory>
        ensures { OnOk result (self.new ≡ record self.old { opens = map (touched_at e self.old.turn) self.old.opens; turn = self.old.turn + 1 }) }
    {
        let Some(turn) = self.turn.checked_add(1) else {
            return Err(Memory)
        };
        self.opens.touch_all(e, self.turn);
        self.turn = turn;
        Ok(())
    }

    // Tells the start an editor's texts, where it has others, or other languages.
    fn sync_all(&mut self, e: u64) -> Result<Outs, Memory>
        ensures { IfOk result (λ outs. record { outs = outs; after = self.new } ≡ fold (each (synced e)) (nothing self.old) self.old.opens) }
    {
        self.opens.once();
        let uris = self.opens.uris_of(self.alloc, e)?;
        self.sync_each(e, uris.as_slice())
    }

    // The same of these documents.
    fn sync_each(&mut self, e: u64, uris: &[String]) -> Result<Outs, Memory>
        ensures { IfOk result (λ outs. record { outs = outs; after = self.new } ≡ fold (sync_next e) (nothing self.old) (all_bytes uris.now)) }
    {
        let mut outs = Outs::new(self.alloc);
        for uri in uris {
            outs.append(self.sync_one(e, uri.as_bytes())?)?;
        }
        Ok(outs)
    }

    // Tells the start an editor's text of one document, where it has another, or another language.
    fn sync_one(&mut self, e: u64, uri: &[u8]) -> Result<Outs, Memory>
        ensures { IfOk result (λ outs. record { outs = outs; after = self.new } ≡ sync_at e uri.now self.old) }
    {
        let Some(opening) = self.opens.find(e, uri) else {
            return Ok(Outs::new(self.alloc))
        };
        let telling = self.sync_tells(opening)?;
        self.tell(uri, telling)
    }

    // What the start is told of a document before a message of an editor.
    fn sync_tells(&self, opening: &Opening<T>) -> Result<Option<Telling>, Memory>
        ensures { IfOk result (λ x. x ≡ sync_sends (shown T.bytes opening.now) (version_held (shown T.bytes opening.now).uri self.now.helds) self.now) }
    {
        match self.helds.version(opening.uri.as_bytes()) {
            None => Ok(None),
            Some(version) => self.own_tells(opening, version),
        }
    }

    /// An editor leaves: it closes each of its documents, in the order of their opening.
    pub fn leave(&mut self, e: u64) -> Result<Outs, Memory>
        ensures { IfOk result (λ outs. record { outs = outs; after = self.new } ≡ leave_row e self.old) }
    {
        let uris = self.opens.uris_of(self.alloc, e)?;
        self.close_all(e, uris.as_slice())
    }

    // An editor closes these documents.
    fn close_all(&mut self, e: u64, uris: &[String]) -> Result<Outs, Memory>
        ensures { IfOk result (λ outs. record { outs = outs; after = self.new } ≡ fold (close_next e) (nothing self.old) (all_bytes uris.now)) }
    {
        let mut outs = Outs::new(self.alloc);
        for uri in uris {
            outs.append(self.close(e, uri.as_bytes())?)?;
        }
        Ok(outs)
    }

    /// Whether the server has the language and the text that an editor has of a document. It takes no memory.
    pub fn agrees(&self, e: u64, uri: &[u8]) -> Agreement
        ensures { result ≡ agreement e uri.now self.now }
    {
        match self.opens.find(e, uri) {
            Some(opening) => self.agreement_of(opening),
            None => Agreement::NotOpen,
        }
    }

    fn agreement_of(&self, opening: &Opening<T>) -> Agreement
        ensures { result ≡ agreement_of (shown T.bytes opening.now) (held_of (shown T.bytes opening.now).uri self.now.helds) self.now }
    {
        match self.helds.get(opening.uri.as_bytes()) {
            Some(held) if is_own(self.opens.holder(opening.uri.as_bytes()), opening) =>
                Agreement::Agrees {
                    held: held.version,
                    changed: held.sent,
                },
            _ => Agreement::Differs,
        }
    }

    /// Whether the start has, of each document that an editor has open, the editor's language and text.
    pub fn agrees_on_all(&self, e: u64) -> Result<bool, Memory>
        ensures { IfOk result (λ answer. answer ≡ agrees_on_all e self.now) }
    {
        let uris = self.opens.uris_of(self.alloc, e)?;
        Ok(self.agrees_on_each(e, uris.as_slice()))
    }

    // The same of these documents.
    fn agrees_on_each(&self, e: u64, uris: &[String]) -> bool
        ensures { result ≡ list_all (λ u. is_agreed (agreement e u self.now)) (all_bytes uris.now) }
    {
        for uri in uris {
            if !is_agreed(self.agrees(e, uri.as_bytes())) {
                return false;
            }
        }
        true
    }

    /// How many notifications on documents the ready start was sent. It takes no memory.
    pub fn sent(&self) -> u128
        ensures { result ≡ self.now.sent }
    {
        self.sent
    }

    /// An editor's own version of a document, where it is open there. It takes no memory.
    pub fn version(&self, e: u64, uri: &[u8]) -> Option<&[u8]>
        ensures { option_map (λ v. v.now) result ≡ option_map (λ o. o.version) (find (is_open_at e uri.now) self.now.opens) }
    {
        match self.opens.find(e, uri) {
            Some(opening) => Some(opening.version.bytes()),
            None => None,
        }
    }

    /// The versions of the documents that an editor has open, in the order of their opening.
    pub fn versions_of(&self, alloc: Global, e: u64) -> Result<Vec<DocumentVersion>, Memory>
        ensures { IfOk result (λ versions. versions.items ≡ versions_of e self.now) }
    {
        self.opens.once();
        let uris = self.opens.uris_of(alloc, e)?;
        self.versions_at(alloc, e, uris.as_slice())
    }

    // The same of these documents.
    fn versions_at(
        &self,
        alloc: Global,
        e: u64,
        uris: &[String],
    ) -> Result<Vec<DocumentVersion>, Memory>
        ensures { IfOk result (λ versions. versions.items ≡ fold (and_version e self.now) [] (all_bytes uris.now)) }
    {
        let mut versions = Vec::new(alloc);
        for uri in uris {
            if let Some(opening) = self.opens.find(e, uri.as_bytes()) {
                versions.push(self.version_of(alloc, opening)?)?;
            }
        }
        Ok(versions)
    }

    // A document's versions, at the start and at its editor.
    fn version_of(&self, alloc: Global, opening: &Opening<T>) -> Result<DocumentVersion, Memory>
        ensures { IfOk result (λ version. version ≡ version_of (shown T.bytes opening.now) self.now) }
    {
        let uri = Vec::from_slice(alloc, opening.uri.as_bytes())?;
        let version = Vec::from_slice(alloc, opening.version.bytes())?;
        Ok(DocumentVersion {
            uri: Body::new(uri),
            held: self.helds.version(opening.uri.as_bytes()),
            version: Body::new(version),
        })
    }

    /// A start of the server is ready, and counts positions in this encoding: it is told of each document that is open.
    pub fn ready(&mut self, start: u64, encoding: Encoding) -> Result<Outs, Memory>
        ensures { IfOk result (λ outs. record { outs = outs; after = self.new } ≡ ready_row start encoding self.old) }
    {
        self.start = Some(start);
        self.encoding = Some(encoding);
        self.sent = 0;
        self.helds.clear();
        self.replay_all()
    }

    /// The start is ready no more. The encoding stays.
    pub fn unready(&mut self)
        ensures { self.new ≡ unready_row self.old }
    {
        self.start = None;
        self.sent = 0;
        self.helds.clear();
    }

    // Tells the start of each document that is open, unless it has it.
    fn replay_all(&mut self) -> Result<Outs, Memory>
        ensures { IfOk result (λ outs. record { outs = outs; after = self.new } ≡ replay_all self.old) }
    {
        let uris = self.opens.uris(self.alloc)?;
        self.replay_each(uris.as_slice())
    }

    // The same of these documents.
    fn replay_each(&mut self, uris: &[String]) -> Result<Outs, Memory>
        ensures { IfOk result (λ outs. record { outs = outs; after = self.new } ≡ fold replay_next (nothing self.old) (all_bytes uris.now)) }
    {
        let mut outs = Outs::new(self.alloc);
        for uri in uris {
            outs.append(self.replay(uri.as_str())?)?;
        }
        Ok(outs)
    }

    // Tells the start of one document, unless it has it.
    fn replay(&mut self, uri: &str) -> Result<Outs, Memory>
        ensures { IfOk result (λ outs. record { outs = outs; after = self.new } ≡ replay_at uri.now self.old) }
    {
        let telling = self.replay_tells(uri)?;
        self.tell(uri.as_bytes(), telling)
    }

    // What the start is told of a document, unless it has it.
    fn replay_tells(&self, uri: &str) -> Result<Option<Telling>, Memory>
        ensures { IfOk result (λ x. x ≡ replay_at_sends uri.now (version_held uri.now self.now.helds) self.now) }
    {
        if self.helds.version(uri.as_bytes()).is_some() {
            return Ok(None);
        }
        match self.opens.holder(uri.as_bytes()) {
            Some(holder) => {
                let body = opens(self.alloc, uri, holder)?;
                Ok(Some(Telling::Opens(body)))
            }
            None => Ok(None),
        }
    }

    // What the start is told where an editor changes a document, which was the old one.
    fn changing_tells(
        &self,
        tape: &Tape,
        old: &Opening<T>,
        new: &Opening<T>,
    ) -> Result<Option<Telling>, Memory>
        ensures { (t : Json) → At tape.now 0 t
            → find (is_open_at (shown T.bytes new.now).editor (shown T.bytes new.now).uri) self.now.opens ≡ Some (shown T.bytes old.now)
            → IfOk result (λ x. x ≡ change_sends (shown T.bytes new.now) tape.now.bytes t (version_held (shown T.bytes new.now).uri self.now.helds) self.now) }
    {
        let Some(version) = self.helds.version(new.uri.as_bytes()) else {
            return Ok(None)
        };
        let holder = self.opens.holder(new.uri.as_bytes());
        if is_alike(holder, new) {
            return Ok(None);
        }
        let telling = self.change_or_switch(tape, holder, old, new, version)?;
        Ok(Some(telling))
    }

    // The message under the server's next version, where it had the old document, or the whole text of the new one.
    fn change_or_switch(
        &self,
        tape: &Tape,
        holder: Option<&Opening<T>>,
        old: &Opening<T>,
        new: &Opening<T>,
        version: u32,
    ) -> Result<Telling, Memory>
        ensures { (t : Json) → At tape.now 0 t → IfOk result (λ x. x
            ≡ change_from (shown T.bytes old.now) (shown T.bytes new.now) (option_map (λ o. shown T.bytes o.now) holder.entry)
            tape.now.bytes t version self.now.versions) }
    {
        if version < self.versions && is_own(holder, old) {
            let body = with_version(self.alloc, tape, version + 1)?;
            Ok(Telling::Changes(version + 1, body))
        } else {
            self.switch(holder, new, version)
        }
    }

    // What the start is told where an editor closes a document.
    fn closing_tells(&self, e: u64, uri: &str) -> Result<Option<Telling>, Memory>
        ensures { IfOk result (λ x. x ≡ close_sends e uri.now (version_held uri.now self.now.helds) self.now) }
    {
        let Some(version) = self.helds.version(uri.as_bytes()) else {
            return Ok(None)
        };
        match self.opens.holder_beside(e, uri.as_bytes()) {
            Some(holder) => self.own_tells(holder, version),
            None => {
                let body = close_text(self.alloc, uri)?;
                Ok(Some(Telling::Closes(body)))
            }
        }
    }

    // What the start is told where an editor opens a document.
    fn opening_tells(&self, opening: &Opening<T>) -> Result<Option<Telling>, Memory>
        ensures { IfOk result (λ x. x ≡ open_sends (shown T.bytes opening.now) (version_held (shown T.bytes opening.now).uri self.now.helds) self.now) }
    {
        match self.helds.version(opening.uri.as_bytes()) {
            None => {
                let body = opens(self.alloc, opening.uri.as_str(), opening)?;
                Ok(Some(Telling::Opens(body)))
            }
            Some(version) => self.switch_tells(opening, version),
        }
    }

    // What the start is told where a document is to be the server's.
    fn switch_tells(&self, opening: &Opening<T>, version: u32) -> Result<Option<Telling>, Memory>
        ensures { IfOk result (λ x. x ≡ differing (shown T.bytes opening.now) version self.now) }
    {
        let holder = self.opens.holder(opening.uri.as_bytes());
        if is_alike(holder, opening) {
            return Ok(None);
        }
        let telling = self.switch(holder, opening, version)?;
        Ok(Some(telling))
    }

    // The same of a document that is open.
    fn own_tells(&self, opening: &Opening<T>, version: u32) -> Result<Option<Telling>, Memory>
        ensures { IfOk result (λ x. x ≡ differing_own (shown T.bytes opening.now) version self.now) }
    {
        let holder = self.opens.holder(opening.uri.as_bytes());
        if is_own(holder, opening) {
            return Ok(None);
        }
        let telling = self.switch(holder, opening, version)?;
        Ok(Some(telling))
    }

    // The start, which has a document as its holder has it, is told the whole text of this one.
    fn switch(
        &self,
        holder: Option<&Opening<T>>,
        opening: &Opening<T>,
        version: u32,
    ) -> Result<Telling, Memory>
        ensures { IfOk result (λ x. x
            ≡ switch (speaks_alike (shown T.bytes opening.now) (option_map (λ o. shown T.bytes o.now) holder.entry))
            self.now.versions (shown T.bytes opening.now) version) }
    {
        let same_language = speaks_alike(holder, opening);
        switch(self.alloc, same_language, self.versions, opening, version)
    }

    // Tells the start, where one is ready.
    fn tell(&mut self, uri: &[u8], telling: Option<Telling>) -> Result<Outs, Memory>
        ensures { IfOk result (λ outs. record { outs = outs; after = self.new } ≡ send uri.now telling self.old) }
    {
        let Some(telling) = telling else {
            return Ok(Outs::new(self.alloc))
        };
        let Some(start) = self.start else {
            return Ok(Outs::new(self.alloc))
        };
        let Some(sent) = self.sent.checked_add(telling.count()) else {
            return Err(Memory)
        };
        self.helds.tell(self.alloc, uri, telling.version(), sent)?;
        self.sent = sent;
        telling.outs(self.alloc, start)
    }

    // An editor touches a document.
    fn touch(&mut self, opening: Opening<T>) -> Result<(), Memory>
        ensures { OnOk result (self.new ≡ record self.old { opens = put_open (shown T.bytes opening) self.old.opens; turn = self.old.turn + 1 }) }
    {
        let Some(turn) = self.turn.checked_add(1) else {
            return Err(Memory)
        };
        self.opens.put(opening)?;
        self.turn = turn;
        Ok(())
    }
}

// Whether the server, which has a document as its holder has it, has it in this one's language.
fn speaks_alike<T: Text + Drop>(holder: Option<&Opening<T>>, opening: &Opening<T>) -> bool
    ensures { result ≡ speaks_alike (shown T.bytes opening.now) (option_map (λ o. shown T.bytes o.now) holder.entry) }
{
    match holder {
        Some(holder) => holder.language.as_bytes() == opening.language.as_bytes(),
        None => false,
    }
}

// Whether it has it in this one's language and with its text.
fn is_alike<T: Text + Drop>(holder: Option<&Opening<T>>, opening: &Opening<T>) -> bool
    ensures { result ≡ is_alike (shown T.bytes opening.now) (option_map (λ o. shown T.bytes o.now) holder.entry) }
{
    match holder {
        Some(holder) => is_like(holder, opening),
        None => false,
    }
}

// The same of a document that is open: where its editor holds it, nothing is compared.
fn is_own<T: Text + Drop>(holder: Option<&Opening<T>>, opening: &Opening<T>) -> bool
    ensures { result ≡ is_own (shown T.bytes opening.now) (option_map (λ o. shown T.bytes o.now) holder.entry) }
{
    match holder {
        Some(holder) => holder.editor == opening.editor || is_like(holder, opening),
        None => false,
    }
}

// Whether two documents have the same language and the same text. The languages are compared first.
fn is_like<T: Text + Drop>(holder: &Opening<T>, opening: &Opening<T>) -> bool
    ensures { result
        ≡ (bytes_eq (shown T.bytes holder.now).language (shown T.bytes opening.now).language && bytes_eq (shown T.bytes holder.now).text (shown T.bytes opening.now).text) }
{
    holder.language.as_bytes() == opening.language.as_bytes() && holder.text.equals(&opening.text)
}

// A text that owns its bytes.
fn owned(alloc: Global, body: &Body) -> Result<String, Memory>
    requires { IsUtf8 body.now }
    ensures { IfOk result (λ text. text.bytes.items ≡ body.now) }
{
    let text = std::str::from_utf8(body.bytes()).unwrap();
    Ok(String::from_str(alloc, text)?)
}

// A document that an editor has open.
fn opening_of<T: Text + Drop>(
    alloc: Global,
    editor: u64,
    uri: &Body,
    language: &Body,
    version: Body,
    text: &Body,
    turn: u128,
) -> Result<Opening<T>, Memory>
    requires uri { IsUtf8 uri.now }
    requires language { IsUtf8 language.now }
    requires text { IsUtf8 text.now }
    ensures { IfOk result (λ o. shown T.bytes o
        ≡ record { editor = editor; uri = uri.now; language = language.now; version = version; text = text.now; touched = turn }) }
{
    let uri = owned(alloc, uri)?;
    let language = owned(alloc, language)?;
    let text = T::new(alloc, text.bytes())?;
    Ok(Opening {
        editor,
        uri,
        language,
        version,
        text,
        touched: turn,
    })
}
