//! A text that is kept whole.
ghost use Rattle.std.specs.Prelude.{◌≡◌, ◌≤◌, ℕ, List, length, bytes_eq, IsUtf8, IfOk, OnOk, IsOk};
ghost use Rattle.doc_text.specs.Changes.{changed_all};

use crate::change::ContentChange;
use crate::fault::ChangeFault;
use crate::gap::Gap;
use crate::read;
use crate::text::Text;
use json_span::Tape;
use message_body::{Body, Memory};
use position_codec::Encoding;
use std::alloc::Global;
use std::marker::Model;

/// The text of a document, kept whole.
#[derive(Debug, Drop)]
pub struct DocText {
    text: String,
}

impl Model for DocText {
    ghost use Rattle.std.specs.Prelude.{ℕ, List};

    ghost Value = { List ℕ };

    ghost view = { λ t. t.text.bytes.items };
}

impl DocText {
    // Bytes that are UTF-8; others are no text.
    pub(crate) fn from_utf8(bytes: Vec<u8>) -> Result<DocText, ChangeFault>
        ensures ok { IfOk result (λ text. text ≡ bytes.items) }
        ensures succeeds { IsUtf8 bytes.items → IsOk result }
    {
        match String::from_utf8(bytes) {
            Ok(text) => Ok(DocText { text }),
            Err(_) => Err(ChangeFault::BadShape),
        }
    }

    /// The text.
    pub fn as_str(&self) -> &str
        ensures { result.now ≡ self.now }
    {
        self.text.as_str()
    }

    /// The text with each change made in what the one before left.
    ///
    /// Changes in rising or falling order of places take time linear in the text and in theirs together; in another order each may take
    /// time linear in the text.
    pub fn behind(
        &self,
        alloc: Global,
        encoding: Encoding,
        changes: &[ContentChange],
    ) -> Result<DocText, Memory>
        ensures { IfOk result (λ text. text ≡ changed_all encoding changes.now self.now) }
    {
        let mut gap = Gap::new(alloc, encoding, self.as_str())?;
        for change in changes {
            gap.change(change)?;
        }
        let mut text = String::with_capacity(alloc, self.text.len())?;
        gap.add_to(&mut text)?;
        Ok(DocText { text })
    }
}

impl Text for DocText {
    ghost bytes = { λ t. t };

    fn new(alloc: Global, text: &[u8]) -> Result<Self, Memory> {
        let text = std::str::from_utf8(text).unwrap();
        Ok(DocText {
            text: String::from_str(alloc, text)?,
        })
    }

    fn whole(&self, alloc: Global) -> Result<Body, Memory> {
        let bytes = Vec::from_slice(alloc, self.as_str().as_bytes())?;
        Ok(Body::new(bytes))
    }

    fn equals(&self, other: &Self) -> bool {
        self.as_str() == other.as_str()
    }

    fn apply(
        &mut self,
        alloc: Global,
        encoding: Encoding,
        tape: &Tape,
        changes: u32,
    ) -> Result<(), ChangeFault> {
        let text = self.changed(alloc, encoding, tape, changes)?;
        *self = text;
        Ok(())
    }

    fn changed(
        &self,
        alloc: Global,
        encoding: Encoding,
        tape: &Tape,
        changes: u32,
    ) -> Result<Self, ChangeFault> {
        let changes = read::changes(alloc, tape, changes)?;
        let text = self.behind(alloc, encoding, changes.as_slice())?;
        Ok(text)
    }

    fn copy(&self, alloc: Global) -> Result<Self, Memory> {
        Ok(DocText {
            text: String::from_str(alloc, self.as_str())?,
        })
    }
}
