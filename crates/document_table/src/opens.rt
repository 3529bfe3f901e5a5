//! What is open at the editors.
ghost use Rattle.std.specs.Prelude.{◌≡◌, [], find, map, None, IfOk, OnOk, option_map};
ghost use Rattle.document_model.specs.Opens.{drop_open, holder, holder_beside, is_open_at, put_open};
ghost use Rattle.document_model.specs.Orderly.{Once};
ghost use Rattle.document_table.specs.Rows.{touched_at, uris_of};
ghost use Rattle.document_table.specs.Shown.{all_bytes, shown};

use crate::numbers::Numbers;
use crate::rows;
use document_model::doc_text::Text;
use message_body::{Body, Memory};
use std::alloc::Global;
use std::collections::BTreeMap;
use std::marker::Model;

/// A document that is open at an editor, as that editor has it.
#[derive(Drop)]
pub struct Opening<T: Text> {
    pub editor: u64,
    pub uri: String,
    pub language: String,
    pub version: Body,
    pub text: T,
    /// The turn of the editor's last touch of it.
    pub touched: u128,
}

/// What is open, in the order of opening: documents by numbers, which rise by one with each that is opened, and two indexes of the numbers.
///
/// A look-up by URI costs the logarithm of how many documents are open, for each editor that has this one open. What goes over an
/// editor's documents costs that for each of them. No call walks the others'.
#[derive(Drop)]
pub struct Opens<T: Text> {
    alloc: Global,
    rows: BTreeMap<u64, Opening<T>>,
    next: u64,
    numbers: Numbers,
}

impl<T: Text> Model for Opens<T> {
    ghost use Rattle.std.specs.Prelude.{List};
    ghost use Rattle.std.specs.Map.{values_of};
    ghost use Rattle.document_model.specs.Opens.{Open};
    ghost use Rattle.document_table.specs.Numbered.{Kept};
    ghost use Rattle.document_table.specs.Shown.{all_numbered};

    ghost Value = { List Open };

    ghost view = { λ o. values_of (all_numbered T.bytes o.rows.entries) };

    ghost invariant = { λ o. Kept (all_numbered T.bytes o.rows.entries) o.next o.numbers.by_uri o.numbers.by_editor };
}

impl<T: Text + Drop> Opens<T> {
    /// Nothing is open. It takes no memory.
    pub fn new(alloc: Global) -> Self
        ensures { result ≡ [] }
    {
        Opens {
            alloc,
            rows: BTreeMap::new(alloc),
            next: 0,
            numbers: Numbers::new(alloc),
        }
    }

    /// Each document is open once at an editor. It does nothing.
    pub fn once(&self)
        ensures { Once self.now }
    {
        let _ = &self.next;
    }

    /// The document at the editor, where it is open there.
    pub fn find(&self, editor: u64, uri: &[u8]) -> Option<&Opening<T>>
        ensures { option_map (λ o. shown T.bytes o.now) result ≡ find (is_open_at editor uri.now) self.now }
    {
        match rows::number_under(&self.rows, &self.numbers, editor, uri) {
            Some(number) => rows::at(&self.rows, number),
            None => None,
        }
    }

    /// The editor that touched a document last, of those at which it is open, or of those beside one.
    pub fn holder(&self, uri: &[u8]) -> Option<&Opening<T>>
        ensures { option_map (λ o. shown T.bytes o.now) result ≡ holder uri.now self.now }
    {
        rows::latest_under(&self.rows, &self.numbers, uri, None)
    }

    /// The same, of the editors but for one.
    pub fn holder_beside(&self, editor: u64, uri: &[u8]) -> Option<&Opening<T>>
        ensures { option_map (λ o. shown T.bytes o.now) result ≡ holder_beside editor uri.now self.now }
    {
        rows::latest_under(&self.rows, &self.numbers, uri, Some(editor))
    }

    /// Puts a document of an editor in the place of the same one, or behind all.
    pub fn put(&mut self, opening: Opening<T>) -> Result<(), Memory>
        ensures { OnOk result (self.new ≡ put_open (shown T.bytes opening) self.old) }
    {
        let editor = opening.editor;
        rows::fits(editor);
        if let Some(number) = rows::number_under(
            &self.rows,
            &self.numbers,
            editor,
            opening.uri.as_bytes(),
        ) {
            rows::replace(&mut self.rows, number, opening);
            return Ok(());
        }
        let number = self.next;
        let Some(next) = number.checked_add(1) else {
            return Err(Memory);
        };
        rows::push(
            self.alloc,
            &mut self.rows,
            &mut self.numbers,
            number,
            opening,
        )?;
        self.next = next;
        Ok(())
    }

    /// The URIs of the documents that are open at an editor, in the order of their opening.
    pub fn uris_of(&self, alloc: Global, editor: u64) -> Result<Vec<String>, Memory>
        ensures { IfOk result (λ uris. all_bytes uris.items ≡ uris_of editor self.now) }
    {
        rows::uris_under(alloc, &self.rows, &self.numbers, editor)
    }

    /// The URIs of all documents, in the order of opening: one that is open at several editors stands there as often.
    pub fn uris(&self, alloc: Global) -> Result<Vec<String>, Memory>
        ensures { IfOk result (λ uris. all_bytes uris.items ≡ map (λ o. o.uri) self.now) }
    {
        rows::all_uris(alloc, &self.rows)
    }

    /// An editor touches each of its documents.
    pub fn touch_all(&mut self, editor: u64, turn: u128)
        ensures { self.new ≡ map (touched_at editor turn) self.old }
    {
        rows::touch_under(&mut self.rows, &self.numbers, editor, turn);
    }

    /// Takes a document of an editor away.
    pub fn remove(&mut self, editor: u64, uri: &[u8])
        ensures { self.new ≡ drop_open editor uri.now self.old }
    {
        let Some(number) = rows::number_under(&self.rows, &self.numbers, editor, uri) else {
            return;
        };
        let _gone = self.rows.remove(&number);
        self.numbers.remove(uri, editor, number);
    }
}
