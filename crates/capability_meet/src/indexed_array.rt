// The items of an array, to look values up among them.
ghost use Rattle.std.specs.Prelude.{◌≡◌, ◌<◌, ◌||◌, ℕ, List, length, bytes_eq, IfOk, IfSome, IsSomeAnd, OnOk};
ghost use Rattle.json_text.specs.declared.span.Span.{Span};
ghost use Rattle.json_text.specs.Json.{Items, Json, array};
ghost use Rattle.json_nodes.specs.At.{At};
ghost use Rattle.json_nodes.specs.Values.{doc_of};
ghost use Rattle.capability_meet.specs.IndexedArray.{IsIndexedArray, KeepsTexts, has_text};
ghost use Rattle.capability_meet.specs.Order.{is_among};
ghost use Rattle.capability_meet.specs.ValueText.{value_text};

use crate::order::is_among;
use crate::value_text::value_text;
use json_nodes::Values;
use message_body::Memory;
use std::alloc::Global;
use std::collections::BTreeSet;

/// An array of a text with the texts of its items. They are not kept where there was no memory for them: its items are then
/// compared one by one.
#[derive(Drop)]
pub struct IndexedArray<'a> {
    pub values: Values<'a>,
    pub node: u32,
    alloc: Global,
    texts: Option<BTreeSet<Vec<u8>>>,
}

impl<'a> IndexedArray<'a> {
    /// An array with the texts of its items. It takes n log n comparisons of n items and names, and memory for a text of each item.
    pub fn new(alloc: Global, values: Values<'a>, node: u32) -> IndexedArray<'a>
        requires { node < length values.nodes.now }
        ensures indexed { IsIndexedArray result }
        ensures values { result.values ≡ values.entry }
        ensures node { result.node ≡ node }
    {
        let texts = item_texts(alloc, values, node).ok();
        IndexedArray {
            values,
            node,
            alloc,
            texts,
        }
    }

    /// Whether a value says the same as some item. Where the texts are kept it takes log n comparisons of n items, else n.
    pub fn has(&self, left: Values, item: u32) -> bool
        requires item { item < length left.nodes.now }
        requires node { self.now.node < length self.now.values.nodes.now }
        requires indexed { IsIndexedArray self.now }
        ensures { (t : Json) (r : Span) (ks : Items) → At (doc_of left.entry) item t → At (doc_of self.now.values) self.now.node (array r ks)
            → result ≡ is_among t ks }
    {
        match self.has_kept(left, item) {
            Some(answer) => answer,
            None => is_among(self.alloc, left, item, self.values, self.node),
        }
    }

    // The same by the texts, where they are kept.
    fn has_kept(&self, left: Values, item: u32) -> Option<bool>
        requires item { item < length left.nodes.now }
        ensures { (t : Json) → At (doc_of left.entry) item t
            → IfSome result (λ answer. IsSomeAnd self.now.texts (λ texts. answer ≡ has_text texts (value_text t))) }
    {
        match &self.texts {
            Some(texts) => has_text(self.alloc, texts, left, item),
            None => None,
        }
    }
}

// Whether the text of a value is kept; none where there is no memory for its text.
fn has_text(alloc: Global, texts: &BTreeSet<Vec<u8>>, left: Values, item: u32) -> Option<bool>
    requires { item < length left.nodes.now }
    ensures { (t : Json) → At (doc_of left.entry) item t → IfSome result (λ answer. answer ≡ has_text texts.now (value_text t)) }
{
    let Ok(text) = value_text(alloc, left, item) else {
        return None
    };
    Some(texts.contains(text.as_slice()))
}

// The texts of the items of an array.
fn item_texts(alloc: Global, values: Values, node: u32) -> Result<BTreeSet<Vec<u8>>, Memory>
    requires { node < length values.nodes.now }
    ensures { IfOk result (λ texts. KeepsTexts texts (doc_of values.entry) node) }
{
    let mut texts = BTreeSet::new(alloc);
    let mut next = values.first(node);
    while let Some(item) = next {
        add_text(alloc, &mut texts, values, item)?;
        next = values.next(item);
    }
    Ok(texts)
}

// Keeps the text of an item.
fn add_text(
    alloc: Global,
    texts: &mut BTreeSet<Vec<u8>>,
    values: Values,
    item: u32,
) -> Result<(), Memory>
    requires { item < length values.nodes.now }
    ensures { (u : Json) → At (doc_of values.entry) item u → OnOk result ((text : List ℕ)
        → has_text texts.new text ≡ (bytes_eq text (value_text u) || has_text texts.old text)) }
{
    let text = value_text(alloc, values, item)?;
    texts.insert(text)?;
    Ok(())
}
