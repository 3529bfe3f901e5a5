ghost use Rattle.json_nodes.specs.At.{At, ChildAt};
ghost use Rattle.json_nodes.specs.Puts.{member_edits, put_edits, text_for};
ghost use Rattle.json_nodes.specs.Same.{drop_members};
ghost use Rattle.json_nodes.specs.Texts.{names};
ghost use Rattle.json_nodes.specs.Values.{doc_of};
ghost use Rattle.json_text.specs.Changes.{edits_of};
ghost use Rattle.json_text.specs.declared.span.Span.{Span};
ghost use Rattle.json_text.specs.Json.{Json, Members, object, span_of};
ghost use Rattle.json_text.specs.Replace.{Rise, RiseFrom};
ghost use Rattle.json_text.specs.String.{SpellsCharacters};
ghost use Rattle.std.specs.Prelude.{◌≡◌, ◌<◌, ◌++◌, ℕ, suc, List, length, option_map, Some, IfOk};
ghost use Rattle.std.specs.List.{slice_get};

use crate::values::Values;
use json_text::{Change, Kind};
use json_token::spells_text;
use message_body::{Body, Memory};
use std::alloc::Global;

/// A name, and the bytes that come in place of each of its values in an object.
#[derive(Clone, Copy, Debug)]
pub struct Put<'a> {
    pub name: &'a str,
    pub text: &'a [u8],
}

impl<'a> Values<'a> {
    /// The changes of a text that put other bytes in place of each value of these names in an object, one for each member of such
    /// a name, however often a name stands there; of two puts of one name the first counts. None where the value is no object.
    /// Their places rise and lie within the value. The cost is linear in the object's bytes for each put, and in the new bytes.
    pub fn puts(self, alloc: Global, node: u32, puts: &[Put]) -> Result<Vec<Change>, Memory>
        requires { node < length self.nodes.now }
        ensures edits { (t : Json) → At (doc_of self.entry) node t → IfOk result (λ changes. edits_of changes.items ≡ put_edits (text_for puts.now) t) }
        ensures within { (t : Json) → At (doc_of self.entry) node t
            → IfOk result (λ changes. RiseFrom (span_of t).from (span_of t).to (edits_of changes.items)) }
        ensures rise { (t : Json) → At (doc_of self.entry) node t → IfOk result (λ changes. Rise (doc_of self.entry).bytes (edits_of changes.items)) }
    {
        match self.kind(node) {
            Kind::Object => member_puts(alloc, self, node, puts),
            _ => Ok(Vec::new(alloc)),
        }
    }
}

// The changes of the members of an object.
fn member_puts(
    alloc: Global,
    values: Values,
    node: u32,
    puts: &[Put],
) -> Result<Vec<Change>, Memory>
    requires { node < length values.nodes.now }
    ensures { (s : Span) (ms : Members) → At (doc_of values.entry) node (object s ms)
        → IfOk result (λ changes. edits_of changes.items ≡ member_edits (text_for puts.now) ms) }
{
    let mut changes = Vec::new(alloc);
    let mut next = values.first(node);
    while let Some(member) = next {
        add_put(alloc, &mut changes, values, member, puts)?;
        next = values.next(member);
    }
    Ok(changes)
}

// The change of one member, where there are bytes for its name.
fn add_put(
    alloc: Global,
    changes: &mut Vec<Change>,
    values: Values,
    member: u32,
    puts: &[Put],
) -> Result<(), Memory>
    requires { member < length values.nodes.now }
    ensures { (k n : ℕ) (s : Span) (ms : Members) (u : Json) → ChildAt (doc_of values.entry) k (object s ms) n member u
        → IfOk result (λ done. edits_of changes.new.items ++ member_edits (text_for puts.now) (drop_members (suc n) ms)
        ≡ edits_of changes.old.items ++ member_edits (text_for puts.now) (drop_members n ms)) }
{
    if let Some(text) = text_for(values.name(member), puts) {
        let text = Body::new(Vec::from_slice(alloc, text)?);
        changes.push(Change {
            span: values.span(member),
            text,
        })?;
    }
    Ok(())
}

// The bytes for a name that is spelled so.
fn text_for<'a>(name: &[u8], puts: &[Put<'a>]) -> Option<&'a [u8]>
    ensures { (cs : List ℕ) → SpellsCharacters cs name.now → option_map (λ b. b.now) result ≡ text_for puts.now cs }
{
    for put in puts {
        if spells_text(name, put.name) {
            return Some(put.text);
        }
    }
    None
}
