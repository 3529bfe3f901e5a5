//! A JSON text with its values.
ghost use Rattle.std.specs.Prelude.{◌≡◌, ◌↔◌, ◌+◌, ◌<◌, ℕ, ◌≤◌, List, length, encode_utf8_all, IsTrue, IfOk, MatchOption, MatchResult, Option, Err, None};
ghost use Rattle.std.specs.Option.{option_and_then, option_map};
ghost use Rattle.std.specs.Str.{chars};
ghost use Rattle.json_text.specs.declared.span.Span.{Span};
ghost use Rattle.json_text.specs.Json.{Json, string, IsText, depth, span_of};
ghost use Rattle.json_text.specs.Changes.{edits_of};
ghost use Rattle.json_text.specs.Replace.{Rise, RiseFrom};
ghost use Rattle.json_text.specs.Faults.{IsSyntaxFault, IsDepthFault};
ghost use Rattle.json_text.specs.Named.{named_in};
ghost use Rattle.json_nodes.specs.At.{At, ChildAt, Found, FoundChild};
ghost use Rattle.json_nodes.specs.Doc.{Holds};
ghost use Rattle.json_nodes.specs.Nodes.{kind_of};
ghost use Rattle.json_nodes.specs.Puts.{put_edits, text_for};
ghost use Rattle.json_nodes.specs.Same.{same};
ghost use Rattle.json_nodes.specs.SameTree.{Same};
ghost use Rattle.json_nodes.specs.Texts.{IsSpelledAt};
ghost use Rattle.json_nodes.specs.Values.{doc_of};
ghost use Rattle.json_span.specs.Machine.{start, read};
ghost use Rattle.json_span.specs.Views.{Reads};

use crate::fault::JsonFault;
use crate::state::Reader;
use json_nodes::{Node, Put, Values};
use json_text::{Change, Kind, Span};
use message_body::{Body, Memory};
use std::alloc::Global;
use std::marker::Model;

/// A JSON text (RFC 8259) that nests at most 1,024 deep, and its values in preorder.
#[derive(Drop)]
pub struct Tape<'a> {
    bytes: &'a [u8],
    nodes: Vec<Node>,
}

impl<'a> Model for Tape<'a> {
    ghost use Rattle.json_text.specs.Json.{Json};
    ghost use Rattle.json_nodes.specs.Doc.{Doc, Holds};

    ghost Value = { Doc };

    ghost view = { λ t. record { bytes = t.bytes.now; nodes = t.nodes.items } };

    ghost invariant = { λ t. (j : Json) × Holds (record { bytes = t.bytes.now; nodes = t.nodes.items }) j };
}

#[tactic(auto, unfolding(crate::specs::Machine::read))]
fn read_nodes(alloc: Global, bytes: &[u8]) -> Result<Vec<Node>, JsonFault>
    requires { length bytes.now ≤ 268435456 }
    ensures { Reads result (λ v. v.items) (read 1024 0 bytes.now start) }
{
    let text = simdutf8::compat::from_utf8(bytes).ok();
    let mut reader = Reader::new(alloc);
    let mut at = 0;
    while at < bytes.len() {
        reader.step(at, bytes[at])?;
        at = reader.run_end(text, bytes, at + 1);
    }
    reader.finish(bytes.len())
}

impl<'a> Tape<'a> {
    /// Reads bytes as a JSON text: it is taken just where it is one and nests at most 1,024 deep, unless memory runs out.
    pub fn read(alloc: Global, bytes: &'a [u8]) -> Result<Tape<'a>, JsonFault>
        requires { length bytes.now ≤ 268435456 }
        ensures ok { IfOk result (λ tape. (tape.bytes ≡ bytes.now) × ((j : Json) × Holds tape j)) }
        ensures only { (j : Json) → IsText bytes.now j → depth j ≤ 1024 → MatchResult result (λ tape. Holds tape j) (λ e. e ≡ JsonFault.Memory) }
        ensures syntax { (p : ℕ) → result ≡ Err (JsonFault.Syntax p) → IsSyntaxFault 1024 bytes.now p }
        ensures too_deep { (p : ℕ) → result ≡ Err (JsonFault.TooDeep p) → IsDepthFault 1024 bytes.now p }
    {
        let nodes = read_nodes(alloc, bytes)?;
        Ok(Tape { bytes, nodes })
    }

    /// The text.
    pub fn bytes(&self) -> &'a [u8]
        ensures { result.now ≡ self.now.bytes }
    {
        self.bytes
    }

    /// Its values in preorder, each as a node.
    pub fn nodes(&self) -> &[Node]
        ensures { result.now ≡ self.now.nodes }
    {
        self.nodes.as_slice()
    }

    /// Its bytes and its values in preorder, as one.
    pub fn values(&self) -> Values<'_>
        ensures same { doc_of result ≡ self.now }
        ensures text { (j : Json) × Holds self.now j }
    {
        Values {
            bytes: self.bytes,
            nodes: self.nodes.as_slice(),
        }
    }

    /// The allocator that its nodes are from.
    pub fn allocator(&self) -> Global {
        *self.nodes.allocator()
    }

    /// The text's value.
    pub fn root(&self) -> u32
        ensures first { result ≡ 0 }
        ensures inside { result < length self.now.nodes }
        ensures text { (j : Json) × Holds self.now j }
        ensures value { (j : Json) → Holds self.now j → At self.now result j }
    {
        let _ = &self.nodes;
        0
    }

    /// What a value is.
    pub fn kind(&self, node: u32) -> Kind
        requires { node < length self.now.nodes }
        ensures { (t : Json) → At self.now node t → result ≡ kind_of t }
    {
        self.values().kind(node)
    }

    /// Where a value stands, with its quotation marks or brackets.
    pub fn span(&self, node: u32) -> Span
        requires { node < length self.now.nodes }
        ensures span { (t : Json) → At self.now node t → result ≡ span_of t }
        ensures text { (t : Json) → At self.now node t → IsSpelledAt self.now.bytes t }
        ensures inside { (result.from ≤ result.to) × (result.to ≤ length self.now.bytes) }
    {
        self.values().span(node)
    }

    /// The value of the last member of this name; none where the value is no object.
    pub fn member(&self, node: u32, name: &str) -> Option<u32>
        requires { node < length self.now.nodes }
        ensures member { (t : Json) → At self.now node t → Found self.now (named_in (chars name.now) t) result }
        ensures inside { MatchOption result (Unit {0}) (λ member. member < length self.now.nodes) }
    {
        self.values().member(node, name)
    }

    /// The number, where it is that of a value.
    pub fn within(&self, node: Option<u32>) -> Option<u32>
        ensures same { (o : Option Json) → Found self.now o node → result ≡ node }
        ensures inside { MatchOption result (Unit {0}) (λ n. n < length self.now.nodes) }
    {
        self.values().within(node)
    }

    /// What a value is, where it is there.
    pub fn maybe_kind(&self, node: Option<u32>) -> Option<Kind>
        ensures { (o : Option Json) → Found self.now o node → result ≡ option_map kind_of o }
    {
        self.values().maybe_kind(node)
    }

    /// The value of the last member of this name, where the value is there and an object.
    pub fn maybe_member(&self, node: Option<u32>, name: &str) -> Option<u32>
        ensures member { (o : Option Json) → Found self.now o node → Found self.now (option_and_then (named_in (chars name.now)) o) result }
        ensures inside { MatchOption result (Unit {0}) (λ member. member < length self.now.nodes) }
    {
        self.values().maybe_member(node, name)
    }

    /// The first item of an array, or the value of the first member of an object.
    pub fn first(&self, node: u32) -> Option<u32>
        requires { node < length self.now.nodes }
        ensures first { (t : Json) → At self.now node t → FoundChild self.now node t 0 result }
        ensures inside { MatchOption result (Unit {0}) (λ first. (node < first) × (first < length self.now.nodes)) }
    {
        self.values().first(node)
    }

    /// The item that follows this one in its array, or the value of the member that follows this one's in its object. Nothing
    /// follows the text's own value.
    pub fn next(&self, node: u32) -> Option<u32>
        requires { node < length self.now.nodes }
        ensures next { (k n : ℕ) (t u : Json) → ChildAt self.now k t n node u → FoundChild self.now k t (n + 1) result }
        ensures root { (t : Json) → Holds self.now t → node ≡ 0 → result ≡ None }
        ensures inside { MatchOption result (Unit {0}) (λ next. (node < next) × (next < length self.now.nodes)) }
    {
        self.values().next(node)
    }

    /// The characters of a string, in UTF-8; a surrogate with no partner stands for U+FFFD.
    pub fn text(&self, alloc: Global, node: u32) -> Result<Body, Memory>
        requires { node < length self.now.nodes }
        ensures { (s : Span) (cs : List ℕ) → At self.now node (string s cs) → IfOk result (λ text. text ≡ encode_utf8_all cs) }
    {
        self.values().text(alloc, node)
    }

    /// The changes that put other bytes in place of each value of these names in an object, one for each member of such a name,
    /// however often a name stands there; of two puts of one name the first counts. None where the value is no object. The cost
    /// is linear in the object's bytes for each put, and in the new bytes.
    pub fn puts(&self, alloc: Global, node: u32, puts: &[Put]) -> Result<Vec<Change>, Memory>
        requires { node < length self.now.nodes }
        ensures edits { (t : Json) → At self.now node t → IfOk result (λ changes. edits_of changes.items ≡ put_edits (text_for puts.now) t) }
        ensures within { (t : Json) → At self.now node t → IfOk result (λ changes. RiseFrom (span_of t).from (span_of t).to (edits_of changes.items)) }
        ensures rise { IfOk result (λ changes. Rise self.now.bytes (edits_of changes.items)) }
    {
        self.values().puts(alloc, node, puts)
    }
}

/// Whether two values say the same: numbers by their text, strings by their characters, arrays item by item, and objects by
/// name, in any order, where the last member of a name counts. The time is that of `Values::same`.
pub fn same(left: &Tape, node: u32, right: &Tape, other: u32) -> bool
    requires node { node < length left.now.nodes }
    requires other { other < length right.now.nodes }
    ensures test { (t u : Json) → At left.now node t → At right.now other u → result ≡ same t u }
    ensures relation { (t u : Json) → At left.now node t → At right.now other u → (IsTrue result ↔ Same t u) }
{
    left.values()
        .same(left.allocator(), node, right.values(), other)
}
