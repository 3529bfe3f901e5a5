ghost use Rattle.json_nodes.specs.At.{At, ChildAt, FoundChild};
ghost use Rattle.json_nodes.specs.Doc.{Holds};
ghost use Rattle.json_nodes.specs.Nodes.{kind_of};
ghost use Rattle.json_nodes.specs.Texts.{IsSpelledAt, between, name_spans, names};
ghost use Rattle.json_nodes.specs.Values.{doc_of};
ghost use Rattle.json_text.specs.declared.span.Span.{Span};
ghost use Rattle.json_text.specs.Json.{Json, span_of, string, value};
ghost use Rattle.json_text.specs.String.{SpellsCharacters};
ghost use Rattle.std.specs.Prelude.{◌≡◌, ◌+◌, ◌-◌, ◌<◌, ℕ, List, length, MatchOption, IfOk, Some, None, encode_utf8_all};
ghost use Rattle.std.specs.List.{slice_get};

use crate::span_bytes::part;
use crate::steps::{first_number, next_number};
use crate::values::Values;
use json_text::{Kind, Span};
use json_token::decode;
use message_body::{Body, Memory};
use std::alloc::Global;

impl<'a> Values<'a> {
    /// What a value is.
    pub fn kind(self, node: u32) -> Kind
        requires { node < length self.nodes.now }
        ensures { (t : Json) → At (doc_of self.entry) node t → result ≡ kind_of t }
    {
        self.nodes[node as usize].kind
    }

    /// Where a value stands, with its quotation marks or brackets.
    pub fn span(self, node: u32) -> Span
        requires { node < length self.nodes.now }
        ensures span { (t : Json) → At (doc_of self.entry) node t → result ≡ span_of t }
        ensures text { (t : Json) → At (doc_of self.entry) node t → IsSpelledAt (doc_of self.entry).bytes t }
    {
        let here = self.nodes[node as usize];
        Span {
            from: here.from as usize,
            to: here.to as usize,
        }
    }

    /// The bytes of a value, with its quotation marks or brackets.
    pub fn bytes(self, node: u32) -> &'a [u8]
        requires { node < length self.nodes.now }
        ensures place { (t : Json) → At (doc_of self.entry) node t → result.now ≡ between (span_of t).from (span_of t).to (doc_of self.entry).bytes }
        ensures spelled { (t : Json) → At (doc_of self.entry) node t → value t (span_of t).from result.now }
    {
        let here = self.nodes[node as usize];
        part(self.bytes, here.from as usize, here.to as usize)
    }

    /// The bytes between the quotation marks of a string.
    pub fn string(self, node: u32) -> &'a [u8]
        requires { node < length self.nodes.now }
        ensures place { (s : Span) (cs : List ℕ) → At (doc_of self.entry) node (string s cs)
            → result.now ≡ between (s.from + 1) (s.to - 1) (doc_of self.entry).bytes }
        ensures spelled { (s : Span) (cs : List ℕ) → At (doc_of self.entry) node (string s cs) → SpellsCharacters cs result.now }
    {
        let here = self.nodes[node as usize];
        inside_quotes(self.bytes, here.from, here.to)
    }

    /// The characters of a string, in UTF-8; a surrogate with no partner stands for U+FFFD.
    pub fn text(self, alloc: Global, node: u32) -> Result<Body, Memory>
        requires { node < length self.nodes.now }
        ensures { (s : Span) (cs : List ℕ) → At (doc_of self.entry) node (string s cs) → IfOk result (λ text. text ≡ encode_utf8_all cs) }
    {
        let text = decode(alloc, self.string(node))?;
        Ok(Body::new(text))
    }

    /// The bytes between the quotation marks of the name of a member, which its value stands for.
    pub fn name(self, node: u32) -> &'a [u8]
        requires { node < length self.nodes.now }
        ensures place { (k n : ℕ) (t u : Json) (s : Span) → ChildAt (doc_of self.entry) k t n node u → slice_get (name_spans t) n ≡ Some s
            → result.now ≡ between (s.from + 1) (s.to - 1) (doc_of self.entry).bytes }
        ensures spelled { (k n : ℕ) (t u : Json) (cs : List ℕ) → ChildAt (doc_of self.entry) k t n node u → slice_get (names t) n ≡ Some cs
            → SpellsCharacters cs result.now }
    {
        let name = self.nodes[node as usize].name;
        inside_quotes(self.bytes, name.from, name.to)
    }

    /// The first item of an array, or the value of the first member of an object.
    pub fn first(self, node: u32) -> Option<u32>
        requires { node < length self.nodes.now }
        ensures first { (t : Json) → At (doc_of self.entry) node t → FoundChild (doc_of self.entry) node t 0 result }
        ensures inside { MatchOption result (Unit {0}) (λ first. (node < first) × (first < length self.entry.nodes.now)) }
    {
        first_number(self.nodes, node)
    }

    /// The item that follows this one in its array, or the value of the member that follows this one's in its object. Nothing
    /// follows the text's own value.
    pub fn next(self, node: u32) -> Option<u32>
        requires { node < length self.nodes.now }
        ensures next { (k n : ℕ) (t u : Json) → ChildAt (doc_of self.entry) k t n node u → FoundChild (doc_of self.entry) k t (n + 1) result }
        ensures root { (t : Json) → Holds (doc_of self.entry) t → node ≡ 0 → result ≡ None }
        ensures inside { MatchOption result (Unit {0}) (λ next. (node < next) × (next < length self.entry.nodes.now)) }
    {
        next_number(self.nodes, node)
    }
}

// The bytes of a string in this span, without its quotation marks.
fn inside_quotes(bytes: &[u8], from: u32, to: u32) -> &[u8]
    ensures { result.now ≡ between (from + 1) (to - 1) bytes.now }
{
    part(bytes, from as usize + 1, (to as usize).saturating_sub(1))
}
