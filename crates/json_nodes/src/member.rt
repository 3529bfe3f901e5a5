ghost use Rattle.json_nodes.specs.At.{At, Found};
ghost use Rattle.json_nodes.specs.Names.{Tests};
ghost use Rattle.json_nodes.specs.Values.{doc_of};
ghost use Rattle.json_text.specs.declared.span.Span.{Span};
ghost use Rattle.json_text.specs.Json.{Json, Members, object};
ghost use Rattle.json_text.specs.Named.{named_in};
ghost use Rattle.std.specs.Prelude.{◌<◌, length, MatchOption};
ghost use Rattle.std.specs.Str.{chars};

use crate::values::Values;
use json_text::Kind;
use json_token::spells_text;

impl<'a> Values<'a> {
    /// The value of the last member of this name; none where the value is no object.
    pub fn member(self, node: u32, name: &str) -> Option<u32>
        requires { node < length self.nodes.now }
        ensures member { (t : Json) → At (doc_of self.entry) node t → Found (doc_of self.entry) (named_in (chars name.now) t) result }
        ensures inside { MatchOption result (Unit {0}) (λ member. member < length self.entry.nodes.now) }
    {
        match self.kind(node) {
            Kind::Object => last_named(self, node, name),
            _ => None,
        }
    }
}

// The value of the last member of this name in an object.
fn last_named(values: Values, node: u32, name: &str) -> Option<u32>
    requires { node < length values.nodes.now }
    ensures member { (s : Span) (ms : Members) → At (doc_of values.entry) node (object s ms)
        → Found (doc_of values.entry) (named_in (chars name.now) (object s ms)) result }
    ensures inside { MatchOption result (Unit {0}) (λ member. member < length values.entry.nodes.now) }
{
    let mut found = None;
    let mut next = values.first(node);
    while let Some(member) = next {
        if is_named(values, member, name) {
            found = Some(member);
        }
        next = values.next(member);
    }
    found
}

// Whether the member of this value has this name.
fn is_named(values: Values, node: u32, name: &str) -> bool
    requires { node < length values.nodes.now }
    ensures { Tests (chars name.now) (doc_of values.entry) node result }
{
    spells_text(values.name(node), name)
}
