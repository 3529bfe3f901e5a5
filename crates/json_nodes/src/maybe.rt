ghost use Rattle.json_nodes.specs.At.{Found, FoundChild};
ghost use Rattle.json_nodes.specs.Nodes.{kind_of};
ghost use Rattle.json_nodes.specs.Values.{doc_of};
ghost use Rattle.json_text.specs.Json.{Json};
ghost use Rattle.json_text.specs.Named.{named_in};
ghost use Rattle.std.specs.Option.{option_and_then, option_map};
ghost use Rattle.std.specs.Prelude.{◌≡◌, ◌+◌, ◌<◌, ℕ, length, MatchOption, Option};
ghost use Rattle.std.specs.Str.{chars};

use crate::values::Values;
use json_text::Kind;

// Look-ups of values that may be absent.
impl<'a> Values<'a> {
    /// The number, where it is that of a value.
    pub fn within(self, node: Option<u32>) -> Option<u32>
        ensures same { (o : Option Json) → Found (doc_of self.entry) o node → result ≡ node }
        ensures inside { MatchOption result (Unit {0}) (λ n. n < length self.entry.nodes.now) }
    {
        match node {
            Some(number) if (number as usize) < self.nodes.len() => node,
            _ => None,
        }
    }

    /// What a value is, where it is there.
    pub fn maybe_kind(self, node: Option<u32>) -> Option<Kind>
        ensures { (o : Option Json) → Found (doc_of self.entry) o node → result ≡ option_map kind_of o }
    {
        let node = self.within(node)?;
        Some(self.kind(node))
    }

    /// The value of the last member of this name, where the value is there and an object.
    pub fn maybe_member(self, node: Option<u32>, name: &str) -> Option<u32>
        ensures member { (o : Option Json) → Found (doc_of self.entry) o node
            → Found (doc_of self.entry) (option_and_then (named_in (chars name.now)) o) result }
        ensures inside { MatchOption result (Unit {0}) (λ n. n < length self.entry.nodes.now) }
    {
        let node = self.within(node)?;
        self.member(node, name)
    }

    /// The item or the value of the member that follows, where this one is there.
    pub fn maybe_next(self, node: Option<u32>) -> Option<u32>
        ensures next { (k n : ℕ) (t : Json) → FoundChild (doc_of self.entry) k t n node → FoundChild (doc_of self.entry) k t (n + 1) result }
        ensures inside { MatchOption result (Unit {0}) (λ n. n < length self.entry.nodes.now) }
    {
        let node = self.within(node)?;
        self.next(node)
    }
}
