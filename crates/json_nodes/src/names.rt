ghost use Rattle.json_nodes.specs.At.{At, ChildAt, Found, FoundChild};
ghost use Rattle.json_nodes.specs.Same.{drop_members, has_name};
ghost use Rattle.json_nodes.specs.Texts.{names};
ghost use Rattle.json_nodes.specs.Values.{doc_of};
ghost use Rattle.json_text.specs.declared.span.Span.{Span};
ghost use Rattle.json_text.specs.Json.{Json, Members, object};
ghost use Rattle.json_text.specs.Named.{named};
ghost use Rattle.json_text.specs.String.{SpellsCharacters};
ghost use Rattle.std.specs.Prelude.{◌≡◌, ◌+◌, ◌<◌, ℕ, List, length, MatchOption, Some};
ghost use Rattle.std.specs.List.{slice_get};

use crate::values::Values;
use json_token::same_characters;

impl<'a> Values<'a> {
    /// Whether a member that follows, from this one on, has the name of a member too. The time is linear in the members from that
    /// one on and in the bytes of their names.
    pub fn is_named_again(self, member: u32, following: Option<u32>) -> bool
        requires member { member < length self.nodes.now }
        requires following { MatchOption following (Unit {0}) (λ m. m < length self.nodes.now) }
        ensures { (k n : ℕ) (s : Span) (u : Json) (ms : Members) (cs : List ℕ) → ChildAt (doc_of self.entry) k (object s ms) n member u
            → slice_get (names (object s ms)) n ≡ Some cs → FoundChild (doc_of self.entry) k (object s ms) (n + 1) following
            → result ≡ has_name cs (drop_members (n + 1) ms) }
    {
        self.last_spelled(self.name(member), following).is_some()
    }

    /// The last member, from this one on, whose name is spelled so. The time is linear in the members from this one on and in the
    /// bytes of their names.
    pub fn last_spelled(self, raw: &[u8], from: Option<u32>) -> Option<u32>
        requires { MatchOption from (Unit {0}) (λ m. m < length self.nodes.now) }
        ensures named { (k n : ℕ) (s : Span) (ms : Members) (cs : List ℕ) → SpellsCharacters cs raw.now
            → FoundChild (doc_of self.entry) k (object s ms) n from → Found (doc_of self.entry) (named cs (drop_members n ms)) result }
        ensures inside { MatchOption result (Unit {0}) (λ member. member < length self.entry.nodes.now) }
    {
        let mut found = None;
        let mut next = from;
        while let Some(member) = next {
            if same_characters(raw, self.name(member)) {
                found = Some(member);
            }
            next = self.next(member);
        }
        found
    }
}
