// Laws of the order and of what two values have in common.
ghost use Rattle.std.specs.Prelude.{◌≡◌, ◌↔◌, ℕ, List, Some, false, true};
ghost use Rattle.json_text.specs.declared.span.Span.{Span};
ghost use Rattle.json_text.specs.Json.{Json, Members, object};
ghost use Rattle.json_text.specs.Named.{named};
ghost use Rattle.json_text.specs.Tree.{tree_of};
ghost use Rattle.capability_meet.specs.Bounds.{HasRequired, IsGreatest, IsGreatestDeclared};
ghost use Rattle.capability_meet.specs.DeclaredTree.{declared_of, declared_tree};
ghost use Rattle.capability_meet.specs.Meet.{meets};
ghost use Rattle.capability_meet.specs.MeetTree.{SaysTree, meet_of, meet_tree};
ghost use Rattle.capability_meet.specs.Order.{below, below_given, is_least};

/// A law: each value is below itself.
pub fn below_reflexive()
    ensures { (j : Json) → below j j ≡ true }
{}

/// A law: what is below a value is below all that this one is below.
pub fn below_transitive()
    ensures { (i j k : Json) → below i j ≡ true → below j k ≡ true → below i k ≡ true }
{}

/// A law: an object is below an object exactly if what it has of each name is below what the other has of that name, where
/// either may have none.
pub fn below_members()
    ensures { (s r : Span) (ms ns : Members) → (below (object s ms) (object r ns) ≡ true)
        ↔ ((name : List ℕ) → below_given (named name ms) (named name ns) ≡ true) }
{}

/// A law: where two values have something in common, it is below each of them, so it offers no more than either.
pub fn meet_is_below()
    ensures { (j k : Json) → meets j k ≡ true → (below (meet_tree j k) j ≡ true) × (below (meet_tree j k) k ≡ true) }
{}

/// A law: what is below two values, and isn't least, is below what they have in common, and they have something. With
/// `meet_is_below`, it is their greatest lower bound: all that both offer is in it.
pub fn meet_is_greatest()
    ensures { (x j k : Json) → below x j ≡ true → below x k ≡ true → is_least x ≡ false → (meets j k ≡ true) × (below x (meet_tree j k) ≡ true) }
{}

/// A law: where the values of two texts have something in common, the text that `meet` is of them says just that.
pub fn meet_says()
    ensures { (a b : List ℕ) (j k : Json) → tree_of a ≡ Some j → tree_of b ≡ Some k → meets j k ≡ true → (text : List ℕ) × (meet_of a b ≡ Some text)
        × SaysTree text (meet_tree j k) }
{}

/// A law: the text that `meet` answers for two values that have something in common, as two objects always have, is a JSON
/// text, and its value is their greatest lower bound: it is below both, and all that is below both is below it.
pub fn meet_text_is_greatest()
    ensures { (a b : List ℕ) (j k : Json) → tree_of a ≡ Some j → tree_of b ≡ Some k → meets j k ≡ true → (text : List ℕ) × (m : Json)
        × (meet_of a b ≡ Some text) × (tree_of text ≡ Some m) × IsGreatest j k m }
{}

/// A law: where the values of two texts have something in common, the text that `declared` is of them says just what the
/// three steps give: what they have in common, without what isn't declared, with what is required put back.
pub fn declared_says()
    ensures { (a b : List ℕ) (j k : Json) → tree_of a ≡ Some j → tree_of b ≡ Some k → meets j k ≡ true → (text : List ℕ)
        × (declared_of a b ≡ Some text) × SaysTree text (declared_tree j k) }
{}

/// A law: the text that `declared` answers for capabilities and a ceiling that have something in common, as two objects
/// always have, is a JSON text. Its value is below both, has neither `notebookDocument` nor `offsetEncoding`, and all that is
/// below both and offers neither of the two is below it. It has the members that the standard requires.
pub fn declared_text_is_greatest()
    ensures { (a b : List ℕ) (j k : Json) → tree_of a ≡ Some j → tree_of b ≡ Some k → meets j k ≡ true → (text : List ℕ) × (m : Json)
        × (declared_of a b ≡ Some text) × (tree_of text ≡ Some m) × IsGreatestDeclared j k m × HasRequired m }
{}
