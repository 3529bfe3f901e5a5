// The law of the reading function `tree_of`.
ghost use Rattle.std.specs.Prelude.{◌≡◌, ◌↔◌, ℕ, ◌≤◌, List, Some};
ghost use Rattle.json_text.specs.Json.{Json, IsText, depth};
ghost use Rattle.json_text.specs.Tree.{tree_of};

/// A law: the function `tree_of` of `specs/Tree.antt` gives the tree of a JSON text (RFC 8259) that nests at most
/// 1,024 deep, and gives none for other bytes.
pub fn tree_of_law()
    ensures { (bytes : List ℕ) (j : Json) → (tree_of bytes ≡ Some j) ↔ (IsText bytes j × (depth j ≤ 1024)) }
{}
