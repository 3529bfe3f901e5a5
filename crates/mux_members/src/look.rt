//! The values of a text that may be there: what they are, their members and their items.
ghost use Rattle.std.specs.Prelude.{◌≡◌, ◌<◌, ℕ, List, ◌∷◌, length, bytes_eq, true, MatchOption, Option, Some, option_map};
ghost use Rattle.json_text.specs.declared.span.Span.{Span};
ghost use Rattle.json_text.specs.Json.{Json, span_of, string, value};
ghost use Rattle.json_nodes.specs.At.{Found};
ghost use Rattle.rpc_message.specs.Message.{is_integer_value, is_string_value};
ghost use Rattle.mux_model.specs.event_model.specs.Members.{bytes_if, listed, named_of};
ghost use Rattle.mux_members.specs.Finds.{Rest, is_array_value, is_ascii, is_object_value, values_of};

use json_nodes::json_token::spells_text;
use json_text::Kind;
use rpc_message::json_span::Tape;

/// The value of the last member of this name, where the value is there and an object.
pub fn member(tape: &Tape, node: Option<u32>, name: &str) -> Option<u32>
    ensures { is_ascii name.now ≡ true → (o : Option Json) → Found tape.now o node → Found tape.now (named_of name.now o) result }
{
    tape.maybe_member(node, name)
}

/// Whether a string has the characters of a name.
pub fn spells(tape: &Tape, node: Option<u32>, name: &str) -> bool
    ensures { is_ascii name.now ≡ true → (s : Span) (cs : List ℕ) → Found tape.now (Some (string s cs)) node → result ≡ bytes_eq name.now cs }
{
    match tape.within(node) {
        Some(node) => spells_text(tape.values().string(node), name),
        None => false,
    }
}

/// The bytes of a value, with its quotation marks or brackets.
pub fn bytes<'a>(tape: &'a Tape, node: Option<u32>) -> &'a [u8]
    ensures { (t : Json) → Found tape.now (Some t) node → value t (span_of t).from result.now }
{
    match tape.within(node) {
        Some(node) => tape.values().bytes(node),
        None => &[],
    }
}

/// The bytes of a member's value, where it is there.
pub fn member_bytes<'a>(tape: &'a Tape, node: Option<u32>, name: &str) -> Option<&'a [u8]>
    ensures { is_ascii name.now ≡ true → (o : Option Json) → Found tape.now o node
        → option_map (λ b. b.now) result ≡ bytes_if name.now o tape.now.bytes }
{
    let node = tape.within(member(tape, node, name))?;
    let span = tape.span(node);
    Some(&tape.bytes()[span.from..span.to])
}

/// Whether a value is there and an integer.
pub fn is_integer(tape: &Tape, node: Option<u32>) -> bool
    ensures { (o : Option Json) → Found tape.now o node → result ≡ is_integer_value o }
{
    let Some(node) = tape.within(node) else {
        return false
    };
    match tape.kind(node) {
        Kind::Number => rpc_message::is_integer(tape.values().bytes(node)),
        _ => false,
    }
}

/// Whether a value is there and a string.
pub fn is_text(tape: &Tape, node: Option<u32>) -> bool
    ensures { (o : Option Json) → Found tape.now o node → result ≡ is_string_value o }
{
    matches!(tape.maybe_kind(node), Some(Kind::Text))
}

/// Whether a value is there and an array.
pub fn is_array(tape: &Tape, node: Option<u32>) -> bool
    ensures { (o : Option Json) → Found tape.now o node → result ≡ is_array_value o }
{
    matches!(tape.maybe_kind(node), Some(Kind::Array))
}

/// Whether a value is there and an object.
pub fn is_object(tape: &Tape, node: Option<u32>) -> bool
    ensures { (o : Option Json) → Found tape.now o node → result ≡ is_object_value o }
{
    matches!(tape.maybe_kind(node), Some(Kind::Object))
}

/// The first item of an array, or the value of the first member of an object.
pub fn first_value(tape: &Tape, node: Option<u32>) -> Option<u32>
    ensures rest { (o : Option Json) → Found tape.now o node → Rest tape.now result (values_of o) }
    ensures inside { MatchOption result (Unit {0}) (λ n. n < length tape.now.nodes) }
{
    let node = tape.within(node)?;
    tape.first(node)
}

/// The first item of an array.
pub fn first_item(tape: &Tape, node: Option<u32>) -> Option<u32>
    ensures rest { (o : Option Json) → Found tape.now o node → Rest tape.now result (listed o) }
    ensures inside { MatchOption result (Unit {0}) (λ n. n < length tape.now.nodes) }
{
    if is_array(tape, node) {
        first_value(tape, node)
    } else {
        None
    }
}

/// The value that follows this one in its array or its object.
pub fn next_value(tape: &Tape, node: u32) -> Option<u32>
    ensures rest { (t : Json) (more : List Json) → Rest tape.now (Some node) (t ∷ more) → Rest tape.now result more }
    ensures inside { MatchOption result (Unit {0}) (λ next. (node < next) × (next < length tape.now.nodes)) }
{
    if (node as usize) < tape.nodes().len() {
        tape.next(node)
    } else {
        None
    }
}
