//! The nodes that the reader makes.
ghost use Rattle.std.specs.Prelude.{◌≡◌, ◌+◌, ◌^◌, ◌<◌, ◌≤◌, length};
ghost use Rattle.json_span.specs.Machine.{close_node, kind_of_open};
ghost use Rattle.json_nodes.specs.Nodes.{kind_of_word};

use json_nodes::{Node, Place};
use json_text::{Kind, Word};

/// No name.
pub const UNNAMED: Place = Place { from: 0, to: 0 };

/// The kind of a literal name's value.
pub fn kind_of_word(word: Word) -> Kind
    ensures { result ≡ kind_of_word word }
{
    match word {
        Word::Null => Kind::Null,
        Word::False => Kind::False,
        Word::True => Kind::True,
    }
}

/// The kind of what an opening brace, or else a bracket, begins.
pub fn kind_of_open(object: bool) -> Kind
    ensures { result ≡ kind_of_open object }
{
    if object { Kind::Object } else { Kind::Array }
}

/// The value of the node `number` ends before `to`, and all nodes from it on are in it.
pub fn close_node(number: usize, to: usize, nodes: &mut Vec<Node>)
    requires small { to < 2 ^ 32 }
    requires few { length nodes.old.items < 2 ^ 32 }
    ensures closed { nodes.new.items ≡ close_node number to nodes.old.items }
    ensures as_many { length nodes.new.items ≡ length nodes.old.items }
{
    let after = nodes.len() as u32;
    if let Some(node) = nodes.get_mut(number) {
        node.to = to as u32;
        node.after = after;
    }
}
