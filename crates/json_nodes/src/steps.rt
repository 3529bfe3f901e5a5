ghost use Rattle.std.specs.Prelude.{◌≡◌, ◌<◌, length};
ghost use Rattle.json_nodes.specs.Steps.{first_number, next_number};

use crate::node::Node;

// The first value in a value.
pub fn first_number(nodes: &[Node], node: u32) -> Option<u32>
    requires { node < length nodes.now }
    ensures { result ≡ first_number nodes.now node }
{
    let here = nodes[node as usize];
    let next = node as usize + 1;
    if next < here.after as usize && next < nodes.len() {
        Some(next as u32)
    } else {
        None
    }
}

// The value that follows a value in the same array or object.
pub fn next_number(nodes: &[Node], node: u32) -> Option<u32>
    requires { node < length nodes.now }
    ensures { result ≡ next_number nodes.now node }
{
    let here = nodes[node as usize];
    let next = nodes.get(here.after as usize)?;
    if next.level == here.level && node < here.after {
        Some(here.after)
    } else {
        None
    }
}
