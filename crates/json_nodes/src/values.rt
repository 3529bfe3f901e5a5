use crate::node::Node;

/// The values of a JSON text: its bytes, and its values in preorder, each as a node. A value is named by the number of its node,
/// from 0 on, which is the text's own value.
#[derive(Clone, Copy)]
pub struct Values<'a> {
    pub bytes: &'a [u8],
    pub nodes: &'a [Node],
}
