//! How many nodes a value has.

ghost use Rattle.std.specs.Prelude.{◌≡◌, ◌+◌, List, ◌∷◌, map, if◌then◌else◌};
ghost use Rattle.json.specs.Tape.{node_token};
ghost use Rattle.json.specs.Token.{Token};
ghost use Rattle.dv_document.specs.Nodes.{beginnings, nodes};
ghost use Rattle.dv_document.specs.View.{view};

use crate::places::Json;
use crate::value::after;
use json::Node;

impl Json<'_> {
    /// How many nodes the value has, itself among them. A key is none.
    pub fn count_nodes(self) -> usize
        ensures { result ≡ nodes (view self.entry) }
    {
        let nodes = self.tape.nodes();
        if self.at >= nodes.len() {
            unreachable!();
        }
        let end = after(self.tape, self.at);
        count_values(&nodes[self.at..end])
    }
}

/// How many values begin among these nodes.
fn count_values(nodes: &[Node<'_>]) -> usize
    ensures { result ≡ beginnings (map node_token nodes.now) }
{
    let mut count = 0;
    for node in nodes {
        if begins_value(node) {
            count += 1;
        }
    }
    count
}

#[inline(always)]
fn begins_value(node: &Node<'_>) -> bool
    ensures { (ts : List Token) → beginnings (node_token node.now ∷ ts)
        ≡ (if result then 1 else 0) + beginnings ts }
{
    match *node {
        Node::Object(_)
        | Node::Array(_)
        | Node::String(_)
        | Node::Number(_)
        | Node::Bool(_)
        | Node::Null => true,
        Node::EndObject | Node::EndArray | Node::Key(_) => false,
    }
}
