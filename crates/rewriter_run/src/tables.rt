// The tables that the program runs the rewriter on.
ghost use Rattle.std.specs.Prelude.{◌≡◌, ◌<◌, ◌≤◌, length};
ghost use Rattle.node.specs.Limits.{max_nodes};
ghost use Rattle.rewriter_run.specs.Chain.{second_of, ChainTo};

use node::Node;

// What a kind and a first field count in a node's word.
const KIND: u32 = 268435456;

const FIRST: u32 = 16384;

// Nodes against the format.
pub const KIND_15: [u32; 2] = [0, 15 * KIND];

pub const KIND_14: [u32; 2] = [14 * KIND, 0];

pub const NO_LOWER: [u32; 3] = [0, 3 * KIND, 3 * KIND + 2 * FIRST];

pub const TRUE_FIELD: [u32; 1] = [1];

pub const NEXT_FIELD: [u32; 2] = [0, 8 * KIND + 1];

// Document 01, 'One file in full'.
pub const DOCUMENT: [u32; 17] = [
    0,
    0,
    0,
    9 * KIND + 2 * FIRST,
    0,
    4 * KIND + 3 * FIRST + 4,
    0,
    9 * KIND + 6 * FIRST,
    2 * KIND,
    2 * KIND + 1 * FIRST,
    10 * KIND + 9 * FIRST,
    6 * KIND + 8 * FIRST + 10,
    9 * KIND + 11 * FIRST,
    4 * KIND + 7 * FIRST + 12,
    6 * KIND + 5 * FIRST + 13,
    4 * KIND + 1 * FIRST + 14,
    6 * KIND + 15,
];

// The second operand of a node of a chain: the node before, or node 0.
fn second(shared: bool, before: u32) -> u32
    ensures { result ≡ second_of shared before }
{
    if shared { before } else { 0 }
}

// Signal 0, then nodes of a kind, each over the node before; a second operand is the signal, or the node before once more, which makes a tree of
// 2 to the number of levels. It asks for fields that a node holds.
pub fn chain(nodes: &mut [u32], kind: u32, shared: bool)
    requires { (kind < 16) × ((0 < length nodes.old) × (length nodes.old ≤ max_nodes)) }
    ensures { ChainTo kind shared nodes.new (length nodes.old) }
{
    nodes[0] = 2 * KIND;
    for i in 1..nodes.len() {
        let before = (i - 1) as u32;
        let node = Node::binary(kind, before, second(shared, before));
        nodes[i] = node.word;
    }
}
