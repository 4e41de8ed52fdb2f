// A node table's text: measured node by node, then written by way of a stack of the nodes that are under way. The time is that of the bytes written, the machine
// stack does not grow with the table's depth.
ghost use Rattle.std.specs.Prelude.{◌≡◌, ◌+◌, ◌<◌, ◌≤◌, min, length};
ghost use Rattle.node.specs.Table.{root};
ghost use Rattle.node.specs.Fields.{first_of, second_of};
ghost use Rattle.basics.specs.Told.{max_told};
ghost use Rattle.signal_names.specs.Promise.{slot, Puts};
ghost use Rattle.layout.specs.Layout.{layout, weight, nth};
ghost use Rattle.layout.specs.Table.{table};
ghost use Rattle.layout.specs.Stack.{todo, Stacked, Scene, Turns, operand_at};

use crate::pieces::{follows, node_size, put_piece};
use node::{MAX_NODES, Node};

// The size of the text of a table's root, at most the largest 32-bit number.
pub fn measure(nodes: &[u32], names: &[u8], sizes: &[usize], pieces: &[u8]) -> u32
    requires { (pieces.now ≡ table) × Scene nodes.now names.now sizes.now }
    ensures { result ≡ min max_told (weight (nth sizes.now) (root nodes.now)) }
{
    let mut lens = [0u32; MAX_NODES];
    for (i, word) in nodes.iter().enumerate() {
        let size = node_size(*word, sizes, &lens, pieces);
        lens[i] = size;
    }
    lens[nodes.len() - 1]
}

// One more than the number of a node can be: a stack's entry is the node's number, and so many times this as operands are written.
const OPERAND: u32 = MAX_NODES as u32;

// How many entries are on the stack, and the place after what is written.
#[derive(Clone, Copy)]
pub struct Turn {
    pub height: usize,
    pub at: usize,
}

// The operand to be written next.
fn operand(word: u32, done: usize) -> u32
    ensures { result ≡ operand_at done (first_of word) (second_of word) }
{
    let node = Node { word };
    if done == 0 {
        return node.first();
    }
    node.second()
}

// The next piece of the node on top of the stack; then its next operand is on top, or it is done.
fn step(
    nodes: &[u32],
    names: &[u8],
    sizes: &[usize],
    pieces: &[u8],
    stack: &mut [u32],
    height: usize,
    out: &mut [u8],
    at: usize,
) -> Turn
    requires pieces_value { (pieces.now ≡ table) × (Scene nodes.now names.now sizes.now × (Stacked nodes.now stack.old height × (0 < height))) }
    requires height_in_bounds { at + length (todo (slot names.now sizes.now) nodes.now stack.old height) ≤ length out.old }
    ensures { Turns (slot names.now sizes.now) nodes.now stack.old stack.new out.old out.new height at result }
{
    let top = height - 1;
    let entry = stack[top];
    let done = (entry / OPERAND) as usize;
    let i = (entry % OPERAND) as usize;
    let node = Node { word: nodes[i] };
    let kind = node.kind() as usize;
    let first = node.first() as usize;
    let next = put_piece(names, sizes, pieces, kind, first, done, out, at);
    if !follows(pieces, kind, done) {
        return Turn {
            height: top,
            at: next,
        };
    }
    stack[top] = entry + OPERAND;
    stack[height] = operand(node.word, done);
    Turn {
        height: height + 1,
        at: next,
    }
}

// Writes the text of a table's root.
pub fn put_formula(
    nodes: &[u32],
    names: &[u8],
    sizes: &[usize],
    pieces: &[u8],
    out: &mut [u8],
    start: usize,
) -> usize
    requires pieces_value { (pieces.now ≡ table) × Scene nodes.now names.now sizes.now }
    requires nodes_in_bounds { start + length (layout (slot names.now sizes.now) (root nodes.now)) ≤ length out.old }
    ensures { Puts (layout (slot names.now sizes.now) (root nodes.now)) out.old out.new start result }
{
    let mut stack = [0u32; MAX_NODES];
    stack[0] = (nodes.len() - 1) as u32;
    let mut height = 1;
    let mut at = start;
    // A piece from the stack at a time: it ends where the stack is empty.
    while 0 < height {
        let turned = step(nodes, names, sizes, pieces, &mut stack, height, out, at);
        height = turned.height;
        at = turned.at;
    }
    at
}
