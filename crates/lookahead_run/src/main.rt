// Runs `reach_of` at its limits and one beyond, and on each refusal of a table.
#![tactic(auto)]

ghost use Rattle.std.specs.Prelude.{◌≤◌, ◌<◌};

use node::{MAX_NODES, Node};
use std::io::{self, BufWriter, Write};

// What a kind and a first field count in a node's word.
const KIND: u32 = 268435456;

const FIRST: u32 = 16384;

const TRUE: u32 = 0;

const SIGNAL: u32 = 2 * KIND;

const LAST_SIGNAL: u32 = 2 * KIND + 16383 * FIRST;

// Nodes against the format: a kind that is none, an operand that is no lower, the same below no root.
const KIND_14: [u32; 2] = [SIGNAL, 14 * KIND];

const NO_LOWER: [u32; 2] = [SIGNAL, 8 * KIND + 1 * FIRST];

const UNREACHED: [u32; 3] = [SIGNAL, 3 * KIND + 5 * FIRST, SIGNAL];

// G a below no root.
const PASSED_OVER: [u32; 3] = [SIGNAL, 9 * KIND, 8 * KIND];

// A table's answer in document 02's values: a bounded reach n is (n, 0), unbounded (0, 1).
fn show(to: &mut impl Write, name: &[u8], nodes: &[u32]) -> io::Result<()> {
    to.write_all(name)?;
    to.write_all(b": ")?;
    listing::answer(to, lookahead::answer(lookahead::reach_of(nodes)))
}

fn second(shared: bool, before: u32) -> u32
    ensures { result ≤ before }
{
    if shared { before } else { 0 }
}

// The largest table: a leaf, nodes of a kind, each over the node before (and, shared, over it once more), and a root of its own kind over them. It asks for
// kinds that a node holds.
fn chain(
    to: &mut impl Write,
    name: &[u8],
    leaf: u32,
    kind: u32,
    shared: bool,
    root: u32,
) -> io::Result<()>
    requires { (kind < 16) × (root < 16) }
{
    let mut nodes = [0u32; MAX_NODES];
    nodes[0] = leaf;
    for i in 1..8191 {
        let before = (i - 1) as u32;
        let node = Node::binary(kind, before, second(shared, before));
        nodes[i] = node.word;
    }
    let node = Node::unary(root, 8190);
    nodes[8191] = node.word;
    show(to, name, &nodes)
}

fn limits(to: &mut impl Write) -> io::Result<()> {
    show(to, b"no nodes", &[])?;
    let most = [TRUE; MAX_NODES];
    show(to, b"8,192 nodes", &most)?;
    let beyond = [TRUE; 8193];
    show(to, b"8,193 nodes", &beyond)?;
    show(to, b"the last signal number", &[LAST_SIGNAL])?;
    show(to, b"kind 14", &KIND_14)?;
    show(to, b"an operand that is no lower", &NO_LOWER)?;
    show(to, b"a bad node that the root does not reach", &UNREACHED)?;
    show(to, b"a G that the root does not reach", &PASSED_OVER)
}

fn main(rt: HostRuntime) -> io::Result<()> {
    let mut to = BufWriter::new(rt.alloc(), io::writer(&rt))?;
    limits(&mut to)?;
    chain(
        &mut to,
        b"8,191 X over a signal",
        SIGNAL,
        Node::NEXT,
        false,
        Node::NEXT,
    )?;
    chain(
        &mut to,
        b"! over 8,190 X over a signal",
        SIGNAL,
        Node::NEXT,
        false,
        Node::NOT,
    )?;
    chain(
        &mut to,
        b"X over 8,190 X over true",
        TRUE,
        Node::NEXT,
        false,
        Node::NEXT,
    )?;
    chain(
        &mut to,
        b"G over 8,190 X over a signal",
        SIGNAL,
        Node::NEXT,
        false,
        Node::GLOBALLY,
    )?;
    chain(
        &mut to,
        b"G over 8,190 X over true",
        TRUE,
        Node::NEXT,
        false,
        Node::GLOBALLY,
    )?;
    chain(
        &mut to,
        b"X over 8,190 G over a signal",
        SIGNAL,
        Node::GLOBALLY,
        false,
        Node::NEXT,
    )?;
    chain(
        &mut to,
        b"X over 8,190 <-> of a node with itself",
        SIGNAL,
        Node::IFF,
        true,
        Node::NEXT,
    )?;
    to.flush()
}
