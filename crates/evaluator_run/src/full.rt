// A full table: 8,192 nodes of all kinds over 2,048 positions.
ghost use Rattle.std.specs.Prelude.{◌≡◌, length};

use crate::print;
use node::Node;
use std::io::{self, Write};

// Two signals, then every operator in turn, over a signal and a node five sevenths of the way.
fn node_at(i: usize) -> u32 {
    let n = (i % 8192) as u32;
    if n < 2 {
        return Node::unary(Node::SIGNAL, n).word;
    }
    let kind = n % 11 + Node::NOT;
    let lower = n * 5 / 7;
    if kind == Node::NOT {
        return Node::unary(kind, lower).word;
    }
    if kind < Node::NEXT {
        return Node::binary(kind, n % 2, lower).word;
    }
    if kind < Node::UNTIL {
        return Node::unary(kind, lower).word;
    }
    Node::binary(kind, n % 2, lower).word
}

fn fill_nodes(nodes: &mut [u32]) {
    for i in 0..nodes.len() {
        nodes[i] = node_at(i);
    }
}

// The header for N = 2,048, L = 1,000, K = 2, and letters that vary.
fn letter_byte(i: usize) -> u8 {
    match i {
        0 => 0x80,
        1 => 0x03,
        2 => 0xE8,
        3 => 0x02,
        _ => (i % 241 * 167 % 256) as u8,
    }
}

fn fill_recording(recording: &mut [u8]) {
    for i in 0..recording.len() {
        recording[i] = letter_byte(i);
    }
}

// The answer, and the checksum of the rows.
fn evaluate(
    to: &mut impl Write,
    nodes: &[u32],
    recording: &[u8],
    rows: &mut [u8],
) -> io::Result<()> {
    print::text(to, b"8,192 nodes over 2,048 positions")?;
    listing::answer(to, evaluator::evaluate(nodes, 2, recording, rows))?;
    print::checksum(to, rows)
}

// A row of 256 bytes for each node. A function of its own, so that the callers' proofs do not write the array out.
fn room() -> [u8; 2097152]
    ensures { 2097152 ≡ length result }
{
    [255; 2097152]
}

// Writes the answer on the full table, and the checksum of its rows.
pub fn run(to: &mut impl Write) -> io::Result<()> {
    let mut nodes = [0u32; 8192];
    fill_nodes(&mut nodes);
    let mut recording = [0u8; 516];
    fill_recording(&mut recording);
    let mut rows = room();
    evaluate(to, &nodes, &recording, &mut rows)
}
