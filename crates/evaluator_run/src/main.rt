// Runs the evaluator on document 01's marked recordings, on each refusal and their order, and on a full table over a full recording.
#![tactic(auto)]

use node::Node;
use std::io::{self, BufWriter, Write};

mod full;
mod print;

// The nodes of document 01, 'One file in full'.
fn file() -> [u32; 17] {
    let t = Node::leaf(Node::TRUE).word;
    [
        t,
        t,
        t,
        Node::unary(Node::GLOBALLY, 2).word,
        t,
        Node::binary(Node::AND, 3, 4).word,
        t,
        Node::unary(Node::GLOBALLY, 6).word,
        Node::unary(Node::SIGNAL, 0).word,
        Node::unary(Node::SIGNAL, 1).word,
        Node::unary(Node::FINALLY, 9).word,
        Node::binary(Node::IMPLIES, 8, 10).word,
        Node::unary(Node::GLOBALLY, 11).word,
        Node::binary(Node::AND, 7, 12).word,
        Node::binary(Node::IMPLIES, 5, 13).word,
        Node::binary(Node::AND, 1, 14).word,
        Node::binary(Node::IMPLIES, 0, 15).word,
    ]
}

// The answer, the verdict and the bytes of the buffer after them.
fn run(
    to: &mut impl Write,
    name: &[u8],
    nodes: &[u32],
    signals: u32,
    recording: &[u8],
    rows: &mut [u8],
) -> io::Result<()> {
    print::text(to, name)?;
    listing::answer(to, evaluator::evaluate(nodes, signals, recording, rows))?;
    print::verdict(to, evaluator::judge(nodes, signals, recording, rows))?;
    print::bytes(to, rows)
}

// The same with no byte lent, and with two.
fn without(
    to: &mut impl Write,
    name: &[u8],
    nodes: &[u32],
    signals: u32,
    recording: &[u8],
) -> io::Result<()> {
    let mut rows = [170u8; 1];
    run(to, name, nodes, signals, recording, &mut rows[..0])
}

fn with_two(
    to: &mut impl Write,
    name: &[u8],
    nodes: &[u32],
    signals: u32,
    recording: &[u8],
) -> io::Result<()> {
    let mut rows = [170u8; 2];
    run(to, name, nodes, signals, recording, &mut rows)
}

fn with_file(to: &mut impl Write, name: &[u8], recording: &[u8]) -> io::Result<()> {
    let nodes = file();
    let mut rows = [255u8; 18];
    run(to, name, &nodes, 2, recording, &mut rows)
}

fn starred(to: &mut impl Write) -> io::Result<()> {
    with_file(to, b"00 30 01 02 90", &[0x00, 0x30, 0x01, 0x02, 0x90])?;
    with_file(to, b"00 30 01 02 80", &[0x00, 0x30, 0x01, 0x02, 0x80])
}

// 15, then 19, each before 20 and 18.
fn tables(to: &mut impl Write) -> io::Result<()> {
    let bad = [0u8; 3];
    let zeros = [0u32; 8193];
    without(to, b"15: 256 signals, no nodes", &zeros[..0], 256, &bad)?;
    without(to, b"19: no nodes", &zeros[..0], 255, &bad)?;
    without(to, b"19: 8,193 nodes", &zeros, 255, &bad)
}

fn nodes(to: &mut impl Write) -> io::Result<()> {
    let bad = [0u8; 3];
    with_two(to, b"19: kind 15", &[0, 0xF0000000], 255, &bad)?;
    with_two(to, b"19: kind 14", &[0, 0xE0000000], 255, &bad)?;
    with_two(
        to,
        b"19: signal 2 of 2",
        &[Node::unary(Node::SIGNAL, 2).word],
        2,
        &bad,
    )?;
    with_two(
        to,
        b"19: operand not lower",
        &[0, Node::unary(Node::NOT, 1).word],
        2,
        &bad,
    )?;
    with_two(
        to,
        b"19: second field of !",
        &[0, Node::binary(Node::NOT, 0, 1).word],
        2,
        &bad,
    )
}

// 20 with its places, each before 18: the length if under 4 bytes, then 0 for the header,
fn headers(to: &mut impl Write) -> io::Result<()> {
    let node = [Node::unary(Node::SIGNAL, 0).word];
    let zeros = [0u8; 3];
    without(to, b"20: no bytes", &node, 2, &zeros[..0])?;
    without(to, b"20: 3 bytes", &node, 2, &zeros)?;
    without(to, b"20: N = 0", &node, 2, &[0x00, 0x00, 0x00, 0x02, 0xFF])?;
    without(to, b"20: N = 2,049", &node, 2, &[0x80, 0x10, 0x00, 0x00])?;
    without(to, b"20: L = N", &node, 2, &[0x00, 0x30, 0x03, 0x02, 0x90])?;
    without(
        to,
        b"20: K = 3 of 2",
        &node,
        2,
        &[0x00, 0x30, 0x01, 0x03, 0x90],
    )
}

// then the length if wrong, and the last byte for spare bits;
fn letters(to: &mut impl Write) -> io::Result<()> {
    let node = [Node::unary(Node::SIGNAL, 0).word];
    without(to, b"20: too short", &node, 2, &[0x00, 0x30, 0x01, 0x02])?;
    without(
        to,
        b"20: too long",
        &node,
        2,
        &[0x00, 0x30, 0x01, 0x02, 0x91, 0x00],
    )?;
    with_two(
        to,
        b"20: spare bit",
        &node,
        2,
        &[0x00, 0x30, 0x01, 0x02, 0x91],
    )
}

// then 23 for signals that were not recorded, before 18 and where nothing of 20 stands;
fn missing(to: &mut impl Write) -> io::Result<()> {
    let node = [Node::unary(Node::SIGNAL, 0).word];
    with_two(
        to,
        b"23: K = 2 of 3",
        &node,
        3,
        &[0x00, 0x30, 0x01, 0x02, 0x90],
    )?;
    without(
        to,
        b"23: K = 2 of 3, no room",
        &node,
        3,
        &[0x00, 0x30, 0x01, 0x02, 0x90],
    )?;
    with_two(
        to,
        b"20: K = 2 of 3, too long",
        &node,
        3,
        &[0x00, 0x30, 0x01, 0x02, 0x90, 0x00],
    )?;
    with_two(
        to,
        b"20: K = 2 of 3, spare bit",
        &node,
        3,
        &[0x00, 0x30, 0x01, 0x02, 0x91],
    )?;
    with_two(
        to,
        b"20: K = 4 of 3",
        &node,
        3,
        &[0x00, 0x30, 0x01, 0x04, 0x90, 0x00],
    )?;
    with_two(to, b"23: K = 0 of 1", &node, 1, &[0x00, 0x90, 0x01, 0x00])?;
    let mut wide = [0u8; 36];
    wide[1] = 0x10;
    wide[3] = 0xFE;
    with_two(to, b"23: K = 254 of 255", &node, 255, &wide)
}

// then 18, and recordings that fit.
fn rooms(to: &mut impl Write) -> io::Result<()> {
    let node = [Node::unary(Node::SIGNAL, 0).word];
    without(
        to,
        b"18: no room",
        &node,
        2,
        &[0x00, 0x30, 0x01, 0x02, 0x90],
    )?;
    with_two(
        to,
        b"18: 2 bytes of 3",
        &node,
        1,
        &[0x01, 0x10, 0x01, 0x01, 0x00, 0x00, 0x00],
    )?;
    with_two(
        to,
        b"K = 0 of 0",
        &[Node::leaf(Node::TRUE).word],
        0,
        &[0x00, 0x90, 0x01, 0x00],
    )?;
    with_two(
        to,
        b"K = 1",
        &node,
        1,
        &[0x00, 0x90, 0x01, 0x01, 0x80, 0x80],
    )
}

fn main(rt: HostRuntime) -> io::Result<()> {
    let mut to = BufWriter::new(rt.alloc(), io::writer(&rt))?;
    starred(&mut to)?;
    tables(&mut to)?;
    nodes(&mut to)?;
    headers(&mut to)?;
    letters(&mut to)?;
    missing(&mut to)?;
    rooms(&mut to)?;
    full::run(&mut to)?;
    to.flush()
}
