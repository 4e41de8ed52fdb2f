// Reads a text on standard input and prints the basic text of its nodes (document 02, F-1), or `refused`, number, place.
#![tactic(auto)]

use std::io::{self, BufWriter, Write};

// More bytes than any text of 8,192 nodes and 255 signals has: 69 for a node, 67 for a signal, 135.
const ROOM: usize = 600000;

// A function of its own, so that the callers' proofs do not write the array out.
fn room() -> [u8; ROOM] {
    [0; ROOM]
}

// The first n bytes.
fn print(to: &mut impl Write, out: &[u8], n: usize) -> io::Result<()> {
    let end = input::within(n, out);
    to.write_all(&out[..end])
}

fn write(to: &mut impl Write, text: &[u8]) -> io::Result<()> {
    let mut work = input::large_buffer();
    let mut out = room();
    match writer::write_basic(text, &mut work, &mut out) {
        Ok(bytes) => print(to, &out, bytes as usize),
        Err(refusal) => listing::answer(to, Err(refusal)),
    }
}

// An input that cannot be read is told on standard error, and nothing is printed: it is no empty text.
fn run(rt: &(impl Input + Eprint), to: &mut impl Write, text: &mut [u8]) -> io::Result<()> {
    match input::fill(&mut rt.reader(), text) {
        Ok(n) => write(to, &text[..n]),
        Err(error) => eprintln!(rt; "basic_text: the text cannot be read: {error}"),
    }
}

// A text of more than 32,768 bytes is refused by 1 wherever it ends, so that the first 65,536 tell enough.
fn main(rt: HostRuntime) -> io::Result<()> {
    let mut to = BufWriter::new(rt.alloc(), io::writer(&rt))?;
    let mut text = input::large_buffer();
    run(&rt, &mut to, &mut text)?;
    to.flush()
}
