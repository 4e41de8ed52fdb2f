// Runs the writer on the texts that its arguments name, and the reader on what it wrote: names of 64 and 65 bytes, written texts of 32,768 bytes, 8,192 tokens and 256
// levels and one beyond, every sign, both models, a table of 8,191 levels. A written text is told by its bytes and a sum of them.
#![tactic(auto)]

use node::{MAX_NODES, MAX_SIGNALS};
use std::io::{self, BufWriter, Write};
use std::rt::Files;
use std::{env, fs};

const ROOM: usize = 600000;

// A function of its own, so that the callers' proofs do not write the array out.
fn room() -> [u8; ROOM] {
    [0; ROOM]
}

// What a sum is taken modulo.
const MODULUS: u64 = 4294967291;

// Each byte in its place changes the sum.
fn sum_of(text: &[u8]) -> u64 {
    let mut sum: u64 = 0;
    for byte in text {
        sum = (sum * 257 + u64::from(*byte)) % MODULUS;
    }
    sum
}

// What the reader makes of a written text.
fn read_back(to: &mut impl Write, text: &[u8]) -> io::Result<()> {
    let mut work = input::large_buffer();
    let mut nodes: [u32; MAX_NODES] = [0; MAX_NODES];
    let mut signals = [0u32; MAX_SIGNALS];
    let answer = reader::read(text, &mut work, &mut nodes, &mut signals);
    listing::answer(to, answer)
}

fn tell(to: &mut impl Write, out: &[u8], n: usize) -> io::Result<()> {
    let end = input::within(n, out);
    let text = &out[..end];
    let sum = sum_of(text);
    write!(to, ": bytes {n}, sum {sum}, read back: ")?;
    read_back(to, text)
}

fn write(to: &mut impl Write, text: &[u8]) -> io::Result<()> {
    let mut work = input::large_buffer();
    let mut out = room();
    match writer::write_basic(text, &mut work, &mut out) {
        Ok(bytes) => tell(to, &out, bytes as usize),
        Err(refusal) => {
            to.write_all(b": ")?;
            listing::answer(to, Err(refusal))
        }
    }
}

// A file that cannot be opened is told on standard error.
fn run(rt: &(impl Files + Eprint), to: &mut impl Write, name: &str) -> io::Result<()> {
    let mut file = match fs::open(rt, name) {
        Ok(file) => file,
        Err(error) => return eprintln!(rt; "{name}: {error}"),
    };
    let mut text = input::large_buffer();
    let size = input::fill(&mut file, &mut text)?;
    to.write_all(name.as_bytes())?;
    write(to, &text[..size])
}

fn main(rt: HostRuntime) -> io::Result<()> {
    let mut to = BufWriter::new(rt.alloc(), io::writer(&rt))?;
    for name in env::args(&rt)?.skip(1) {
        run(&rt, &mut to, name.as_str())?;
    }
    to.flush()
}
