// The program of document 01, 'One file in full': reads a text on standard input and prints the listing of form 0, or of the form that its one argument names.
#![tactic(auto)]

use forms::{AS_EXPANDED, CORE_FORM};
use node::{MAX_NODES, MAX_SIGNALS};
use std::env::FillError;
use std::io::{self, BufWriter, Write};
use std::rt::Env;

// A form that is none (21).
const NO_FORM: u32 = CORE_FORM + 1;

// The number of a digit; any other byte names no form.
fn form_of(byte: u8) -> u32 {
    match byte {
        b'0' => AS_EXPANDED,
        b'1' => forms::NEGATION_FORM,
        b'2' => CORE_FORM,
        _ => NO_FORM,
    }
}

// Is there no argument of this number?
fn is_absent(rt: &impl Env, i: usize) -> bool {
    matches!(rt.arg(i, &mut []), Err(FillError::NotPresent))
}

// The form asked for: without an argument form 0.
fn form_asked(rt: &impl Env) -> u32 {
    if is_absent(rt, 1) {
        return AS_EXPANDED;
    }
    let mut word = [0u8; 1];
    match rt.arg(1, &mut word) {
        Ok(1) if is_absent(rt, 2) => form_of(word[0]),
        _ => NO_FORM,
    }
}

// Converts the text and prints the listing.
fn convert(to: &mut impl Write, text: &[u8], form: u32) -> io::Result<()> {
    let mut work = input::large_buffer();
    let mut nodes: [u32; MAX_NODES] = [0; MAX_NODES];
    let mut signals = [0u32; MAX_SIGNALS];
    let answer = converter::convert(text, form, &mut work, &mut nodes, &mut signals);
    listing::answer(to, answer)?;
    match answer {
        Ok((n, _)) => listing::nodes(to, &nodes, n as usize),
        Err(_) => Ok(()),
    }
}

// Reads the text and converts it. An input that cannot be read is told on standard error, and nothing is printed: it is no empty text.
fn run(
    rt: &(impl Input + Eprint),
    to: &mut impl Write,
    text: &mut [u8],
    form: u32,
) -> io::Result<()> {
    match input::fill(&mut rt.reader(), text) {
        Ok(n) => convert(to, &text[..n], form),
        Err(error) => eprintln!(rt; "tlsf: the text cannot be read: {error}"),
    }
}

// A text of more than 32,768 bytes is refused by 1 wherever it ends, so that the first 65,536 tell enough.
fn main(rt: HostRuntime) -> io::Result<()> {
    let mut to = BufWriter::new(rt.alloc(), io::writer(&rt))?;
    let form = form_asked(&rt);
    let mut text = input::large_buffer();
    run(&rt, &mut to, &mut text, form)?;
    to.flush()
}
