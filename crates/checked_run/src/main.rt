// Runs the stages up to the checked tree on the texts that its arguments name: each row of refusals 1 to 10 and their order, each limit at and one beyond, and the
// deepest texts. No stage calls itself: whatever the text, some 580 KB of stack are enough.
#![tactic(auto)]

use checked::Checked;
use language::limits;
use node::Refusal;
use std::io::{self, BufWriter, Write};
use std::rt::Files;
use std::{env, fs};

// The counts of tokens, entries and declared names, or the refusal.
fn say(to: &mut impl Write, answer: Result<Checked, Refusal>) -> io::Result<()> {
    match answer {
        Ok(Checked { counts, .. }) => {
            let tokens = counts.tokens;
            let entries = counts.entries;
            let names = counts.names;
            writeln!(to, ": tokens {tokens}, entries {entries}, names {names}")
        }
        Err(Refusal { number, place }) => writeln!(to, ": refused {number} {place}"),
    }
}

// A file that cannot be opened is told on standard error.
fn run(rt: &(impl Files + Eprint), to: &mut impl Write, name: &str) -> io::Result<()> {
    let mut file = match fs::open(rt, name) {
        Ok(file) => file,
        Err(error) => return eprintln!(rt; "{name}: {error}"),
    };
    let mut text = input::large_buffer();
    let size = input::fill(&mut file, &mut text)?;
    let mut work = input::large_buffer();
    let mut refs = [0u16; limits::MAX_TOKENS];
    let mut found = [0u16; limits::MAX_NAMES];
    to.write_all(name.as_bytes())?;
    say(
        to,
        checked::check(&text[..size], &mut work, &mut refs, &mut found),
    )
}

fn main(rt: HostRuntime) -> io::Result<()> {
    let mut to = BufWriter::new(rt.alloc(), io::writer(&rt))?;
    for name in env::args(&rt)?.skip(1) {
        run(&rt, &mut to, name.as_str())?;
    }
    to.flush()
}
