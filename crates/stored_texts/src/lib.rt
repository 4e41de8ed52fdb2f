// Programs over stored texts: what the reader and the converter answer on every text of the files that the arguments name.
#![tactic(auto)]

mod calls;
mod pieces;
mod print;
mod report;
mod sums;

use crate::pieces::piece_at;
use std::io::{self, BufWriter, Write};
use std::rt::{Env, Files};
use std::{env, fs};

// What a program prints of a text: one line, or the answers to every room with the nodes and the signals of a small text.
#[derive(Clone, Copy)]
pub enum Detail {
    Line,
    Whole,
}

fn say_text(to: &mut impl Write, detail: Detail, name: &[u8], text: &[u8]) -> io::Result<()> {
    match detail {
        Detail::Line => report::line(to, name, text),
        Detail::Whole => report::whole(to, name, text),
    }
}

fn all_texts(to: &mut impl Write, detail: Detail, file: &[u8]) -> io::Result<()> {
    let mut at = 0;
    // A text of any size at a time.
    while at < file.len() {
        let piece = piece_at(file, at);
        let name = piece.name;
        let start = piece.start;
        let end = piece.end;
        say_text(to, detail, &file[at..name], &file[start..end])?;
        at = piece.next;
    }
    Ok(())
}

// A file that cannot be opened is told on standard error.
fn run_file(
    rt: &(impl Files + Eprint),
    to: &mut impl Write,
    detail: Detail,
    name: &str,
) -> io::Result<()> {
    let mut descriptor = match fs::open(rt, name) {
        Ok(descriptor) => descriptor,
        Err(error) => return eprintln!(rt; "{name}: {error}"),
    };
    let mut file = input::large_buffer();
    let size = input::fill(&mut descriptor, &mut file)?;
    all_texts(to, detail, &file[..size])
}

// Prints the answers on every text of the files that the arguments name; a file has less than 65,536 bytes.
pub fn run<R: Env + Files + Print + Eprint + Alloc>(rt: &R, detail: Detail) -> io::Result<()> {
    let mut to = BufWriter::new(rt.alloc(), io::writer(rt))?;
    for name in env::args(rt)?.skip(1) {
        run_file(rt, &mut to, detail, name.as_str())?;
    }
    to.flush()
}
