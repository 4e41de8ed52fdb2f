// The verdict of a recording on a text: reads the text on standard input and the recording from the file that its argument names; prints `holds`, or `fails` and on a
// second line the section and the number of the line that failed, or `refused`, number, place. What cannot be read is told on standard error, and then nothing is printed.
#![tactic(auto)]

ghost use Rattle.std.specs.Prelude.{◌≤◌, length, IfOk};

use diagnosis::{Diagnosis, diagnose};
use evaluator::Verdict;
use judging::ROWS;
use recordings::LONGEST;
use std::io::{self, BufWriter, Read, Write};
use std::rt::Files;
use std::{env, fs};

// What is read of a recording: one byte more than the longest has, so that a longer one shows.
const START: usize = LONGEST + 1;

// Functions of their own, so that the callers' proofs do not write the arrays out.
fn start_buffer() -> [u8; START] {
    [0; START]
}

fn rows_buffer() -> [u8; ROWS] {
    [0; ROWS]
}

fn print_line(to: &mut impl Write, section: &[u8], line: u32) -> io::Result<()> {
    to.write_all(section)?;
    write!(to, "{line}\n")
}

// The line that failed.
fn print_fault(
    to: &mut impl Write,
    text: &[u8],
    recording: &[u8],
    work: &mut [u8],
) -> io::Result<()> {
    let mut rows = rows_buffer();
    match diagnose(text, recording, work, &mut rows) {
        Ok(Diagnosis::Preset(line)) => print_line(to, b"PRESET ", line),
        Ok(Diagnosis::Assert(line)) => print_line(to, b"ASSERT ", line),
        Ok(Diagnosis::Guarantee(line)) => print_line(to, b"GUARANTEE ", line),
        Ok(Diagnosis::Holds) | Err(_) => Ok(()),
    }
}

// The verdict on a recording of `size` bytes, of which `start` has all, or more than the longest recording has: a recording on which the text fails is there whole.
fn print_verdict(
    to: &mut impl Write,
    text: &[u8],
    start: &[u8],
    size: u32,
    work: &mut [u8],
) -> io::Result<()> {
    match judging::judge_start(text, start, size, work) {
        Err(refusal) => listing::answer(to, Err(refusal)),
        Ok(Verdict::Holds) => to.write_all(b"holds\n"),
        Ok(Verdict::Fails) => {
            to.write_all(b"fails\n")?;
            print_fault(to, text, start, work)
        }
    }
}

// How many of the recording's first bytes are read, and how many it has: these are read, and the others counted, by way of the work buffer.
fn read_start(file: &mut impl Read, start: &mut [u8], work: &mut [u8]) -> io::Result<(usize, usize)>
    ensures { IfOk result (λ sizes. (sizes.0 ≤ length start.old) × (sizes.0 ≤ sizes.1)) }
{
    let first = input::fill(file, start)?;
    let size = input::size(file, first, work)?;
    Ok((first, size))
}

// The recording's file is closed before the text is read.
fn run<R: Files + Input + Eprint>(
    rt: &R,
    to: &mut impl Write,
    mut file: R::File,
    text: &mut [u8],
    start: &mut [u8],
    work: &mut [u8],
) -> io::Result<()> {
    let sizes = read_start(&mut file, start, work);
    drop(file);
    let (first, size) = match sizes {
        Ok(sizes) => sizes,
        Err(error) => return eprintln!(rt; "verdict: the recording cannot be read: {error}"),
    };
    match input::fill(&mut rt.reader(), text) {
        Ok(n) => print_verdict(to, &text[..n], &start[..first], basics::told(size), work),
        Err(error) => eprintln!(rt; "verdict: the text cannot be read: {error}"),
    }
}

// A text of more than 32,768 bytes is refused by 1 wherever it ends, so that the first 65,536 tell enough; so does a recording's start, with its length.
fn main(rt: HostRuntime) -> io::Result<()> {
    let mut arguments = env::args(&rt)?.skip(1);
    let (Some(name), None) = (arguments.next(), arguments.next()) else {
        return eprintln!(rt; "usage: verdict RECORDING < TEXT");
    };
    let file = match fs::open(&rt, name) {
        Ok(file) => file,
        Err(error) => return eprintln!(rt; "verdict: the recording cannot be opened: {error}"),
    };
    let mut to = BufWriter::new(rt.alloc(), io::writer(&rt))?;
    let mut text = input::large_buffer();
    let mut start = start_buffer();
    let mut work = input::large_buffer();
    run(&rt, &mut to, file, &mut text, &mut start, &mut work)?;
    to.flush()
}
