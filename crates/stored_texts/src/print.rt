// What is printed: answers, with the checksums of what an accepted text gives, and signal lists.
use crate::sums::checksum_of;
use node::{Answer, Refusal};
use std::io::{self, Write};

pub fn say(to: &mut impl Write, text: &[u8]) -> io::Result<()> {
    to.write_all(text)
}

// An answer; of an accepted text with the checksums of its nodes and of its signal list.
pub fn answer(
    to: &mut impl Write,
    answer: Answer,
    nodes: &[u32],
    signals: &[u32],
) -> io::Result<()> {
    match answer {
        Ok((n, s)) => {
            let node_sum = checksum_of(nodes, n as usize);
            let signal_sum = checksum_of(signals, s as usize);
            write!(to, "accepted {n} {s} sums {node_sum} {signal_sum}")
        }
        Err(Refusal { number, place }) => write!(to, "refused {number} {place}"),
    }
}

// A signal's number, output flag, offset of the name, index in the bus and width.
fn signal(to: &mut impl Write, i: usize, word: u32) -> io::Result<()> {
    let flag = word / 2147483648;
    let offset = word / 65536 % 32768;
    let index = word / 256 % 256;
    let width = word % 256;
    writeln!(to, "signal {i} {flag} {offset} {index} {width}")
}

// The lines of the first n signals.
pub fn signals(to: &mut impl Write, words: &[u32], n: usize) -> io::Result<()> {
    for (i, word) in words.iter().take(n).enumerate() {
        signal(to, i, *word)?;
    }
    Ok(())
}
