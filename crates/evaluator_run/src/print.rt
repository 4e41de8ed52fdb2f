// What the program prints: verdicts and bytes, a line each.
ghost use Rattle.std.specs.Prelude.{◌++◌, OnOk, codes};
ghost use Rattle.std.specs.Fmt.{decimal};
ghost use Rattle.std.specs.Io.KnownBytes.{Appends};

use evaluator::Verdict;
use node::Refusal;
use std::io::{self, Write};

// Writes a line.
pub fn text<W: Write>(to: &mut W, line: &[u8]) -> io::Result<()>
    ensures { OnOk result (Appends (W.contents to.old) (W.contents to.new) (line.now ++ codes "\n")) }
{
    to.write_all(line)?;
    to.write_all(b"\n")
}

// A word and two numbers.
fn counts<W: Write>(to: &mut W, word: &[u8], first: u32, second: u32) -> io::Result<()>
    ensures { OnOk result (Appends (W.contents to.old) (W.contents to.new) (word.now ++ decimal first ++ codes " " ++ decimal second ++ codes "\n")) }
{
    to.write_all(word)?;
    write!(to, "{first} {second}\n")
}

// Writes a verdict, a refusal with its two numbers.
pub fn verdict(to: &mut impl Write, found: Result<Verdict, Refusal>) -> io::Result<()> {
    match found {
        Ok(Verdict::Holds) => text(to, b"holds"),
        Ok(Verdict::Fails) => text(to, b"fails"),
        Err(refusal) => counts(to, b"refused ", refusal.number, refusal.place),
    }
}

// Writes the bytes, two hexadecimal digits each.
pub fn bytes(to: &mut impl Write, bytes: &[u8]) -> io::Result<()> {
    for byte in bytes {
        write!(to, "{:02x}", *byte)?;
    }
    to.write_all(b"\n")
}

// Writes a checksum of the bytes, order included.
pub fn checksum(to: &mut impl Write, bytes: &[u8]) -> io::Result<()> {
    let mut sum = 0u64;
    for byte in bytes {
        sum = (sum % 1000003 * 257 + u64::from(*byte)) % 1000003;
    }
    write!(to, "{sum}\n")
}
