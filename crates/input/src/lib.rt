// Readers read to their end, for the programs: as many bytes as there is room for, and how many there are.
#![tactic(auto)]

ghost use Rattle.std.specs.Prelude.{◌≡◌, ◌+◌, ◌≤◌, ◌<◌, min, max, length, take, IfOk};
ghost use Rattle.std.specs.Io.KnownBytes.{Consumes, IsAtEnd};
ghost use Rattle.basics.specs.Told.{max_told};
ghost use Rattle.input.specs.Counted.{IsPrefixLen, Counted};
ghost use Rattle.input.specs.Reading.{ReadsAt, CountsAll};

use basics::MAX_TOLD;
use std::io::{self, Read};

// 65,536 zeros: more bytes than a text has, and the reader's work buffer.
pub fn large_buffer() -> [u8; 65536]
    ensures { 65536 ≡ length result }
{
    [0; 65536]
}

// As many of some bytes as the buffer has. It takes the buffer and not its length, so that a caller may lend that part of it without a proof.
pub fn within(n: usize, buf: &[u8]) -> usize
    ensures in_bounds { IsPrefixLen result buf.now }
    ensures value { result ≡ min n (length buf.now) }
{
    n.min(buf.len())
}

// One read into the buffer from an index on.
fn more<R: Read>(reader: &mut R, buf: &mut [u8], from: usize) -> io::Result<usize>
    requires { from ≤ length buf.old }
    ensures bound { IfOk result (λ n. from + n ≤ length buf.old) }
    ensures bytes { ReadsAt (R.remaining reader.old) (R.remaining reader.new) from buf.old buf.new result }
{
    reader.read(&mut buf[from..])
}

// Reads until the buffer is full or the input ends, and tells how many bytes it has put there.
#[tactic(auto, using(crate::proofs::ReadingLaws::consumes_more))]
pub fn fill<R: Read>(reader: &mut R, buf: &mut [u8]) -> io::Result<usize>
    ensures bound { IfOk result (Counted 0 (length buf.old)) }
    ensures bytes { IfOk result (λ n. Consumes (R.remaining reader.old) (R.remaining reader.new) (take n buf.new)) }
    ensures end { IfOk result (λ n. n < length buf.old → IsAtEnd (R.remaining reader.new)) }
{
    let mut done = 0;
    // As many bytes at a time as the reader gives.
    while done < buf.len() {
        let got = more(reader, buf, done)?;
        if got == 0 {
            return Ok(done);
        }
        done += got;
    }
    Ok(done)
}

// How many bytes there are, some of which have been read; counted up to what an answer can tell.
#[tactic(auto, using(crate::proofs::ReadingLaws::count_more, crate::proofs::ReadingLaws::count_end, crate::proofs::ReadingLaws::count_full))]
pub fn size<R: Read>(reader: &mut R, first: usize, spare: &mut [u8]) -> io::Result<usize>
    ensures bound { IfOk result (Counted first (max first max_told)) }
    ensures all { 0 < length spare.old → CountsAll (R.remaining reader.old) first result }
{
    let mut total = first;
    // As many bytes at a time as the spare buffer holds.
    while total < MAX_TOLD {
        let got = fill(reader, spare)?;
        if got == 0 {
            return Ok(total);
        }
        total += got.min(MAX_TOLD - total);
    }
    Ok(total)
}
