// Refusal 10 over the stored tree: 'words unequal, too long or many, or one valuation under two identifiers', at 'the later word'. One pass, with the words of one
// enumeration in an array of rows.
// `wrong_words` is an inner stage: the reader has tested the buffer's length, and the parser counted the entries.
#![tactic(auto)]

ghost use Rattle.std.specs.Prelude.{◌≡◌, ◌≤◌, ◌<◌, ◌^◌, length, get_or, take};
ghost use Rattle.language.specs.Limits.{max_tokens, max_marks, work_bytes};
ghost use Rattle.language.specs.Words.{meet};
ghost use Rattle.enumerations.specs.Pass.{bytes_at, size_of, word as word', step};
ghost use Rattle.lexer.specs.Stored.{offset_bits};
ghost use Rattle.traversal.specs.Cells.{cell_at};
ghost use Rattle.enumerations.specs.Promise.{WrongWords};
ghost use Rattle.enumerations.specs.Progress.{Sized, Passes, shut_at};
ghost use Rattle.enumerations.specs.Clashes.{clash_rows, Clashable};

use entries::kinds;
use language::limits;
use lexer::fields::{LENGTHS, OFFSETS};
use traversal::{cell_at, first};

// The marks of a row: as many as a word has at most.
pub const MARKS: usize = limits::MAX_MARKS as usize;

// The mark that matches both.
const STAR: u8 = 42;

// How many identifiers and words were read, how many marks the first word has, whether a bad word was met, and the first place found.
#[derive(Clone, Copy)]
pub struct Progress {
    pub owner: u32,
    pub count: usize,
    pub size: u32,
    pub closed: bool,
    pub found: Option<u32>,
}

// A byte of the text, 0 behind its end.
pub fn byte_at(text: &[u8], i: usize) -> u8
    ensures { result ≡ get_or text.now i 0 }
{
    if i < text.len() { text[i] } else { 0 }
}

fn size_of(count: usize, size: u32, n: u32) -> u32
    ensures { result ≡ size_of count size n }
{
    if count == 0 { n } else { size }
}

// The functions below are the pass's own: it has bounded what they ask for. A word's marks in a row.
pub fn marks(text: &[u8], at: usize, n: usize) -> [u8; MARKS]
    requires { (n ≤ max_marks) × (at < 2 ^ offset_bits) }
    ensures { (take n result ≡ bytes_at text.now at n) × (length result ≡ max_marks) }
{
    let mut row = [0u8; MARKS];
    for i in 0..n {
        row[i] = byte_at(text, at + i);
    }
    row
}

// Do two words of n marks match one valuation?
fn meets(a: [u8; MARKS], b: [u8; MARKS], n: usize) -> bool
    requires { (n ≤ max_marks) × (length a ≡ max_marks) × (length b ≡ max_marks) }
    ensures { result ≡ meet (take n a) (take n b) }
{
    for i in 0..n {
        let x = a[i];
        let y = b[i];
        if x != y && x != STAR && y != STAR {
            return false;
        }
    }
    true
}

// Does the word share a valuation with one of the first `count` rows that is of another identifier?
fn clashes(
    owners: &[u32],
    rows: &[[u8; MARKS]],
    count: usize,
    owner: u32,
    row: [u8; MARKS],
    n: usize,
) -> bool
    requires { Clashable owners.now rows.now count row n }
    ensures { result ≡ clash_rows n owner (take n row) (take count owners.now) (take count rows.now) }
{
    for i in 0..count {
        if owners[i] != owner && meets(rows[i], row, n) {
            return true;
        }
    }
    false
}

// A bad word: nothing more is asked of its enumeration.
fn shut(p: Progress, place: u32) -> Progress
    ensures { result ≡ shut_at p place }
{
    Progress {
        closed: true,
        found: first(p.found, Some(place)),
        ..p
    }
}

// One word of an enumeration, by its token's word in the buffer.
fn word(
    text: &[u8],
    token: u32,
    p: Progress,
    owners: &mut [u32],
    rows: &mut [[u8; MARKS]],
) -> Progress
    requires { Sized p owners.old rows.old }
    ensures { Passes (word' text.now token) p result owners.old rows.old owners.new rows.new }
{
    if p.closed {
        return p;
    }
    let place = token / LENGTHS % OFFSETS;
    let n = token % LENGTHS;
    let count = p.count;
    let size = size_of(count, p.size, n);
    if n != size {
        return shut(p, place);
    }
    if limits::MAX_MARKS < size {
        return shut(p, place);
    }
    if limits::MAX_WORDS <= count {
        return shut(p, place);
    }
    let marked = size as usize;
    let row = marks(text, place as usize, marked);
    if clashes(owners, rows, count, p.owner, row, marked) {
        return shut(p, place);
    }
    rows[count] = row;
    owners[count] = p.owner;
    Progress {
        count: count + 1,
        size,
        closed: false,
        ..p
    }
}

// One entry.
fn pass(
    text: &[u8],
    work: &[u8],
    i: usize,
    p: Progress,
    owners: &mut [u32],
    rows: &mut [[u8; MARKS]],
) -> Progress
    requires { Sized p owners.old rows.old × (work_bytes ≤ length work.now) × (i < max_tokens) × (p.owner ≤ i) }
    ensures { Passes (step text.now (cell_at work.now i)) p result owners.old rows.old owners.new rows.new }
{
    let c = cell_at(work, i);
    let kind = c.kind;
    if kind == kinds::ENUMERATION {
        return Progress {
            owner: 0,
            count: 0,
            size: 0,
            closed: false,
            ..p
        };
    }
    if kind == kinds::IDENTIFIER {
        return Progress {
            owner: p.owner + 1,
            ..p
        };
    }
    if kind == kinds::WORD {
        return word(text, c.token, p, owners, rows);
    }
    p
}

// The first place of refusal 10, if there is one.
pub fn wrong_words(text: &[u8], work: &[u8], entries: usize) -> Option<u32>
    requires { (work_bytes ≤ length work.now) × (entries ≤ max_tokens) }
    ensures { WrongWords text.now work.now entries result }
{
    let mut owners = [0u32; limits::MAX_WORDS];
    let mut rows = [[0u8; MARKS]; limits::MAX_WORDS];
    let mut p = Progress {
        owner: 0,
        count: 0,
        size: 0,
        closed: false,
        found: None,
    };
    for i in 0..entries {
        p = pass(text, work, i, p, &mut owners, &mut rows);
    }
    p.found
}
