// The search among the signs and words of the format, by the tables of crate::tables. The functions ask for a place within the text and for tables that hold what specs/Tables says.
ghost use Rattle.std.specs.Prelude.{◌≡◌, ◌||◌, eqb, ◌+◌, ◌*◌, get_or, drop};
ghost use Rattle.lexer.specs.Spelling.{entry, entries, search, fitting};
ghost use Rattle.lexer.specs.Scanning.{Findable, Comparable};

use crate::tables::{COUNT, ROW, ROW_BYTES};

pub fn first_row(bytes: &[u8; 512], b: u8) -> usize
    ensures { result ≡ get_or bytes.now (2 * b + 1) 0 }
{
    usize::from(bytes[2 * usize::from(b) + 1])
}

// Is the length the size asked for (0: any)?
pub fn sized(n: usize, size: usize) -> bool
    ensures { result ≡ (eqb size 0 || eqb n size) }
{
    size == 0 || n == size
}

// Do the bytes from `at` on start with the string of row k, which has the size given (0: any)?
pub fn fits(text: &[u8], at: usize, rows: &[u8; ROW_BYTES], k: usize, size: usize) -> bool
    requires { Comparable text.now at rows.now k }
    ensures { result ≡ fitting size (drop at text.now) (entry k) }
{
    let row = ROW * k;
    let n = usize::from(rows[row]);
    if !sized(n, size) {
        return false;
    }
    if text.len() - at < n {
        return false;
    }
    // A byte at a time and no slices: most rows differ in the second byte.
    for j in 0..n {
        if text[at + j] != rows[row + 2 + j] {
            return false;
        }
    }
    true
}

// The first row whose string fits; COUNT if none does, as `search` (specs/Spelling) is the list's length then: no Option. Only rows that begin with the text's byte are looked at.
pub fn find(text: &[u8], at: usize, rows: &[u8; ROW_BYTES], first: usize, size: usize) -> usize
    requires { Findable text.now at rows.now first }
    ensures { result ≡ search (fitting size (drop at text.now)) entries }
{
    let mut k = first;
    // From row to row of those that begin alike.
    while k < COUNT {
        if fits(text, at, rows, k, size) {
            return k;
        }
        k = usize::from(rows[ROW * k + 1]);
    }
    COUNT
}
