// One pass over the entries of a text's tree, operands before their operators, with a stack of what is known of the operands.
// The functions ask for an index within the lent buffers and a kind of six bits: every pass goes over the entries, whose words hold no others.
#![tactic(auto)]

ghost use Rattle.std.specs.Prelude.{◌≡◌, ◌≤◌, ◌<◌, length, get_or};
ghost use Rattle.std.proofs.Math.Seq.{slice};
ghost use Rattle.language.specs.Limits.{work_bytes, max_tokens};
ghost use Rattle.language.specs.Places.{first};
ghost use Rattle.entries.specs.Kinds as Kind;
ghost use Rattle.traversal.specs.Cells.{cell_at};
ghost use Rattle.traversal.specs.Arity.{arities, operands};
ghost use Rattle.traversal.specs.Starts.{first_of, start_of};
ghost use Rattle.traversal.specs.Places.{placed, place_in};

use entries::fields::{SIZES, TOKENS};
use entries::kinds;
use words::get;

// An entry as a pass sees it: its kind, its token's word, its size.
#[derive(Clone, Copy)]
pub struct Cell {
    pub kind: u32,
    pub token: u32,
    pub size: u32,
}

// How far a pass with a stack has come: the kind of the entry before, how many operands are on the stack, and the first place found.
#[derive(Clone, Copy)]
pub struct Progress {
    pub before: u32,
    pub top: usize,
    pub found: Option<u32>,
}

// The first of two places.
pub fn first(p: Option<u32>, q: Option<u32>) -> Option<u32>
    ensures { result ≡ placed (first (place_in p) (place_in q)) }
{
    match (p, q) {
        (Some(a), Some(b)) => Some(a.min(b)),
        (None, _) => q,
        (_, None) => p,
    }
}

// Inner functions: the pass that calls them has bounded the index by the number of entries, and a kind is a field of six bits.
pub fn cell_at(work: &[u8], i: usize) -> Cell
    requires { (work_bytes ≤ length work.now) × (i < max_tokens) }
    ensures { (result ≡ cell_at work.now i) × (result.kind < Kind.limit) }
{
    let x = get(work, entries::fields::FIRST_ENTRY + i);
    let token = (x / SIZES % TOKENS) as usize;
    let word = get(work, token);
    Cell {
        kind: x / SIZES / TOKENS,
        token: word,
        size: x % SIZES,
    }
}

// How many operands a kind has.
fn arity(kind: u32) -> usize
    requires { kind < Kind.limit }
    ensures { result ≡ get_or arities kind 0 }
{
    if kind < kinds::INDEX {
        0
    } else if kind < kinds::ARITHMETIC {
        1
    } else if kind < kinds::WINDOW {
        2
    } else if kind < kinds::BIG_NUMBERS {
        3
    } else if kind < kinds::BINDER {
        2
    } else if kind < kinds::BETWEEN {
        1
    } else if kind < kinds::LISTED {
        2
    } else if kind < kinds::RANGE {
        1
    } else if kind < kinds::LINES {
        3
    } else if kind < kinds::ENUMERATION {
        1
    } else if kind < kinds::BUS {
        0
    } else if kind < kinds::HEADING {
        1
    } else {
        0
    }
}

// The number of an entry's operands; `before` is the kind of the entry before it.
pub fn operand_count(before: u32, c: Cell) -> usize
    requires { c.kind < Kind.limit }
    ensures { result ≡ operands before c }
{
    let kind = c.kind;
    if kind == kinds::ELEMENT {
        if before == kinds::ELEMENT {
            return 2;
        }
        return 1;
    }
    if kind == kinds::LISTED {
        if c.size == 1 {
            return 0;
        }
        return 1;
    }
    arity(kind)
}

// Where an entry starts: with its first operand, or at its token's place; a big operator's name has its kind there.
pub fn start_of(kind: u32, place: u32, start: u32) -> u32
    requires { kind < Kind.limit }
    ensures { result ≡ start_of kind place start }
{
    if kind < kinds::ARITHMETIC {
        place
    } else if kind < kinds::NEXTS {
        start
    } else if kind < kinds::BINDER {
        place
    } else if kind < kinds::BETWEEN {
        kind
    } else if kind < kinds::LISTED {
        start
    } else if kind < kinds::ELEMENT {
        place
    } else if kind < kinds::RANGE {
        start
    } else {
        place
    }
}

// The first number of a part of the stack, 0 if the part is empty. Two indices and no subslice: what `slice` of the definition takes.
pub fn first_of(numbers: &[u32], from: usize, to: usize) -> u32
    requires { to ≤ length numbers.now }
    ensures { result ≡ first_of (slice from to numbers.now) }
{
    if from < to { numbers[from] } else { 0 }
}
