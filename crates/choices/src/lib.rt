// The words of enumerations, which stand behind their identifiers' entries: as nodes, by their width, and whether they leave a word unnamed.
// The functions ask for the entry of an identifier or an enumeration of a stored tree: their callers come to it by a name's reference.
#![tactic(auto)]

ghost use Rattle.std.specs.Prelude.{◌≡◌, ◌≤◌, ◌<◌, length};
ghost use Rattle.node.specs.Limits.{field_limit, max_nodes};
ghost use Rattle.language.specs.Limits.{work_bytes, max_tokens, max_signals};
ghost use Rattle.language.specs.Numbering.{mark_of};
ghost use Rattle.writing.specs.Writing.{Wrote};
ghost use Rattle.choices.specs.Entries.{end_from, words_end, identifiers_end};
ghost use Rattle.choices.specs.Literals.{is_star, literal as literal'};
ghost use Rattle.choices.specs.Promise.{Readable, Matches, OneOf, WidthsAre};

use entries::kinds;
use enumerations::byte_at;
use folds::{Fold, finish, further};
use language::limits;
use lexer::fields::{LENGTHS, OFFSETS};
use node::{MAX_NODES, Node};
use traversal::cell_at;
use writing::{TOO_MANY, cap, signal};

pub mod coverage;
pub mod folds;

// The marks that are no star.
pub const ABSENT: u8 = 48;

pub const PRESENT: u8 = 49;

// Where the entries of the kinds `low` to WORD end, from i on. Like all functions here it is called by stages that have tested the buffer's length.
fn end_from(work: &[u8], low: u32, i: usize) -> usize
    requires { work_bytes ≤ length work.now }
    ensures { result ≡ end_from work.now low i }
{
    for j in i..limits::MAX_TOKENS {
        let kind = cell_at(work, j).kind;
        if kind < low {
            return j;
        }
        if kinds::WORD < kind {
            return j;
        }
    }
    i.max(limits::MAX_TOKENS)
}

// Where the words behind an identifier's entry end.
pub fn words_end(work: &[u8], identifier: usize) -> usize
    requires { (work_bytes ≤ length work.now) × (identifier < max_tokens) }
    ensures { result ≡ words_end work.now identifier }
{
    end_from(work, kinds::WORD, identifier + 1)
}

// Where the identifiers and their words behind an enumeration's entry end.
pub fn identifiers_end(work: &[u8], enumeration: usize) -> usize
    requires { (work_bytes ≤ length work.now) × (enumeration < max_tokens) }
    ensures { result ≡ identifiers_end work.now enumeration }
{
    end_from(work, kinds::IDENTIFIER, enumeration + 1)
}

// Have the words in the entries [from, to) n marks each?
pub fn widths_are(work: &[u8], from: usize, to: usize, n: u32) -> bool
    requires { Readable work.now to }
    ensures { WidthsAre work.now from to n result }
{
    for i in from..to {
        let c = cell_at(work, i);
        if c.kind != kinds::WORD {
            continue;
        }
        if c.token % LENGTHS != n {
            return false;
        }
    }
    true
}

fn starred(mark: u8) -> bool
    ensures { result ≡ is_star (mark_of mark) }
{
    if mark == ABSENT {
        return false;
    }
    mark != PRESENT
}

// Signal k, or that it is absent. Its number fits the field, as the signal's own.
fn literal(present: bool, k: u32, out: &mut [u32; MAX_NODES], at: usize) -> usize
    requires { k < field_limit }
    ensures { Wrote (literal' present k) out.old out.new at result }
{
    let r = signal(k, out, at);
    if present {
        return r;
    }
    cap(Node::NOT, r, out)
}

// One word, whose token has this word: 'the literals of its unstarred marks, bit 0 first, folded with `&&` (all stars: true)'.
fn matches(text: &[u8], token: u32, first: u32, out: &mut [u32; MAX_NODES], at: usize) -> usize
    requires { first ≤ max_signals }
    ensures { Matches text.now token first out.old out.new at result }
{
    let place = (token / LENGTHS % OFFSETS) as usize;
    let n = token % LENGTHS;
    let mut f = Fold {
        some: false,
        end: at,
    };
    for i in 0..n {
        let mark = byte_at(text, place + i as usize);
        if starred(mark) {
            continue;
        }
        let r = literal(mark == PRESENT, first + i, out, f.end);
        f = further(true, f, r, out);
    }
    finish(true, f, out)
}

// A bus matches one of the words in the entries [from, to): 'words folded with `||`'. Its first signal is `first`; past the last node nothing is asked of it.
pub fn one_of(
    text: &[u8],
    work: &[u8],
    from: usize,
    to: usize,
    first: u32,
    out: &mut [u32; MAX_NODES],
    at: usize,
) -> usize
    requires { Readable work.now to × (at ≤ max_nodes → first ≤ max_signals) }
    ensures { OneOf text.now work.now from to first out.old out.new at result }
{
    // A count that goes on where the table is full (head of crate writing).
    if MAX_NODES < at {
        return TOO_MANY;
    }
    let mut f = Fold {
        some: false,
        end: at,
    };
    for i in from..to {
        let c = cell_at(work, i);
        if c.kind != kinds::WORD {
            continue;
        }
        let r = matches(text, c.token, first, out, f.end);
        f = further(false, f, r, out);
    }
    finish(false, f, out)
}
