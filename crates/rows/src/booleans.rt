// The rows of `!`, `&&`, `||`, `->` and `<->`: eight bytes as one word, the odd bytes at the row's end singly (document 02, F-4).
ghost use Rattle.std.specs.Prelude.{◌≡◌, ◌+◌, ◌*◌, ◌/◌, ◌<◌, length, get_or, set};
ghost use Rattle.node.specs.Kinds.{shape_of};
ghost use Rattle.rows.specs.Memory.{Written};
ghost use Rattle.rows.specs.Ready.{Placed, BooleanKind, Boolean, pair_row};
ghost use Rattle.rows.specs.Booleans.{bytes_of, byte_steps, blanked, Bound};

use crate::Op;
use bits::power;
use bits::spans::{load_byte, load_word, store_byte, store_word};
use node::Node;

// What an operator makes of eight bytes of its operands.
fn word_step(kind: u32, x: u64, y: u64) -> u64
    requires { BooleanKind kind }
    ensures { result ≡ bytes_of (shape_of kind) 8 x y }
{
    match kind {
        Node::NOT => !x,
        Node::AND => x & y,
        Node::OR => x | y,
        Node::IMPLIES => !x | y,
        _ => !(x ^ y),
    }
}

// And of one. `word_step` would set the other bytes of the number; one function for both would take the mask and what is known of it.
fn byte_step(kind: u32, x: u64, y: u64) -> u64
    requires boolean_kind { BooleanKind kind }
    requires x_bound { (x < 256) × (y < 256) }
    ensures { result ≡ bytes_of (shape_of kind) 1 x y }
{
    match kind {
        Node::NOT => 255 - x,
        Node::AND => x & y,
        Node::OR => x | y,
        Node::IMPLIES => (255 - x) | y,
        _ => 255 - (x ^ y),
    }
}

// The whole words of `count` bytes. A function of its own, so that its proof has no case for few bytes.
fn each_word(op: Op, base: usize, count: usize, rows: &mut [u8])
    requires { Boolean op × Bound rows.old op base count }
    ensures { rows.new ≡ byte_steps (shape_of op.kind) rows.old op.first op.second base (8 * (count / 8)) }
{
    let Op {
        kind,
        first,
        second,
        ..
    } = op;
    for i in 0..count / 8 {
        let j = 8 * i;
        let x = load_word(rows, first + j);
        let y = load_word(rows, second + j);
        store_word(rows, base + j, word_step(kind, x, y));
    }
}

// As many whole words as `count` bytes have. Fewer than eight bytes are told apart first: without that rows of 8 positions take 1.2 to 1.35 times as long.
fn boolean_words(op: Op, base: usize, count: usize, rows: &mut [u8])
    requires { Boolean op × Bound rows.old op base count }
    ensures { rows.new ≡ byte_steps (shape_of op.kind) rows.old op.first op.second base (8 * (count / 8)) }
{
    if count < 8 {
        return;
    }
    each_word(op, base, count, rows);
}

// `count` bytes singly. It differs from `each_word` in the reader, the writer and the step: one function would take all three.
fn boolean_bytes(op: Op, base: usize, count: usize, rows: &mut [u8])
    requires { Boolean op × Bound rows.old op base count }
    ensures { rows.new ≡ byte_steps (shape_of op.kind) rows.old op.first op.second base count }
{
    let Op {
        kind,
        first,
        second,
        ..
    } = op;
    for j in 0..count {
        let x = load_byte(rows, first + j);
        let y = load_byte(rows, second + j);
        store_byte(rows, base + j, byte_step(kind, x, y));
    }
}

// The s low bits of a byte become 0.
fn clear_spare(rows: &mut [u8], at: usize, s: usize)
    requires { (at < length rows.old) × (s < 8) }
    ensures { rows.new ≡ set rows.old at (blanked (get_or rows.old at 0) s) }
{
    let p = power(s);
    rows[at] = (u32::from(rows[at]) / p * p) as u8;
}

// The row of an operator that looks at one position.
pub fn boolean_row(n: usize, op: Op, base: usize, rows: &mut [u8])
    requires placed { Placed rows.old n op base × Boolean op }
    requires n_nonzero { 0 < n }
    ensures { Written n base (pair_row rows.old op) rows.old rows.new }
{
    let count = (n + 7) / 8;
    let from = 8 * (count / 8);
    boolean_words(op, base, count, rows);
    let rest = Op {
        first: op.first + from,
        second: op.second + from,
        ..op
    };
    boolean_bytes(rest, base + from, count - from, rows);
    let spare = 8 * count - n;
    clear_spare(rows, base + count - 1, spare);
}
