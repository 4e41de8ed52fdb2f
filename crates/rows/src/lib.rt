// The row of one node from the rows of its operands (document 01, 'Recordings'): 64 positions at a time, then eight, then the at most seven that are left.
#![tactic(auto)]

ghost use Rattle.std.specs.Prelude.{◌≡◌, ◌⊎◌, ◌+◌, ◌≤◌, ◌<◌, length};
ghost use Rattle.rows.specs.Memory.{Written, Copied};
ghost use Rattle.rows.specs.Ready.{Ready, Plain, Boolean, Temporal, pair_op, op_row};
ghost use Rattle.rows.specs.Stretches.{in_words, in_bytes, in_bits};

use crate::around::around_row;
use crate::booleans::boolean_row;
use crate::plain::plain_row;
use node::Node;
use recordings::Lasso;

pub mod around;
pub mod booleans;
pub mod plain;

// A node's kind, its signal number, and the bytes at which its operands' rows start.
#[derive(Clone, Copy)]
pub struct Op {
    pub kind: u32,
    pub signal: usize,
    pub first: usize,
    pub second: usize,
}

// Spans of a row, one after the other: `count` of them from position `from` on, each of `size` positions.
#[derive(Clone, Copy)]
pub struct Stretch {
    pub from: usize,
    pub count: usize,
    pub size: usize,
}

// The whole words of a row of n positions.
fn words(n: usize) -> Stretch
    ensures { result ≡ in_words n }
{
    Stretch {
        from: 0,
        count: n / 64,
        size: 64,
    }
}

// The whole bytes past them.
fn bytes(n: usize) -> Stretch
    ensures { result ≡ in_bytes n }
{
    Stretch {
        from: 64 * (n / 64),
        count: n / 8 % 8,
        size: 8,
    }
}

// The positions past these.
fn odd(n: usize) -> Stretch
    ensures { result ≡ in_bits n }
{
    Stretch {
        from: 8 * (n / 8),
        count: n % 8,
        size: 1,
    }
}

// An operator of one operand looks at it twice.
fn paired(op: Op) -> Op
    requires { Boolean op ⊎ Temporal op }
    ensures { result ≡ pair_op op }
{
    let one = Op {
        second: op.first,
        ..op
    };
    match op.kind {
        Node::NOT => one,
        Node::GLOBALLY => one,
        Node::FINALLY => one,
        _ => op,
    }
}

// The row of an operator that looks at one position.
fn boolean(recording: &[u8], lasso: Lasso, op: Op, base: usize, rows: &mut [u8])
    requires ready { Ready recording.now rows.old lasso op base }
    requires boolean { Boolean op }
    ensures { Written lasso.n base (op_row recording.now rows.old lasso op) rows.old rows.new }
{
    boolean_row(lasso.n, paired(op), base, rows);
}

// The row of any other node. The spare bits of its last byte are 0 before, and stay so.
fn other(recording: &[u8], lasso: Lasso, op: Op, base: usize, rows: &mut [u8])
    requires ready { Ready recording.now rows.old lasso op base }
    requires plain { Plain op ⊎ Temporal op }
    ensures { Written lasso.n base (op_row recording.now rows.old lasso op) rows.old rows.new }
{
    let last = base + (lasso.n + 7) / 8 - 1;
    rows[last] = 0;
    if op.kind < Node::GLOBALLY {
        plain_row(recording, lasso, op, base, rows);
        return;
    }
    around_row(lasso, paired(op), base, rows);
}

// The row of any node.
pub fn fill_row(recording: &[u8], lasso: Lasso, op: Op, base: usize, rows: &mut [u8])
    requires { Ready recording.now rows.old lasso op base }
    ensures { Written lasso.n base (op_row recording.now rows.old lasso op) rows.old rows.new }
{
    let kind = op.kind;
    if kind < Node::NOT {
        other(recording, lasso, op, base, rows);
        return;
    }
    if kind < Node::NEXT {
        boolean(recording, lasso, op, base, rows);
        return;
    }
    other(recording, lasso, op, base, rows);
}

// The bytes of a row copied to a later one. It is not made part of its caller: there its places would be counted on for every node, and Boolean rows of 8 positions take
// 1.5 times as long.
#[inline(never)]
pub fn copy_row(rows: &mut [u8], from: usize, base: usize, count: usize)
    requires { (from + count ≤ base) × (base + count ≤ length rows.old) }
    ensures { Copied from base count count rows.old rows.new }
{
    rows.copy_within(from..from + count, base);
}
