// The rows of constants, signals and X.
ghost use Rattle.std.specs.Prelude.{◌≡◌, ◌+◌, ◌*◌};
ghost use Rattle.bits.specs.Bits.{number};
ghost use Rattle.bits.specs.Spans.{Span};
ghost use Rattle.recordings.specs.Recording.{letter_of};
ghost use Rattle.recordings.specs.Lasso.{next};
ghost use Rattle.recordings.specs.Promise.{Recorded};
ghost use Rattle.rows.specs.Memory.{bits_at, Part, Filled};
ghost use Rattle.rows.specs.Ready.{Ready, Inside, Operands, Plain, op_row};
ghost use Rattle.rows.specs.Stretches.{end_of, Inner};
ghost use Rattle.rows.specs.Plain.{Spot};

use crate::{Op, Stretch, bytes, odd, words};
use bits::get_bit;
use bits::spans::{ONES, ahead, load, store};
use node::Node;
use recordings::{Lasso, after, letter};

// The values of a signal at `size` positions from `at` on.
fn signal_span(recording: &[u8], lasso: Lasso, signal: usize, at: usize, size: usize) -> u64
    requires { Recorded recording.now lasso × Spot lasso at size }
    ensures { result ≡ number (λ q. letter_of recording.now lasso.k (at + q) signal) size }
{
    let mut v: u64 = 0;
    for i in 0..size {
        let b = letter(recording, lasso, at + i, signal);
        v = v * 2 + u64::from(b);
    }
    v
}

// The values of X: those of the operand's row one position later, the last one from the next span or from the loop's start.
fn next_span(lasso: Lasso, first: usize, rows: &[u8], at: usize, size: usize) -> u64
    requires { Inside lasso.n first rows.now × Spot lasso at size }
    ensures { Span size (λ q. bits_at rows.now first (next lasso.n lasso.l q)) at result }
{
    let x = load(rows, 8 * first + at, size);
    let q = after(lasso, at + size - 1);
    let b = get_bit(rows, 8 * first + q);
    ahead(x, u64::from(b))
}

// The values of a constant, a signal or X.
fn span_value(recording: &[u8], lasso: Lasso, op: Op, rows: &[u8], at: usize, size: usize) -> u64
    requires operands { Operands recording.now rows.now lasso op }
    requires plain { Plain op × Spot lasso at size }
    ensures { Span size (op_row recording.now rows.now lasso op) at result }
{
    match op.kind {
        Node::TRUE => ONES,
        Node::FALSE => 0,
        Node::SIGNAL => signal_span(recording, lasso, op.signal, at, size),
        _ => next_span(lasso, op.first, rows, at, size),
    }
}

// The values of a stretch.
fn plain_spans(recording: &[u8], lasso: Lasso, op: Op, base: usize, s: Stretch, rows: &mut [u8])
    requires ready { Ready recording.now rows.old lasso op base }
    requires plain { Plain op × Inner lasso.n s }
    ensures { Part lasso.n base (op_row recording.now rows.old lasso op) s.from (end_of s) rows.old rows.new }
{
    let Stretch { from, count, size } = s;
    for k in 0..count {
        let p = from + size * k;
        let v = span_value(recording, lasso, op, rows, p, size);
        store(rows, 8 * base + p, size, v);
    }
}

// The row of a constant, a signal or X. Neither it nor `around_row` is made part of its caller: Boolean rows take 0.75 to 0.8 of the time by that, those of X and of
// `around_row` up to 1.25 times as long.
#[inline(never)]
pub fn plain_row(recording: &[u8], lasso: Lasso, op: Op, base: usize, rows: &mut [u8])
    requires ready { Ready recording.now rows.old lasso op base }
    requires plain { Plain op }
    ensures { Filled lasso.n base (op_row recording.now rows.old lasso op) rows.old rows.new }
{
    plain_spans(recording, lasso, op, base, odd(lasso.n), rows);
    plain_spans(recording, lasso, op, base, bytes(lasso.n), rows);
    plain_spans(recording, lasso, op, base, words(lasso.n), rows);
}
