// The rows of G, F, U, R and W: all are v = g || (p && v one position later), from the value at the loop's start.
ghost use Rattle.std.specs.Prelude.{◌≡◌, ◌<◌, true};
ghost use Rattle.node.specs.Kinds.{shape_of};
ghost use Rattle.rows.specs.Steps.{seed_of};
ghost use Rattle.rows.specs.Memory.{Filled};
ghost use Rattle.rows.specs.Ready.{Placed, TemporalKind, Temporal, loop_row};
ghost use Rattle.rows.specs.Stretches.{end_of, Regular};
ghost use Rattle.rows.specs.SpanSteps.{Goes};
ghost use Rattle.rows.specs.Sweeping.{Swept, Held};

use crate::{Op, Stretch, bytes, odd, words};
use bits::get_bit;
use bits::spans::{ONES, first_of, load, ripple, store};
use node::Node;
use recordings::Lasso;

// The values of an operator at the positions of a span, from its operands' a and b there; c is its value after them.
fn step(kind: u32, a: u64, b: u64, c: u64) -> u64
    requires temporal_kind { TemporalKind kind }
    requires c_bound { c < 2 }
    ensures { Goes kind a b c result }
{
    // An arm for each kind, since its operands go to other places of `ripple`; a closure would hide what `Goes` says of them.
    match kind {
        Node::GLOBALLY => ripple(a, 0, c),
        Node::FINALLY => ripple(ONES, a, c),
        Node::UNTIL => ripple(a, b, c),
        Node::RELEASE => ripple(b, a & b, c),
        _ => ripple(a, b, c),
    }
}

// An operator's value in a loop where nothing is ever decided.
fn seed_of(kind: u32) -> bool
    requires { TemporalKind kind }
    ensures { result ≡ seed_of (shape_of kind) }
{
    match kind {
        Node::GLOBALLY | Node::RELEASE => true,
        Node::FINALLY | Node::UNTIL => false,
        _ => true,
    }
}

// A pass backwards over a stretch from the value v after it; the value at its first position. Over a row that an earlier pass has filled it ends at the first span
// whose first value stays as it was, since none before it can change. It is part of `sweep`, where a span's size is a constant: at 8 positions a row takes 0.65 to 0.8 of
// the time by that.
#[inline(always)]
fn sweep_spans(op: Op, base: usize, v: bool, s: Stretch, filled: bool, rows: &mut [u8]) -> bool
    requires placed { Placed rows.old (end_of s) op base }
    requires temporal { Temporal op × Regular s }
    requires held { filled ≡ true → Held (end_of s) s.from op base rows.old }
    ensures { Swept (end_of s) s.from op base v result rows.old rows.new }
{
    let Op {
        kind,
        first,
        second,
        ..
    } = op;
    let Stretch { from, count, size } = s;
    let mut c = u64::from(v);
    for k in (0..count).rev() {
        let p = from + size * k;
        let a = load(rows, 8 * first + p, size);
        let b = load(rows, 8 * second + p, size);
        let r = step(kind, a, b, c);
        c = first_of(r, size);
        let was = get_bit(rows, 8 * base + p);
        store(rows, 8 * base + p, size, r);
        if filled && (c == 1) == was {
            return get_bit(rows, 8 * base + from);
        }
    }
    c == 1
}

// A pass over the whole row, the first or a second one.
fn sweep(n: usize, op: Op, base: usize, seed: bool, filled: bool, rows: &mut [u8]) -> bool
    requires placed { Placed rows.old n op base × Temporal op }
    requires held { filled ≡ true → Held n 0 op base rows.old }
    ensures { Swept n 0 op base seed result rows.old rows.new }
{
    let u = sweep_spans(op, base, seed, odd(n), filled, rows);
    let v = sweep_spans(op, base, u, bytes(n), filled, rows);
    sweep_spans(op, base, v, words(n), filled, rows)
}

// The row of an operator that goes round the loop: once around, and again from what was found at the loop's start where that is another value.
// For speed it is not made part of its caller (`plain_row` tells).
#[inline(never)]
pub fn around_row(lasso: Lasso, op: Op, base: usize, rows: &mut [u8])
    requires placed { Placed rows.old lasso.n op base × Temporal op }
    requires l_lt_n { lasso.l < lasso.n }
    ensures { Filled lasso.n base (loop_row rows.old lasso op) rows.old rows.new }
{
    let seed = seed_of(op.kind);
    sweep(lasso.n, op, base, seed, false, rows);
    let s = get_bit(rows, 8 * base + lasso.l);
    if s == seed {
        return;
    }
    sweep(lasso.n, op, base, s, true, rows);
}
