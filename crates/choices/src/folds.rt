// Formulas one after another, folded to the left with `&&` or `||` as they are written (document 01: 'one element is itself', 'over nothing `&&` is true, `||` false').
ghost use Rattle.choices.specs.Folds.{Furthers, Finishes};

use node::{MAX_NODES, Node};
use writing::{constant, join};

// Whether there was a formula yet, and where what is written ends: before the first formula too, so `end` is no Option's value.
#[derive(Clone, Copy)]
pub struct Fold {
    pub some: bool,
    pub end: usize,
}

// One formula more, written from `f.end` up to r; `all` for `&&`.
pub fn further(all: bool, f: Fold, r: usize, out: &mut [u32; MAX_NODES]) -> Fold
    ensures { Furthers all f r out.old out.new result }
{
    if f.some {
        let operator = if all { Node::AND } else { Node::OR };
        let end = join(operator, f.end, r, out);
        return Fold { some: true, end };
    }
    Fold { some: true, end: r }
}

// Where the fold ends.
pub fn finish(all: bool, f: Fold, out: &mut [u32; MAX_NODES]) -> usize
    ensures { Finishes all f out.old out.new result }
{
    if f.some {
        return f.end;
    }
    constant(all, out, f.end)
}
