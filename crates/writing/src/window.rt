// `a || X(a || ..)`: the operand's nodes several times one after another, then the next and the operator alternately, from the inside out.
ghost use Rattle.std.specs.Prelude.{◌≡◌, suc, ◌<◌, ◌≤◌};
ghost use Rattle.node.specs.Limits.{max_nodes, kind_limit};
ghost use Rattle.writing.specs.Windows.{place, Layered, Linked, Windowed};

use crate::copies::copy;
use crate::{TOO_MANY, cap, join};
use node::MAX_NODES;

// n further copies of the nodes [from, from + size), one after another. `window` has made sure that they fit.
fn layer(n: usize, from: usize, size: usize, out: &mut [u32; MAX_NODES])
    requires { place from size (suc n) ≤ max_nodes }
    ensures { Layered n from size out.old out.new }
{
    let mut at = from + size;
    for i in 0..n {
        at = copy(from, size, at, out);
    }
}

// The next and the operator over the last of n + 1 copies and those before it; the copies end at m. They lie in the table, and the two operators are of sixteen.
fn link(
    op: u32,
    next: u32,
    n: usize,
    from: usize,
    size: usize,
    m: usize,
    out: &mut [u32; MAX_NODES],
) -> usize
    requires { ((op < kind_limit) × (next < kind_limit)) × ((m ≡ place from size (suc n)) × (m ≤ max_nodes)) }
    ensures { Linked op next n 0 from size out.old out.new result }
{
    let mut r = m;
    let mut first = m - size;
    for i in 0..n {
        let later = cap(next, r, out);
        r = join(op, first, later, out);
        first -= size;
    }
    r
}

// The nodes [from, m) are an operand: with n further copies of it they become a chain of the operator, each copy under a next more. Their numbers are of sixteen: the kind's field holds no more.
pub fn window(
    op: u32,
    next: u32,
    n: usize,
    from: usize,
    m: usize,
    out: &mut [u32; MAX_NODES],
) -> usize
    requires { (op < kind_limit) × (next < kind_limit) }
    ensures { Windowed op next n out.old out.new from m result }
{
    if m <= from {
        return TOO_MANY;
    }
    if MAX_NODES < m {
        return TOO_MANY;
    }
    if MAX_NODES < n {
        return TOO_MANY;
    }
    let size = m - from;
    if MAX_NODES - m < n * size {
        return TOO_MANY;
    }
    layer(n, from, size, out);
    link(op, next, n, from, size, m + n * size, out)
}
