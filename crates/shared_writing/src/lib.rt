// Writing a formula's nodes into a shared table: a node that stands there already is not written again. A formula's answer is the index behind its node, its number
// plus 1; where there is no room it is `TOO_MANY`, and so is what is made of such a formula or written after it.
// The functions ask for an array that holds a table, and for operator codes and signal numbers that a node's fields hold; nobody has to ask for room.
#![tactic(auto)]

ghost use Rattle.std.specs.Prelude.{◌<◌};
ghost use Rattle.node.specs.Limits.{field_limit, kind_limit};
ghost use Rattle.node.specs.Ltl.{Signal};
ghost use Rattle.shared_table.specs.Shared.{Shared};
ghost use Rattle.shared_writing.specs.Writing.{Wrote, Caps, Joins, Nexts, Windowed, truth};

use node::{MAX_NODES, Node};
use shared_table::put;

// The index that stands for all past the last node.
// The number is no missing value: what is made of such a formula or written after it goes on with it (specs/Writing).
pub const TOO_MANY: usize = shared_table::NO_ROOM;

// How many words an array has that holds a table of 8,192 nodes: the count, the heads, and three for each node.
pub const TABLE: usize = 1 + shared_table::HEADS + 3 * MAX_NODES;

// A constant.
pub fn constant(holds: bool, out: &mut [u32; TABLE], at: usize) -> usize
    requires { Shared out.old }
    ensures { Wrote (truth holds) out.old out.new at result }
{
    if MAX_NODES < at {
        return TOO_MANY;
    }
    if holds {
        let node = Node::leaf(Node::TRUE);
        return put(out, node.word);
    }
    let node = Node::leaf(Node::FALSE);
    put(out, node.word)
}

// A signal. Its number has to fit the field, which holds no larger one.
pub fn signal(k: u32, out: &mut [u32; TABLE], at: usize) -> usize
    requires { (k < field_limit) × Shared out.old }
    ensures { Wrote (Signal k) out.old out.new at result }
{
    if MAX_NODES < at {
        return TOO_MANY;
    }
    let node = Node::unary(Node::SIGNAL, k);
    put(out, node.word)
}

// An operator of one operand, over the node before m. Its number is one of sixteen: the kind's field holds no more.
pub fn cap(op: u32, m: usize, out: &mut [u32; TABLE]) -> usize
    requires { (op < kind_limit) × Shared out.old }
    ensures { Caps op out.old out.new m result }
{
    if m == 0 {
        return TOO_MANY;
    }
    if MAX_NODES < m {
        return TOO_MANY;
    }
    let node = Node::unary(op, (m - 1) as u32);
    put(out, node.word)
}

// An operator of two operands, over the nodes before m and before n, either of which may stand first. Its number is one of sixteen, as above.
pub fn join(op: u32, m: usize, n: usize, out: &mut [u32; TABLE]) -> usize
    requires { (op < kind_limit) × Shared out.old }
    ensures { Joins op out.old out.new m n result }
{
    if m == 0 {
        return TOO_MANY;
    }
    if n == 0 {
        return TOO_MANY;
    }
    if MAX_NODES < m {
        return TOO_MANY;
    }
    if MAX_NODES < n {
        return TOO_MANY;
    }
    let node = Node::binary(op, (m - 1) as u32, (n - 1) as u32);
    put(out, node.word)
}

// n times a next over the node before m. Its number is one of sixteen, as above.
// Not `nexts` of crate writing over another type: this table holds no node twice, so the contract is another (Shared, specs/Writing).
pub fn nexts(next: u32, n: usize, m: usize, out: &mut [u32; TABLE]) -> usize
    requires { (next < kind_limit) × Shared out.old }
    ensures { Nexts next n out.old out.new m result }
{
    let mut r = m;
    for i in 0..n {
        if MAX_NODES < r {
            return TOO_MANY;
        }
        r = cap(next, r, out);
    }
    r
}

// `a || X(a || ..)` with n further times the node before m, from the inside out: the operand stands once, and each operator takes it again. The numbers of the
// operator and of the next are of sixteen, as above.
pub fn window(op: u32, next: u32, n: usize, m: usize, out: &mut [u32; TABLE]) -> usize
    requires { ((op < kind_limit) × (next < kind_limit)) × Shared out.old }
    ensures { Windowed op next n out.old out.new m result }
{
    let mut r = m;
    for i in 0..n {
        if MAX_NODES < r {
            return TOO_MANY;
        }
        let later = cap(next, r, out);
        r = join(op, m, later, out);
    }
    r
}
