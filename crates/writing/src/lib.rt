// Writing a formula's nodes into a table of 8,192: every node through crate storing. The functions yield the next index, and the count 8,193 from the first node
// on that has no room: it is no missing value, since the words of a buffer hold it and the work goes on with it (11 to 13 are refused before 16).
// The functions ask for operator codes and signal numbers that a node's fields hold; nobody has to ask for room, since what does not fit is the index 8,193.
#![tactic(auto)]

ghost use Rattle.std.specs.Prelude.{◌∷◌, [], ◌<◌};
ghost use Rattle.node.specs.Limits.{field_limit, kind_limit};
ghost use Rattle.node.specs.Ltl.{Signal};
ghost use Rattle.writing.specs.Writing.{Puts, Wrote, Caps, Joins, Nexts, truth};

use node::{MAX_NODES, Node};

pub mod copies;
pub mod window;

// The index that stands for all past the last node.
// The number is no missing value: 8,193 goes on as a count where the table is full (head of crate writing).
pub const TOO_MANY: usize = MAX_NODES + 1;

// Stores a word at an index.
pub fn put(out: &mut [u32; MAX_NODES], at: usize, word: u32) -> usize
    ensures { Puts (word ∷ []) out.old out.new at result }
{
    if MAX_NODES < at {
        return TOO_MANY;
    }
    storing::put(out, at, word).unwrap_or(TOO_MANY)
}

// A constant.
pub fn constant(holds: bool, out: &mut [u32; MAX_NODES], at: usize) -> usize
    ensures { Wrote (truth holds) out.old out.new at result }
{
    if MAX_NODES < at {
        return TOO_MANY;
    }
    if holds {
        return storing::constant(Node::TRUE, out, at).unwrap_or(TOO_MANY);
    }
    storing::constant(Node::FALSE, out, at).unwrap_or(TOO_MANY)
}

// A signal: every signal node is written here. Its number has to fit the field, which holds no larger one.
pub fn signal(k: u32, out: &mut [u32; MAX_NODES], at: usize) -> usize
    requires { k < field_limit }
    ensures { Wrote (Signal k) out.old out.new at result }
{
    if MAX_NODES < at {
        return TOO_MANY;
    }
    storing::signal(k as usize, out, at).unwrap_or(TOO_MANY)
}

// An operator of one operand, over the node before m. Its number is one of sixteen: the kind's field holds no more.
pub fn cap(op: u32, m: usize, out: &mut [u32; MAX_NODES]) -> usize
    requires { op < kind_limit }
    ensures { Caps op out.old out.new m result }
{
    if m == 0 {
        return TOO_MANY;
    }
    if MAX_NODES <= m {
        return TOO_MANY;
    }
    storing::cap(op, m, out).unwrap_or(TOO_MANY)
}

// An operator of two operands, over the nodes before m and before n. Its number is one of sixteen, as above.
pub fn join(op: u32, m: usize, n: usize, out: &mut [u32; MAX_NODES]) -> usize
    requires { op < kind_limit }
    ensures { Joins op out.old out.new m n result }
{
    if m == 0 {
        return TOO_MANY;
    }
    if n < m {
        return TOO_MANY;
    }
    if MAX_NODES <= n {
        return TOO_MANY;
    }
    storing::join(op, m, n, out).unwrap_or(TOO_MANY)
}

// n times a next over the node before m. Its number is one of sixteen, as above.
pub fn nexts(next: u32, n: usize, m: usize, out: &mut [u32; MAX_NODES]) -> usize
    requires { next < kind_limit }
    ensures { Nexts next n out.old out.new m result }
{
    let mut r = m;
    for i in 0..n {
        if MAX_NODES < r {
            return TOO_MANY;
        }
        r = cap(next, r, out);
    }
    r
}
