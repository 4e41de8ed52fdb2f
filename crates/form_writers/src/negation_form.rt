// Form 1, negation form (document 01, 'Forms'): `plain` and `negated` call each other on operands, directly or through a function that calls them.
ghost use Rattle.std.specs.Prelude.{◌≡◌, max};
ghost use Rattle.node.specs.Ltl.{One, Two, And, Or, U};
ghost use Rattle.node.specs.Table.{tree_at};
ghost use Rattle.forms.specs.Forms.{plain as plain', negated as negated'};
ghost use Rattle.form_writers.specs.Writing.{dual_kind, Wrote, Ready, IsUnary, IsBinary, unary_of, binary_of};

use crate::write::{fields_at, not_signal};
use node::Node;
use storing::{cap, constant, join, signal};

// The kind of the dual operator.
fn dual(kind: u32) -> u32
    ensures { result ≡ dual_kind kind }
{
    match kind {
        Node::AND => Node::OR,
        Node::OR => Node::AND,
        Node::GLOBALLY => Node::FINALLY,
        Node::FINALLY => Node::GLOBALLY,
        Node::UNTIL => Node::RELEASE,
        Node::RELEASE => Node::UNTIL,
        _ => kind,
    }
}

// An operand, plain or negated, below an operator of one operand.
#[cycle(both_negated_both_plain_differ_equal_negated_negated_one_negated_plain_not_weak_plain_plain_negated_plain_one)]
fn plain_one(nodes: &[u32], i: usize, op: u32, out: &mut [u32], at: usize) -> Option<usize>
    requires ready { Ready nodes.now i out.old at }
    requires unary { IsUnary op }
    ensures { Wrote result (One (unary_of op) (plain' (tree_at nodes.now i))) out.old out.new at }
{
    let m = plain(nodes, i, out, at)?;
    cap(op, m, out)
}

#[cycle(both_negated_both_plain_differ_equal_negated_negated_one_negated_plain_not_weak_plain_plain_negated_plain_one)]
fn negated_one(nodes: &[u32], i: usize, op: u32, out: &mut [u32], at: usize) -> Option<usize>
    requires ready { Ready nodes.now i out.old at }
    requires unary { IsUnary op }
    ensures { Wrote result (One (unary_of op) (negated' (tree_at nodes.now i))) out.old out.new at }
{
    let m = negated(nodes, i, out, at)?;
    cap(op, m, out)
}

// Two operands, each plain or negated, below an operator of two.
#[cycle(both_negated_both_plain_differ_equal_negated_negated_one_negated_plain_not_weak_plain_plain_negated_plain_one)]
fn both_plain(
    nodes: &[u32],
    a: usize,
    b: usize,
    op: u32,
    out: &mut [u32],
    at: usize,
) -> Option<usize>
    requires ready { Ready nodes.now (max a b) out.old at }
    requires binary { IsBinary op }
    ensures { Wrote result (Two (binary_of op) (plain' (tree_at nodes.now a)) (plain' (tree_at nodes.now b))) out.old out.new at }
{
    let m = plain(nodes, a, out, at)?;
    let n = plain(nodes, b, out, m)?;
    join(op, m, n, out)
}

#[cycle(both_negated_both_plain_differ_equal_negated_negated_one_negated_plain_not_weak_plain_plain_negated_plain_one)]
fn both_negated(
    nodes: &[u32],
    a: usize,
    b: usize,
    op: u32,
    out: &mut [u32],
    at: usize,
) -> Option<usize>
    requires ready { Ready nodes.now (max a b) out.old at }
    requires binary { IsBinary op }
    ensures { Wrote result (Two (binary_of op) (negated' (tree_at nodes.now a)) (negated' (tree_at nodes.now b))) out.old out.new at }
{
    let m = negated(nodes, a, out, at)?;
    let n = negated(nodes, b, out, m)?;
    join(op, m, n, out)
}

#[cycle(both_negated_both_plain_differ_equal_negated_negated_one_negated_plain_not_weak_plain_plain_negated_plain_one)]
fn plain_negated(
    nodes: &[u32],
    a: usize,
    b: usize,
    op: u32,
    out: &mut [u32],
    at: usize,
) -> Option<usize>
    requires ready { Ready nodes.now (max a b) out.old at }
    requires binary { IsBinary op }
    ensures { Wrote result (Two (binary_of op) (plain' (tree_at nodes.now a)) (negated' (tree_at nodes.now b))) out.old out.new at }
{
    let m = plain(nodes, a, out, at)?;
    let n = negated(nodes, b, out, m)?;
    join(op, m, n, out)
}

#[cycle(both_negated_both_plain_differ_equal_negated_negated_one_negated_plain_not_weak_plain_plain_negated_plain_one)]
fn negated_plain(
    nodes: &[u32],
    a: usize,
    b: usize,
    op: u32,
    out: &mut [u32],
    at: usize,
) -> Option<usize>
    requires ready { Ready nodes.now (max a b) out.old at }
    requires binary { IsBinary op }
    ensures { Wrote result (Two (binary_of op) (negated' (tree_at nodes.now a)) (plain' (tree_at nodes.now b))) out.old out.new at }
{
    let m = negated(nodes, a, out, at)?;
    let n = plain(nodes, b, out, m)?;
    join(op, m, n, out)
}

// a <-> b: (a && b) || (!a && !b)
#[cycle(both_negated_both_plain_differ_equal_negated_negated_one_negated_plain_not_weak_plain_plain_negated_plain_one)]
fn equal(nodes: &[u32], a: usize, b: usize, out: &mut [u32], at: usize) -> Option<usize>
    requires { Ready nodes.now (max a b) out.old at }
    ensures { Wrote result (Two Or (Two And (plain' (tree_at nodes.now a)) (plain' (tree_at nodes.now b)))
        (Two And (negated' (tree_at nodes.now a)) (negated' (tree_at nodes.now b)))) out.old out.new at }
{
    let m = both_plain(nodes, a, b, Node::AND, out, at)?;
    let n = both_negated(nodes, a, b, Node::AND, out, m)?;
    join(Node::OR, m, n, out)
}

// !(a <-> b): (a && !b) || (!a && b)
#[cycle(both_negated_both_plain_differ_equal_negated_negated_one_negated_plain_not_weak_plain_plain_negated_plain_one)]
fn differ(nodes: &[u32], a: usize, b: usize, out: &mut [u32], at: usize) -> Option<usize>
    requires { Ready nodes.now (max a b) out.old at }
    ensures { Wrote result (Two Or (Two And (plain' (tree_at nodes.now a)) (negated' (tree_at nodes.now b)))
        (Two And (negated' (tree_at nodes.now a)) (plain' (tree_at nodes.now b)))) out.old out.new at }
{
    let m = plain_negated(nodes, a, b, Node::AND, out, at)?;
    let n = negated_plain(nodes, a, b, Node::AND, out, m)?;
    join(Node::OR, m, n, out)
}

// !(a W b): !b U (!a && !b)
#[cycle(both_negated_both_plain_differ_equal_negated_negated_one_negated_plain_not_weak_plain_plain_negated_plain_one)]
fn not_weak(nodes: &[u32], a: usize, b: usize, out: &mut [u32], at: usize) -> Option<usize>
    requires { Ready nodes.now (max a b) out.old at }
    ensures { Wrote result (Two U (negated' (tree_at nodes.now b)) (Two And (negated' (tree_at nodes.now a)) (negated' (tree_at nodes.now b)))) out.old
        out.new at }
{
    let m = negated(nodes, b, out, at)?;
    let n = both_negated(nodes, a, b, Node::AND, out, m)?;
    join(Node::UNTIL, m, n, out)
}

// A node's formula in negation form.
#[cycle(both_negated_both_plain_differ_equal_negated_negated_one_negated_plain_not_weak_plain_plain_negated_plain_one)]
pub fn plain(nodes: &[u32], i: usize, out: &mut [u32], at: usize) -> Option<usize>
    requires { Ready nodes.now i out.old at }
    ensures { Wrote result (plain' (tree_at nodes.now i)) out.old out.new at }
{
    let node = fields_at(nodes, i);
    let k = node.kind;
    let a = node.first;
    let b = node.second;
    // An arm for each kind, with the operands that its function takes: a table of functions would need one type for all.
    match k {
        Node::TRUE => constant(Node::TRUE, out, at),
        Node::FALSE => constant(Node::FALSE, out, at),
        Node::SIGNAL => signal(a, out, at),
        Node::NOT => negated(nodes, a, out, at),
        Node::IMPLIES => negated_plain(nodes, a, b, Node::OR, out, at),
        Node::IFF => equal(nodes, a, b, out, at),
        Node::NEXT..=Node::FINALLY => plain_one(nodes, a, k, out, at),
        _ => both_plain(nodes, a, b, k, out, at),
    }
}

// The negation of a node's formula in negation form.
#[cycle(both_negated_both_plain_differ_equal_negated_negated_one_negated_plain_not_weak_plain_plain_negated_plain_one)]
pub fn negated(nodes: &[u32], i: usize, out: &mut [u32], at: usize) -> Option<usize>
    requires { Ready nodes.now i out.old at }
    ensures { Wrote result (negated' (tree_at nodes.now i)) out.old out.new at }
{
    let node = fields_at(nodes, i);
    let k = node.kind;
    let a = node.first;
    let b = node.second;
    // An arm for each kind, with the operands that its function takes: a table of functions would need one type for all.
    match k {
        Node::TRUE => constant(Node::FALSE, out, at),
        Node::FALSE => constant(Node::TRUE, out, at),
        Node::SIGNAL => not_signal(a, out, at),
        Node::NOT => plain(nodes, a, out, at),
        Node::IMPLIES => plain_negated(nodes, a, b, Node::AND, out, at),
        Node::IFF => differ(nodes, a, b, out, at),
        Node::WEAK_UNTIL => not_weak(nodes, a, b, out, at),
        Node::NEXT..=Node::FINALLY => negated_one(nodes, a, dual(k), out, at),
        _ => both_negated(nodes, a, b, dual(k), out, at),
    }
}
