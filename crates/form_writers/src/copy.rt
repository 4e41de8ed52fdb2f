// Form 0 (document 01, 'Forms'): the root's tree written out as it is.
ghost use Rattle.std.specs.Prelude.{max};
ghost use Rattle.node.specs.Ltl.{One, Two};
ghost use Rattle.node.specs.Table.{tree_at};
ghost use Rattle.form_writers.specs.Writing.{Wrote, Ready, IsUnary, IsBinary, unary_of, binary_of};

use crate::write::fields_at;
use node::Node;
use storing::{cap, constant, join, signal};

// An operand below an operator of one operand.
#[cycle(copy_copy_both_copy_one)]
fn copy_one(nodes: &[u32], i: usize, op: u32, out: &mut [u32], at: usize) -> Option<usize>
    requires ready { Ready nodes.now i out.old at }
    requires unary { IsUnary op }
    ensures { Wrote result (One (unary_of op) ((tree_at nodes.now i))) out.old out.new at }
{
    let m = copy(nodes, i, out, at)?;
    cap(op, m, out)
}

// Two operands below an operator of two.
#[cycle(copy_copy_both_copy_one)]
fn copy_both(
    nodes: &[u32],
    a: usize,
    b: usize,
    op: u32,
    out: &mut [u32],
    at: usize,
) -> Option<usize>
    requires ready { Ready nodes.now (max a b) out.old at }
    requires binary { IsBinary op }
    ensures { Wrote result (Two (binary_of op) ((tree_at nodes.now a)) ((tree_at nodes.now b))) out.old out.new at }
{
    let m = copy(nodes, a, out, at)?;
    let n = copy(nodes, b, out, m)?;
    join(op, m, n, out)
}

// A node's formula.
#[cycle(copy_copy_both_copy_one)]
pub fn copy(nodes: &[u32], i: usize, out: &mut [u32], at: usize) -> Option<usize>
    requires { Ready nodes.now i out.old at }
    ensures { Wrote result (tree_at nodes.now i) out.old out.new at }
{
    let node = fields_at(nodes, i);
    let k = node.kind;
    let a = node.first;
    let b = node.second;
    // An arm for each kind, with the operands that its function takes: a table of functions would need one type for all.
    match k {
        Node::TRUE => constant(Node::TRUE, out, at),
        Node::FALSE => constant(Node::FALSE, out, at),
        Node::SIGNAL => signal(a, out, at),
        Node::NOT => copy_one(nodes, a, Node::NOT, out, at),
        Node::NEXT..=Node::FINALLY => copy_one(nodes, a, k, out, at),
        _ => copy_both(nodes, a, b, k, out, at),
    }
}
