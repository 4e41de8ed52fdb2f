// Form 2, core form (document 01, 'Forms'): only true, signals, `!`, `||`, X and U, by Appendix A.1's derivations.
ghost use Rattle.std.specs.Prelude.{◌≡◌, max};
ghost use Rattle.node.specs.Ltl.{Not, One, Two, Or, U};
ghost use Rattle.node.specs.Table.{tree_at};
ghost use Rattle.forms.specs.Forms.{core as core', both_of, implies_of, finally_of, globally_of};
ghost use Rattle.form_writers.specs.Writing.{base_kind, Wrote, Ready, IsUnary, IsBinary, unary_of, binary_of};

use crate::write::{fields_at, join_not, not_true};
use node::Node;
use storing::{cap, constant, join, signal};

// An operand below an operator of one operand.
#[cycle(core_core_both_core_one_dual_equal_finally_globally_implies_inner_not_implies_weak)]
fn core_one(nodes: &[u32], i: usize, op: u32, out: &mut [u32], at: usize) -> Option<usize>
    requires ready { Ready nodes.now i out.old at }
    requires unary { IsUnary op }
    ensures { Wrote result (One (unary_of op) (core' (tree_at nodes.now i))) out.old out.new at }
{
    let m = core(nodes, i, out, at)?;
    cap(op, m, out)
}

// Two operands below an operator of two: a part of its callers, since a call more at each level would double the deepest tables' stack.
#[inline(always)]
#[cycle(core_core_both_core_one_dual_equal_finally_globally_implies_inner_not_implies_weak)]
fn core_both(
    nodes: &[u32],
    a: usize,
    b: usize,
    op: u32,
    out: &mut [u32],
    at: usize,
) -> Option<usize>
    requires ready { Ready nodes.now (max a b) out.old at }
    requires binary { IsBinary op }
    ensures { Wrote result (Two (binary_of op) (core' (tree_at nodes.now a)) (core' (tree_at nodes.now b))) out.old out.new at }
{
    let m = core(nodes, a, out, at)?;
    let n = core(nodes, b, out, m)?;
    join(op, m, n, out)
}

// What && and R become with: || for &&, U for R.
fn base(kind: u32) -> u32
    ensures { result ≡ base_kind kind }
{
    if kind == Node::AND {
        Node::OR
    } else {
        Node::UNTIL
    }
}

// !(!a op !b): what && and R become with || and U
#[cycle(core_core_both_core_one_dual_equal_finally_globally_implies_inner_not_implies_weak)]
fn dual(nodes: &[u32], a: usize, b: usize, op: u32, out: &mut [u32], at: usize) -> Option<usize>
    requires ready { Ready nodes.now (max a b) out.old at }
    requires binary { IsBinary op }
    ensures { Wrote result (One Not (Two (binary_of op) (One Not (core' (tree_at nodes.now a))) (One Not (core' (tree_at nodes.now b))))) out.old out.new at }
{
    let m = core_one(nodes, a, Node::NOT, out, at)?;
    let n = core_one(nodes, b, Node::NOT, out, m)?;
    join_not(op, m, n, out)
}

// a -> b: !a || b
// A part of its callers, since a call more at each level of `equal` would make the deepest tables' stack two thirds larger.
#[inline(always)]
#[cycle(core_core_both_core_one_dual_equal_finally_globally_implies_inner_not_implies_weak)]
fn implies(nodes: &[u32], a: usize, b: usize, out: &mut [u32], at: usize) -> Option<usize>
    requires { Ready nodes.now (max a b) out.old at }
    ensures { Wrote result (implies_of (core' (tree_at nodes.now a)) (core' (tree_at nodes.now b))) out.old out.new at }
{
    let m = core_one(nodes, a, Node::NOT, out, at)?;
    let n = core(nodes, b, out, m)?;
    join(Node::OR, m, n, out)
}

// !(a -> b)
// A part of `equal`, for the same reason as `implies`.
#[inline(always)]
#[cycle(core_core_both_core_one_dual_equal_finally_globally_implies_inner_not_implies_weak)]
fn not_implies(nodes: &[u32], a: usize, b: usize, out: &mut [u32], at: usize) -> Option<usize>
    requires { Ready nodes.now (max a b) out.old at }
    ensures { Wrote result (One Not (implies_of (core' (tree_at nodes.now a)) (core' (tree_at nodes.now b)))) out.old out.new at }
{
    let m = implies(nodes, a, b, out, at)?;
    cap(Node::NOT, m, out)
}

// a <-> b: !(!(a -> b) || !(b -> a))
// No part of `inner`, since its two copies of `implies` would make the frame of every kind a quarter larger.
#[inline(never)]
#[cycle(core_core_both_core_one_dual_equal_finally_globally_implies_inner_not_implies_weak)]
fn equal(nodes: &[u32], a: usize, b: usize, out: &mut [u32], at: usize) -> Option<usize>
    requires { Ready nodes.now (max a b) out.old at }
    ensures { Wrote result (both_of (implies_of (core' (tree_at nodes.now a)) (core' (tree_at nodes.now b)))
        (implies_of (core' (tree_at nodes.now b)) (core' (tree_at nodes.now a)))) out.old out.new at }
{
    let m = not_implies(nodes, a, b, out, at)?;
    let n = not_implies(nodes, b, a, out, m)?;
    join_not(Node::OR, m, n, out)
}

// F a: true U a
#[cycle(core_core_both_core_one_dual_equal_finally_globally_implies_inner_not_implies_weak)]
fn finally(nodes: &[u32], i: usize, out: &mut [u32], at: usize) -> Option<usize>
    requires { Ready nodes.now i out.old at }
    ensures { Wrote result (finally_of (core' (tree_at nodes.now i))) out.old out.new at }
{
    let m = constant(Node::TRUE, out, at)?;
    let n = core(nodes, i, out, m)?;
    join(Node::UNTIL, m, n, out)
}

// G a: !(true U !a)
#[cycle(core_core_both_core_one_dual_equal_finally_globally_implies_inner_not_implies_weak)]
fn globally(nodes: &[u32], i: usize, out: &mut [u32], at: usize) -> Option<usize>
    requires { Ready nodes.now i out.old at }
    ensures { Wrote result (globally_of (core' (tree_at nodes.now i))) out.old out.new at }
{
    let m = constant(Node::TRUE, out, at)?;
    let n = core_one(nodes, i, Node::NOT, out, m)?;
    join_not(Node::UNTIL, m, n, out)
}

// a W b: (a U b) || G a
#[cycle(core_core_both_core_one_dual_equal_finally_globally_implies_inner_not_implies_weak)]
fn weak(nodes: &[u32], a: usize, b: usize, out: &mut [u32], at: usize) -> Option<usize>
    requires { Ready nodes.now (max a b) out.old at }
    ensures { Wrote result (Two Or (Two U (core' (tree_at nodes.now a)) (core' (tree_at nodes.now b))) (globally_of (core' (tree_at nodes.now a)))) out.old
        out.new at }
{
    let m = core_both(nodes, a, b, Node::UNTIL, out, at)?;
    let n = globally(nodes, a, out, m)?;
    join(Node::OR, m, n, out)
}

// A node's formula in core form. A signal is told by one test, before the jump by kind: about half of a tree's nodes are leaves.
#[cycle(core_core_both_core_one_dual_equal_finally_globally_implies_inner_not_implies_weak)]
pub fn core(nodes: &[u32], i: usize, out: &mut [u32], at: usize) -> Option<usize>
    requires { Ready nodes.now i out.old at }
    ensures { Wrote result (core' (tree_at nodes.now i)) out.old out.new at }
{
    let node = fields_at(nodes, i);
    if node.kind == Node::SIGNAL {
        return signal(node.first, out, at);
    }
    inner(nodes, i, out, at)
}

// The same by the node's kind. `core` has written a signal by then; its arm stands here since the contract is of every node. It is no part of `core`, which so writes
// a signal before it saves any register.
#[inline(never)]
#[cycle(core_core_both_core_one_dual_equal_finally_globally_implies_inner_not_implies_weak)]
fn inner(nodes: &[u32], i: usize, out: &mut [u32], at: usize) -> Option<usize>
    requires { Ready nodes.now i out.old at }
    ensures { Wrote result (core' (tree_at nodes.now i)) out.old out.new at }
{
    let node = fields_at(nodes, i);
    let k = node.kind;
    let a = node.first;
    let b = node.second;
    // An arm for each kind, with the operands that its function takes: a table of functions would need one type for all.
    match k {
        Node::TRUE => constant(Node::TRUE, out, at),
        Node::FALSE => not_true(out, at),
        Node::SIGNAL => signal(a, out, at),
        Node::NOT | Node::NEXT => core_one(nodes, a, k, out, at),
        Node::AND | Node::RELEASE => dual(nodes, a, b, base(k), out, at),
        Node::OR | Node::UNTIL => core_both(nodes, a, b, k, out, at),
        Node::IMPLIES => implies(nodes, a, b, out, at),
        Node::IFF => equal(nodes, a, b, out, at),
        Node::GLOBALLY => globally(nodes, a, out, at),
        Node::FINALLY => finally(nodes, a, out, at),
        Node::WEAK_UNTIL => weak(nodes, a, b, out, at),
        _ => unreachable!(),
    }
}
