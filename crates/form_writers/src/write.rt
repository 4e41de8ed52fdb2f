// How nodes are read, and the formulas of two nodes: a node's fields; an operator or a leaf below a `!`.
ghost use Rattle.std.specs.Prelude.{◌∷◌, [], ◌-◌, ◌<◌, ◌≤◌, length};
ghost use Rattle.node.specs.Limits.{field_limit, kind_limit};
ghost use Rattle.node.specs.Ltl.{True, Signal, One, Not};
ghost use Rattle.node.specs.Fields.{pack};
ghost use Rattle.node.specs.Kinds.{shape_of, unary_kind};
ghost use Rattle.node.specs.Formed.{Formed, NodeIs};
ghost use Rattle.form_writers.specs.Writing.{Puts, Wrote, Room};

use node::Node;
use storing::{cap, constant, join, signal};

// An operator whose operands are the nodes before m and before n, below a `!`.
pub fn join_not(op: u32, m: usize, n: usize, out: &mut [u32]) -> Option<usize>
    requires { (op < kind_limit) × ((1 ≤ m) × ((m ≤ n) × Room out.old n)) }
    ensures { Puts result (pack op (m - 1) (n - 1) ∷ pack (unary_kind Not) n 0 ∷ []) out.old out.new n }
{
    let k = join(op, m, n, out)?;
    cap(Node::NOT, k, out)
}

// A node's fields, the operands as indices.
#[derive(Clone, Copy)]
pub struct Fields {
    pub kind: u32,
    pub first: usize,
    pub second: usize,
}

pub fn fields_at(nodes: &[u32], i: usize) -> Fields
    requires { Formed field_limit nodes.now × (i < length nodes.now) }
    ensures { NodeIs field_limit nodes.now i (shape_of result.kind) result.first result.second }
{
    let node = Node { word: nodes[i] };
    Fields {
        kind: node.kind(),
        first: node.first() as usize,
        second: node.second() as usize,
    }
}

// !true, the core form of false
pub fn not_true(out: &mut [u32], at: usize) -> Option<usize>
    requires { Room out.old at }
    ensures { Wrote result (One Not True) out.old out.new at }
{
    let m = constant(Node::TRUE, out, at)?;
    cap(Node::NOT, m, out)
}

// ! and a signal.
pub fn not_signal(k: usize, out: &mut [u32], at: usize) -> Option<usize>
    requires { (k < field_limit) × Room out.old at }
    ensures { Wrote result (One Not (Signal k)) out.old out.new at }
{
    let m = signal(k, out, at)?;
    cap(Node::NOT, m, out)
}
