// The one writer of nodes: the reader's formulas and the rewriter's forms are written word by word through it. A formula's nodes stand in postorder, and
// crate node's specs/Written has their names.
// The functions write to `out` from an index on, as far as `out` reaches. They yield the next index, or none where there is no room. They ask for an index
// within `out` and for at most 8,192 entries: their callers have made sure of both.
#![tactic(auto)]

ghost use Rattle.std.specs.Prelude.{◌∷◌, [], ◌-◌, ◌<◌, ◌≤◌};
ghost use Rattle.node.specs.Limits.{field_limit, kind_limit};
ghost use Rattle.node.specs.Ltl.{Signal};
ghost use Rattle.node.specs.Fields.{pack};
ghost use Rattle.node.specs.Kinds.{signal_kind};
ghost use Rattle.storing.specs.Storing.{Puts, Wrote, Room, constant_of};

use node::Node;

// Stores a word at an index.
pub fn put(out: &mut [u32], at: usize, word: u32) -> Option<usize>
    requires { Room out.old at }
    ensures { Puts result (word ∷ []) out.old out.new at }
{
    if out.len() <= at {
        return None;
    }
    out[at] = word;
    Some(at + 1)
}

// Stores at m an operator whose operand is the node before.
pub fn cap(op: u32, m: usize, out: &mut [u32]) -> Option<usize>
    requires { (op < kind_limit) × ((1 ≤ m) × Room out.old m) }
    ensures { Puts result (pack op (m - 1) 0 ∷ []) out.old out.new m }
{
    let node = Node::unary(op, (m - 1) as u32);
    put(out, m, node.word)
}

// Stores at n an operator whose operands are the nodes before m and before n.
pub fn join(op: u32, m: usize, n: usize, out: &mut [u32]) -> Option<usize>
    requires { (op < kind_limit) × ((1 ≤ m) × ((m ≤ n) × Room out.old n)) }
    ensures { Puts result (pack op (m - 1) (n - 1) ∷ []) out.old out.new n }
{
    let node = Node::binary(op, (m - 1) as u32, (n - 1) as u32);
    put(out, n, node.word)
}

// true or false
pub fn constant(kind: u32, out: &mut [u32], at: usize) -> Option<usize>
    requires { (kind < signal_kind) × Room out.old at }
    ensures { Wrote result (constant_of kind) out.old out.new at }
{
    let node = Node::leaf(kind);
    put(out, at, node.word)
}

// A signal: its number fits the field.
pub fn signal(k: usize, out: &mut [u32], at: usize) -> Option<usize>
    requires { (k < field_limit) × Room out.old at }
    ensures { Wrote result (Signal k) out.old out.new at }
{
    let node = Node::unary(Node::SIGNAL, k as u32);
    put(out, at, node.word)
}
