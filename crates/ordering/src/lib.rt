// The formula of one node of a table written into a shared table, each distinct subformula once, at its first place in postorder (specs/Ordering). The table may be any
// of the format: its nodes shared, equal, unreached, in any order. Nothing here calls itself: neither stack nor time follow the formula's tree.
// The functions ask for a table that has passed the check and for an array that holds a shared one: they are no entry points, and their callers have made sure of both.
#![tactic(auto)]

ghost use Rattle.std.specs.Prelude.{◌≡◌};
ghost use Rattle.ordering.specs.Ordering.{arity_of, next_of, Readable, Orderable, Orders};

use node::{MAX_NODES, Node};
use shared_table::put;

// What comes next at a node: an operand that has no number yet, or the node's word over its operands' numbers.
#[derive(Clone, Copy)]
enum Next {
    Operand(usize),
    Word(u32),
}

// How many operands a kind has.
fn arity(kind: u32) -> u32
    ensures { result ≡ arity_of kind }
{
    if kind < Node::NOT {
        return 0;
    }
    if Node::has_two(kind) {
        return 2;
    }
    1
}

// What comes next at a node with this word, where `memo` has the numbers plus 1 of the nodes that are written.
fn next_of(word: u32, memo: &[u16; MAX_NODES]) -> Next
    requires { Readable memo.now word }
    ensures { result ≡ next_of memo.now word }
{
    let node = Node { word };
    let kind = node.kind();
    let a = node.first() as usize;
    let b = node.second() as usize;
    let operands = arity(kind);
    if operands == 0 {
        return Next::Word(word);
    }
    let first = u32::from(memo[a]);
    if first == 0 {
        return Next::Operand(a);
    }
    if operands == 1 {
        return Next::Word(Node::unary(kind, first - 1).word);
    }
    let second = u32::from(memo[b]);
    if second == 0 {
        return Next::Operand(b);
    }
    Next::Word(Node::binary(kind, first - 1, second - 1).word)
}

// The formula of node `root` written behind the table that `out` holds. It yields the number plus 1 of the formula's node, or more than `MAX_NODES` where there is no room.
// `waiting` has the nodes that wait for an operand: each is lower than the one before, so they are never more than the table's nodes.
pub fn order(nodes: &[u32], root: usize, out: &mut [u32]) -> usize
    requires { Orderable nodes.now root out.old }
    ensures { Orders nodes.now root out.old out.new result }
{
    let mut memo = [0u16; MAX_NODES];
    let mut waiting = [0u16; MAX_NODES];
    let mut depth = 0;
    let mut i = root;
    // From a node to its operand and back: no index counts.
    loop {
        let next = next_of(nodes[i], &memo);
        match next {
            Next::Operand(operand) => {
                waiting[depth] = i as u16;
                depth += 1;
                i = operand;
            }
            Next::Word(word) => {
                let written = put(out, word);
                if MAX_NODES < written {
                    return written;
                }
                if depth == 0 {
                    return written;
                }
                memo[i] = written as u16;
                depth -= 1;
                i = usize::from(waiting[depth]);
            }
        }
    }
}
