// A finished node table with an X behind each late signal's node (document 001, 3.2, 'Conversion between system models'): one pass, every node once.
#![tactic(auto)]

ghost use Rattle.std.specs.Prelude.{◌≡◌, length, get_or};
ghost use Rattle.node.specs.Limits.{max_nodes};
ghost use Rattle.language.specs.Shifting.{is_output};
ghost use Rattle.writing.specs.Writing.{Puts};
ghost use Rattle.shifting.specs.Passing.{late_by, renumbered as renumbered', is_late, written, Numbers, Shifts};

use language::limits::{INDICES, OFFSETS, WIDTHS};
use node::{MAX_NODES, Node};
use writing::{TOO_MANY, put};

// Is signal k an output, by the flag above the other fields of its entry? One that the list does not have is none.
fn is_output(k: usize, list: &[u32]) -> bool
    ensures { result ≡ is_output list.now k }
{
    if k < list.len() {
        return 0 < list[k] / WIDTHS / INDICES / OFFSETS;
    }
    false
}

// Is it a late signal's node? The outputs are late, or the inputs.
fn is_late(word: u32, list: &[u32], outputs: bool) -> bool
    ensures { result ≡ is_late (late_by outputs list.now) word }
{
    let node = Node { word };
    if node.kind() != Node::SIGNAL {
        return false;
    }
    let output = is_output(node.first() as usize, list);
    if outputs { output } else { !output }
}

// The new number of a node, 0 for one that was not read. It asks for a table of full length, and `renumbered` for numbers that a node's field holds besides:
// `shift`, which alone calls them, keeps both.
fn number(k: u32, numbers: &[u32; MAX_NODES]) -> u32
    requires { length numbers.now ≡ max_nodes }
    ensures { result ≡ get_or numbers.now k 0 }
{
    let i = k as usize;
    if i < MAX_NODES {
        return numbers[i];
    }
    0
}

// A node with its operands' new numbers.
fn renumbered(word: u32, numbers: &[u32; MAX_NODES]) -> u32
    requires { Numbers numbers.now }
    ensures { result ≡ renumbered' numbers.now word }
{
    let node = Node { word };
    let kind = node.kind();
    if kind < Node::NOT {
        return word;
    }
    let first = number(node.first(), numbers);
    if Node::has_two(kind) {
        let second = number(node.second(), numbers);
        return Node::binary(kind, first, second).word;
    }
    Node::unary(kind, first).word
}

// A node, and an X behind it where it is late.
fn write(word: u32, late: bool, at: usize, out: &mut [u32; MAX_NODES]) -> usize
    ensures { Puts (written late at word) out.old out.new at result }
{
    let next = put(out, at, word);
    if late {
        if MAX_NODES <= at {
            return TOO_MANY;
        }
        return put(out, next, Node::unary(Node::NEXT, at as u32).word);
    }
    next
}

// The first m nodes of a table in another, with an X behind each node of an output, or of an input; 8,193 for what does not fit.
pub fn shift(
    table: &[u32; MAX_NODES],
    m: usize,
    list: &[u32],
    outputs: bool,
    out: &mut [u32; MAX_NODES],
) -> usize
    ensures { Shifts (late_by outputs list.now) table.now m out.old out.new result }
{
    if MAX_NODES < m {
        return TOO_MANY;
    }
    let mut numbers = [0u32; MAX_NODES];
    let mut at = 0;
    for (i, word) in table[..m].iter().enumerate() {
        let late = is_late(*word, list, outputs);
        at = write(renumbered(*word, &numbers), late, at, out);
        if MAX_NODES < at {
            return TOO_MANY;
        }
        numbers[i] = (at - 1) as u32;
    }
    at
}
