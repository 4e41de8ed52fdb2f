// Nodes that stand in a table, again at another place, their operands' numbers moved with them.
ghost use Rattle.std.specs.Prelude.{◌≡◌, ◌+◌, ◌<◌, ◌≤◌, length};
ghost use Rattle.std.proofs.lemmas.List.Edits.{sets};
ghost use Rattle.node.specs.Limits.{max_nodes, field_limit, kind_limit};
ghost use Rattle.node.specs.Kinds.{shape_of};
ghost use Rattle.writing.specs.Moving.{weight as weight', moved as moved'};
ghost use Rattle.writing.specs.Parts.{moves};
ghost use Rattle.writing.specs.Writing.{Puts};

use crate::{TOO_MANY, put};
use node::{FIELD_LIMIT, MAX_NODES, Node};

// By how much a node's word grows where its operands' numbers grow by one: in the first field, in both.
const FIRST: u32 = FIELD_LIMIT;

const BOTH: u32 = FIELD_LIMIT + 1;

// The same for each kind.
const WEIGHTS: [u32; 16] = [
    0, 0, 0, FIRST, BOTH, BOTH, BOTH, BOTH, FIRST, FIRST, FIRST, BOTH, BOTH, BOTH, 0, 0,
];

fn weight(kind: u32) -> u32
    requires { kind < kind_limit }
    ensures { result ≡ weight' (shape_of kind) }
{
    WEIGHTS[kind as usize]
}

// The node with its operands numbered from `to` on where they were numbered from `from` on, both as large as a field can hold.
fn moved(word: u32, from: u32, to: u32) -> u32
    requires { (from < field_limit) × (to < field_limit) }
    ensures { result ≡ moved' from to word }
{
    let w = weight(Node { word }.kind());
    word - from * w + to * w
}

// The nodes [from, from + size) again at `at`, moved. They lie in the table and before `at`, so that none is written over before it is read.
pub fn copy(from: usize, size: usize, at: usize, out: &mut [u32; MAX_NODES]) -> usize
    requires { (from + size ≤ max_nodes) × (from + size ≤ at) }
    ensures { Puts (moves from at size out.old) out.old out.new at result }
{
    if MAX_NODES - size < at {
        return TOO_MANY;
    }
    for i in 0..size {
        let word = moved(out[from + i], from as u32, at as u32);
        put(out, at + i, word);
    }
    at + size
}

// The nodes [from, from + size) of a table at `at` in another, moved. They lie in the table.
pub fn copy_from(
    table: &[u32; MAX_NODES],
    from: usize,
    size: usize,
    at: usize,
    out: &mut [u32; MAX_NODES],
) -> usize
    requires { from + size ≤ max_nodes }
    ensures { Puts (moves from at size table.now) out.old out.new at result }
{
    if MAX_NODES - size < at {
        return TOO_MANY;
    }
    for i in 0..size {
        let word = moved(table[from + i], from as u32, at as u32);
        put(out, at + i, word);
    }
    at + size
}

// The nodes [from, from + size) of a table moved into a lent slice, from `at` on. They lie in the table, and there is room for them: the caller has counted the whole.
pub fn copy_out(table: &[u32; MAX_NODES], from: usize, size: usize, res: &mut [u32], at: usize)
    requires { (from + size ≤ max_nodes) × ((at + size ≤ max_nodes) × (at + size ≤ length res.old)) }
    ensures { res.new ≡ sets res.old at (moves from at size table.now) }
{
    for i in 0..size {
        let word = moved(table[from + i], from as u32, at as u32);
        res[at + i] = word;
    }
}
