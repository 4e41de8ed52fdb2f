// The way from a table's root to its lines by operands, and where their rows are false (document 02, F-7): what the naming of a line is made of. Rows are those of the
// evaluator, so their callers know that a row has at most 256 bytes and a position is below 2,048.
#![tactic(auto)]

ghost use Rattle.std.specs.Prelude.{◌≡◌, ◌≤◌, ◌<◌, not, ◌||◌};
ghost use Rattle.faults.specs.Naming.{broken_from};
ghost use Rattle.recordings.specs.Limits.{max_positions};
ghost use Rattle.rows.specs.Memory.{row_bytes};
ghost use Rattle.line_search.specs.Walking.{operand_of, walked, value_of, seen, or_end};

use basics::either;
use bits::get_bit;
use node::Node;

// An operand of node i, the second or the first; 0 where there is no node i.
pub fn operand(nodes: &[u32], i: u32, second: bool) -> u32
    ensures { result ≡ operand_of nodes.now i second }
{
    let at = i as usize;
    if nodes.len() <= at {
        return 0;
    }
    let node = Node { word: nodes[at] };
    if second {
        return node.second();
    }
    node.first()
}

// The node at the end of a path of operands: a step for each bit, from the least significant on, to the second operand for a 1.
pub fn walk(nodes: &[u32], from: u32, path: u32, steps: u32) -> u32
    ensures { result ≡ walked nodes.now path steps from }
{
    let mut i = from;
    let mut rest = path;
    for _left in (0..steps).rev() {
        i = operand(nodes, i, rest % 2 == 1);
        rest /= 2;
    }
    i
}

// The value of node i at position p, in rows of `width` bytes; false past the rows.
pub fn value(rows: &[u8], width: usize, i: u32, p: usize) -> bool
    requires { (width ≤ row_bytes) × (p < max_positions) }
    ensures { result ≡ value_of rows.now width i p }
{
    let at = 8 * (width * (i as usize)) + p;
    if rows.len() <= at / 8 {
        return false;
    }
    get_bit(rows, at)
}

// The first of a section's lines that is false at p, or 0: the section's node is its lines folded with `&&`, the last line on the outside.
pub fn first_false(
    nodes: &[u32],
    rows: &[u8],
    width: usize,
    section: u32,
    count: u32,
    p: usize,
) -> u32
    requires { (width ≤ row_bytes) × (p < max_positions) }
    ensures { result ≡ seen nodes.now (λ i. value_of rows.now width i p) section count 0 }
{
    if count == 0 {
        return 0;
    }
    let mut found = 0;
    let mut i = section;
    for k in (1..count).rev() {
        let last = operand(nodes, i, true);
        found = either(value(rows, width, last, p), found, k + 1);
        i = operand(nodes, i, false);
    }
    either(value(rows, width, i, p), found, 1)
}

// Strict: is REQUIRE true at p?
pub fn required(rows: &[u8], width: usize, strict: bool, require: u32, p: usize) -> bool
    requires { (width ≤ row_bytes) × (p < max_positions) }
    ensures { result ≡ (not strict || value_of rows.now width require p) }
{
    !strict || value(rows, width, require, p)
}

// The smallest position where ASSERT is broken, strict: with REQUIRE true up to it; n if there is none.
pub fn broken(rows: &[u8], width: usize, strict: bool, require: u32, assert: u32, n: usize) -> usize
    requires { (width ≤ row_bytes) × (n ≤ max_positions) }
    ensures { result ≡ or_end n (broken_from strict (value_of rows.now width require) (value_of rows.now width assert) 0 n) }
{
    for p in 0..n {
        if !required(rows, width, strict, require, p) {
            return n;
        }
        if !value(rows, width, assert, p) {
            return p;
        }
    }
    n
}
