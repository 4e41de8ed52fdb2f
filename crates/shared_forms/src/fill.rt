// The needed forms put together, operands first, each by its recipe over what is noted of its operands' forms.
ghost use Rattle.std.specs.Prelude.{◌≡◌, ◌*◌, ◌<◌, ◌≤◌, length};
ghost use Rattle.node.specs.Limits.{max_nodes, field_limit};
ghost use Rattle.node.specs.Kinds.{kind_count};
ghost use Rattle.node.specs.Table.{root};
ghost use Rattle.forms.specs.Forms.{form as form'};
ghost use Rattle.shared_forms.specs.Templates.{recipes as recipes'};
ghost use Rattle.shared_forms.specs.Building.{word_over, Steppable, Steps, Building, Composable, Composes, NotesForm};
ghost use Rattle.shared_forms.specs.Promise.{Builds};

use crate::mark::{is_operand, place_of};
use crate::recipes::{Step, TABLE_BYTES, count_at, source_at, step_at};
use basics::either;
use node::{MAX_NODES, Node};
use shared_table::put;

// The parts of a recipe, at least as many as any has.
const PARTS: usize = 16;

// The word of a node with the signal's number, or over operands whose numbers plus 1 are m and n. It asks for numbers that fields hold.
fn word_over(kind: u32, own: usize, m: usize, n: usize) -> u32
    requires { (kind < kind_count) × ((own < field_limit) × (((1 ≤ m) × (m ≤ max_nodes)) × ((1 ≤ n) × (n ≤ max_nodes)))) }
    ensures { result ≡ word_over kind own m n }
{
    let operand = either(kind < Node::NOT, own as u32, (m - 1) as u32);
    let first = either(kind < Node::SIGNAL, 0, operand);
    let second = either(Node::has_two(kind), (n - 1) as u32, 0);
    let node = Node::binary(kind, first, second);
    node.word
}

// The number plus 1 of a recipe's part: what is noted of an operand's form, or a node that is put.
fn part(
    step: Step,
    first: usize,
    second: usize,
    numbers: &[usize; PARTS],
    notes: &[u32],
    out: &mut [u32],
) -> usize
    requires { Steppable step.kind step.first step.second first second numbers.now notes.now out.old }
    ensures { Steps step.kind step.first step.second first second numbers.now notes.now out.old out.new result }
{
    let kind = step.kind;
    let a = step.first;
    let b = step.second;
    if is_operand(kind, a) {
        let place = place_of(first, second, a);
        return notes[place] as usize;
    }
    let word = word_over(kind, first, numbers[a], numbers[b]);
    put(out, word)
}

// The form at x, which is needed, part by part.
fn compose(
    nodes: &[u32],
    form: u32,
    x: usize,
    recipes: &[u8; TABLE_BYTES],
    notes: &[u32],
    out: &mut [u32],
) -> usize
    requires { (recipes.now ≡ recipes') × Composable form nodes.now x notes.now out.old }
    ensures { Composes form nodes.now x notes.now out.old out.new result }
{
    let source = source_at(nodes, form, x);
    let row = source.row;
    let first = source.first;
    let second = source.second;
    let count = count_at(recipes, row);
    let mut numbers: [usize; PARTS] = [1; PARTS];
    for j in 0..count {
        let step = step_at(recipes, row, j);
        let r = part(step, first, second, &numbers, notes, out);
        if MAX_NODES < r {
            return r;
        }
        numbers[j] = r;
    }
    let last = count - 1;
    numbers[last]
}

// The form at x, if it is needed, put together and noted.
fn note_form(
    nodes: &[u32],
    form: u32,
    x: usize,
    recipes: &[u8; TABLE_BYTES],
    notes: &mut [u32],
    out: &mut [u32],
) -> usize
    requires { (recipes.now ≡ recipes') × ((x < 2 * length nodes.now) × Building form nodes.now x notes.old out.old) }
    ensures { NotesForm form nodes.now x notes.new out.old out.new result }
{
    if notes[x] == 0 {
        return 0;
    }
    let r = compose(nodes, form, x, recipes, notes, out);
    if MAX_NODES < r {
        return r;
    }
    notes[x] = r as u32;
    r
}

// All that are needed. It yields the number plus 1 of the root's form, or more than the most nodes where there is no room.
pub fn fill(
    nodes: &[u32],
    form: u32,
    recipes: &[u8; TABLE_BYTES],
    notes: &mut [u32],
    out: &mut [u32],
) -> usize
    requires { (recipes.now ≡ recipes') × Building form nodes.now 0 notes.old out.old }
    ensures { Builds (form' form (root nodes.now)) out.old out.new result }
{
    for x in 0..2 * nodes.len() {
        let r = note_form(nodes, form, x, recipes, notes, out);
        if MAX_NODES < r {
            return r;
        }
    }
    notes[2 * (nodes.len() - 1)] as usize
}
