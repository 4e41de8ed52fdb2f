// Which forms are needed, from the root downwards: operands have smaller numbers, so one pass is enough.
ghost use Rattle.std.specs.Prelude.{◌≡◌, ◌&&◌, ◌+◌, ◌*◌, ◌<◌, eqb, ltb, length};
ghost use Rattle.node.specs.Limits.{field_limit};
ghost use Rattle.node.specs.Kinds.{signal_kind};
ghost use Rattle.shared_forms.specs.Templates.{recipes as recipes'};
ghost use Rattle.shared_forms.specs.Forming.{operand_place, Notable, Notes, Marking};

use crate::recipes::{Step, TABLE_BYTES, count_at, source_at, step_at};
use node::Node;

// The first signal of a template that stands for no operand's form.
const ITSELF: usize = 4;

// The first signal that stands for a form of the second operand.
const SECOND: usize = 2;

// Does a recipe's node stand for an operand's form?
pub fn is_operand(kind: u32, first: usize) -> bool
    ensures { result ≡ (eqb kind signal_kind && ltb first 4) }
{
    (kind == Node::SIGNAL) & (first < ITSELF)
}

// Where the form is noted that a template's signal stands for.
pub fn place_of(first: usize, second: usize, signal: usize) -> usize
    requires { (first < field_limit) × (second < field_limit) }
    ensures { result ≡ operand_place first second signal }
{
    if signal < SECOND {
        return 2 * first + signal % 2;
    }
    2 * second + signal % 2
}

// Notes that an operand's form is needed, if the recipe's node stands for one.
fn note(step: Step, first: usize, second: usize, notes: &mut [u32])
    requires { Notable step.kind step.first first second notes.old }
    ensures { Notes step.kind step.first first second notes.old notes.new }
{
    if is_operand(step.kind, step.first) {
        let place = place_of(first, second, step.first);
        notes[place] = 1;
    }
}

// If the form at x is needed, so are the operands' forms that its recipe stands for.
fn ask(nodes: &[u32], form: u32, x: usize, recipes: &[u8; TABLE_BYTES], notes: &mut [u32])
    requires { (recipes.now ≡ recipes') × ((x < 2 * length nodes.now) × Marking form nodes.now (x + 1) notes.old) }
    ensures { Marking form nodes.now x notes.new }
{
    if notes[x] == 0 {
        return;
    }
    let source = source_at(nodes, form, x);
    let row = source.row;
    let first = source.first;
    let second = source.second;
    let count = count_at(recipes, row);
    for j in 0..count {
        let step = step_at(recipes, row, j);
        note(step, first, second, notes);
    }
}

// All that are needed, where the root's form is noted as such.
pub fn mark(nodes: &[u32], form: u32, recipes: &[u8; TABLE_BYTES], notes: &mut [u32])
    requires { (recipes.now ≡ recipes') × Marking form nodes.now (2 * length nodes.now) notes.old }
    ensures { Marking form nodes.now 0 notes.new }
{
    let mut x = 2 * nodes.len();
    while 0 < x {
        x -= 1;
        ask(nodes, form, x, recipes, notes);
    }
}
