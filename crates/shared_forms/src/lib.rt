// The root of a table in one of its forms (document 01, 'Forms') as a table in which each distinct subformula stands once (document 02, F-10). Neither time nor memory follow
// the tree, which a table can make larger than any number that a machine counts: a node's form is put together once, and its negation, where it is needed, once more. The nodes
// are not in postorder yet.
#![tactic(auto)]

pub mod fill;
pub mod mark;
pub mod recipes;

ghost use Rattle.std.specs.Prelude.{[], ◌*◌, ◌≤◌, length};
ghost use Rattle.node.specs.Limits.{max_nodes, field_limit};
ghost use Rattle.node.specs.Table.{root};
ghost use Rattle.node.specs.Formed.{Formed};
ghost use Rattle.forms.specs.Forms.{form as form'};
ghost use Rattle.shared_table.specs.Shared.{Shares};
ghost use Rattle.shared_forms.specs.Building.{small_table, Blank, Begun};
ghost use Rattle.shared_forms.specs.Promise.{Builds};

use node::MAX_NODES;

// A note for each form of each node: for the largest table, and for a small one, which takes less time to clear.
const NOTES: usize = 2 * MAX_NODES;

const SMALL_TABLE: usize = 256;

const SMALL_NOTES: usize = 2 * SMALL_TABLE;

// No form is needed yet.
fn blank() -> [u32; NOTES]
    ensures { Blank (2 * max_nodes) result }
{
    [0; NOTES]
}

fn small_blank() -> [u32; SMALL_NOTES]
    ensures { Blank (2 * small_table) result }
{
    [0; SMALL_NOTES]
}

// The root's form by way of these notes.
fn build_by(nodes: &[u32], form: u32, notes: &mut [u32], out: &mut [u32]) -> usize
    requires { Begun nodes.now notes.old out.old }
    ensures { Builds (form' form (root nodes.now)) out.old out.new result }
{
    let recipes = recipes::recipes();
    let top = 2 * (nodes.len() - 1);
    notes[top] = 1;
    mark::mark(nodes, form, &recipes, notes);
    fill::fill(nodes, form, &recipes, notes, out)
}

fn build_small(nodes: &[u32], form: u32, out: &mut [u32]) -> usize
    requires { (Formed field_limit nodes.now × Shares out.old []) × (length nodes.now ≤ small_table) }
    ensures { Builds (form' form (root nodes.now)) out.old out.new result }
{
    let mut notes = small_blank();
    build_by(nodes, form, &mut notes, out)
}

// The root's form, put into `out`: the number of its node plus 1, or more than the most nodes where `out` has too little room. It asks for a table that has passed the check, and
// for an array that holds no node yet.
pub fn build(nodes: &[u32], form: u32, out: &mut [u32]) -> usize
    requires { Formed field_limit nodes.now × Shares out.old [] }
    ensures { Builds (form' form (root nodes.now)) out.old out.new result }
{
    if nodes.len() <= SMALL_TABLE {
        return build_small(nodes, form, out);
    }
    let mut notes = blank();
    build_by(nodes, form, &mut notes, out)
}
