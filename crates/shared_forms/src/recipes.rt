// The recipes by which a node's form is put together, in a table by forms and kinds (specs/Templates).
ghost use Rattle.std.specs.Prelude.{◌≡◌, ◌+◌, ◌*◌, length};
ghost use Rattle.shared_forms.specs.Templates.{recipes as recipes', recipe, list_of};
ghost use Rattle.shared_forms.specs.Forming.{Row, Step as Step', StepIs, Place, SourceIs};

use forms::{AS_EXPANDED, NEGATION_FORM};
use node::{KINDS, Node};

// The rows of form 0, 1 and 2, then those of the negated half of form 1, one for each kind.
const ROWS: usize = KINDS as usize;

const AS_IS: usize = 0;

const PLAIN: usize = 1;

const CORE: usize = 2;

const NEGATED: usize = 3;

// A row: how many nodes, then for each of them its kind and its fields. Signals 0 and 1 stand for the first operand's forms, plain and negated, 2 and 3 for the second's, 4 for the
// node's own signal.
const ROW: usize = 32;

pub const TABLE_BYTES: usize = 1792;

const TABLE: [u8; TABLE_BYTES] = *b"\
    \x01\x00\x00\x00\0\0\0\0\0\0\0\0\0\0\0\0\0\0\0\0\0\0\0\0\0\0\0\0\0\0\0\0\
    \x01\x01\x00\x00\0\0\0\0\0\0\0\0\0\0\0\0\0\0\0\0\0\0\0\0\0\0\0\0\0\0\0\0\
    \x01\x02\x04\x00\0\0\0\0\0\0\0\0\0\0\0\0\0\0\0\0\0\0\0\0\0\0\0\0\0\0\0\0\
    \x02\x02\x00\x00\x03\x00\x00\0\0\0\0\0\0\0\0\0\0\0\0\0\0\0\0\0\0\0\0\0\0\0\0\0\
    \x03\x02\x00\x00\x02\x02\x00\x04\x00\x01\0\0\0\0\0\0\0\0\0\0\0\0\0\0\0\0\0\0\0\0\0\0\
    \x03\x02\x00\x00\x02\x02\x00\x05\x00\x01\0\0\0\0\0\0\0\0\0\0\0\0\0\0\0\0\0\0\0\0\0\0\
    \x03\x02\x00\x00\x02\x02\x00\x06\x00\x01\0\0\0\0\0\0\0\0\0\0\0\0\0\0\0\0\0\0\0\0\0\0\
    \x03\x02\x00\x00\x02\x02\x00\x07\x00\x01\0\0\0\0\0\0\0\0\0\0\0\0\0\0\0\0\0\0\0\0\0\0\
    \x02\x02\x00\x00\x08\x00\x00\0\0\0\0\0\0\0\0\0\0\0\0\0\0\0\0\0\0\0\0\0\0\0\0\0\
    \x02\x02\x00\x00\x09\x00\x00\0\0\0\0\0\0\0\0\0\0\0\0\0\0\0\0\0\0\0\0\0\0\0\0\0\
    \x02\x02\x00\x00\x0a\x00\x00\0\0\0\0\0\0\0\0\0\0\0\0\0\0\0\0\0\0\0\0\0\0\0\0\0\
    \x03\x02\x00\x00\x02\x02\x00\x0b\x00\x01\0\0\0\0\0\0\0\0\0\0\0\0\0\0\0\0\0\0\0\0\0\0\
    \x03\x02\x00\x00\x02\x02\x00\x0c\x00\x01\0\0\0\0\0\0\0\0\0\0\0\0\0\0\0\0\0\0\0\0\0\0\
    \x03\x02\x00\x00\x02\x02\x00\x0d\x00\x01\0\0\0\0\0\0\0\0\0\0\0\0\0\0\0\0\0\0\0\0\0\0\
    \x01\x00\x00\x00\0\0\0\0\0\0\0\0\0\0\0\0\0\0\0\0\0\0\0\0\0\0\0\0\0\0\0\0\
    \x01\x01\x00\x00\0\0\0\0\0\0\0\0\0\0\0\0\0\0\0\0\0\0\0\0\0\0\0\0\0\0\0\0\
    \x01\x02\x04\x00\0\0\0\0\0\0\0\0\0\0\0\0\0\0\0\0\0\0\0\0\0\0\0\0\0\0\0\0\
    \x01\x02\x01\x00\0\0\0\0\0\0\0\0\0\0\0\0\0\0\0\0\0\0\0\0\0\0\0\0\0\0\0\0\
    \x03\x02\x00\x00\x02\x02\x00\x04\x00\x01\0\0\0\0\0\0\0\0\0\0\0\0\0\0\0\0\0\0\0\0\0\0\
    \x03\x02\x00\x00\x02\x02\x00\x05\x00\x01\0\0\0\0\0\0\0\0\0\0\0\0\0\0\0\0\0\0\0\0\0\0\
    \x03\x02\x01\x00\x02\x02\x00\x05\x00\x01\0\0\0\0\0\0\0\0\0\0\0\0\0\0\0\0\0\0\0\0\0\0\
    \x07\x02\x00\x00\x02\x02\x00\x04\x00\x01\x02\x01\x00\x02\x03\x00\x04\x03\x04\x05\x02\x05\0\0\0\0\0\0\0\0\0\0\
    \x02\x02\x00\x00\x08\x00\x00\0\0\0\0\0\0\0\0\0\0\0\0\0\0\0\0\0\0\0\0\0\0\0\0\0\
    \x02\x02\x00\x00\x09\x00\x00\0\0\0\0\0\0\0\0\0\0\0\0\0\0\0\0\0\0\0\0\0\0\0\0\0\
    \x02\x02\x00\x00\x0a\x00\x00\0\0\0\0\0\0\0\0\0\0\0\0\0\0\0\0\0\0\0\0\0\0\0\0\0\
    \x03\x02\x00\x00\x02\x02\x00\x0b\x00\x01\0\0\0\0\0\0\0\0\0\0\0\0\0\0\0\0\0\0\0\0\0\0\
    \x03\x02\x00\x00\x02\x02\x00\x0c\x00\x01\0\0\0\0\0\0\0\0\0\0\0\0\0\0\0\0\0\0\0\0\0\0\
    \x03\x02\x00\x00\x02\x02\x00\x0d\x00\x01\0\0\0\0\0\0\0\0\0\0\0\0\0\0\0\0\0\0\0\0\0\0\
    \x01\x00\x00\x00\0\0\0\0\0\0\0\0\0\0\0\0\0\0\0\0\0\0\0\0\0\0\0\0\0\0\0\0\
    \x02\x00\x00\x00\x03\x00\x00\0\0\0\0\0\0\0\0\0\0\0\0\0\0\0\0\0\0\0\0\0\0\0\0\0\
    \x01\x02\x04\x00\0\0\0\0\0\0\0\0\0\0\0\0\0\0\0\0\0\0\0\0\0\0\0\0\0\0\0\0\
    \x02\x02\x00\x00\x03\x00\x00\0\0\0\0\0\0\0\0\0\0\0\0\0\0\0\0\0\0\0\0\0\0\0\0\0\
    \x06\x02\x00\x00\x03\x00\x00\x02\x02\x00\x03\x02\x00\x05\x01\x03\x03\x04\x00\0\0\0\0\0\0\0\0\0\0\0\0\0\
    \x03\x02\x00\x00\x02\x02\x00\x05\x00\x01\0\0\0\0\0\0\0\0\0\0\0\0\0\0\0\0\0\0\0\0\0\0\
    \x04\x02\x00\x00\x03\x00\x00\x02\x02\x00\x05\x01\x02\0\0\0\0\0\0\0\0\0\0\0\0\0\0\0\0\0\0\0\
    \x0a\x02\x00\x00\x03\x00\x00\x02\x02\x00\x05\x01\x02\x03\x03\x00\x03\x02\x00\x05\x05\x00\x03\x06\x00\x05\x04\x07\x03\x08\x00\0\
    \x02\x02\x00\x00\x08\x00\x00\0\0\0\0\0\0\0\0\0\0\0\0\0\0\0\0\0\0\0\0\0\0\0\0\0\
    \x05\x00\x00\x00\x02\x00\x00\x03\x01\x00\x0b\x00\x02\x03\x03\x00\0\0\0\0\0\0\0\0\0\0\0\0\0\0\0\0\
    \x03\x00\x00\x00\x02\x00\x00\x0b\x00\x01\0\0\0\0\0\0\0\0\0\0\0\0\0\0\0\0\0\0\0\0\0\0\
    \x03\x02\x00\x00\x02\x02\x00\x0b\x00\x01\0\0\0\0\0\0\0\0\0\0\0\0\0\0\0\0\0\0\0\0\0\0\
    \x06\x02\x00\x00\x03\x00\x00\x02\x02\x00\x03\x02\x00\x0b\x01\x03\x03\x04\x00\0\0\0\0\0\0\0\0\0\0\0\0\0\
    \x08\x02\x00\x00\x02\x02\x00\x0b\x00\x01\x00\x00\x00\x03\x00\x00\x0b\x03\x04\x03\x05\x00\x05\x02\x06\0\0\0\0\0\0\0\
    \x01\x01\x00\x00\0\0\0\0\0\0\0\0\0\0\0\0\0\0\0\0\0\0\0\0\0\0\0\0\0\0\0\0\
    \x01\x00\x00\x00\0\0\0\0\0\0\0\0\0\0\0\0\0\0\0\0\0\0\0\0\0\0\0\0\0\0\0\0\
    \x02\x02\x04\x00\x03\x00\x00\0\0\0\0\0\0\0\0\0\0\0\0\0\0\0\0\0\0\0\0\0\0\0\0\0\
    \x01\x02\x00\x00\0\0\0\0\0\0\0\0\0\0\0\0\0\0\0\0\0\0\0\0\0\0\0\0\0\0\0\0\
    \x03\x02\x01\x00\x02\x03\x00\x05\x00\x01\0\0\0\0\0\0\0\0\0\0\0\0\0\0\0\0\0\0\0\0\0\0\
    \x03\x02\x01\x00\x02\x03\x00\x04\x00\x01\0\0\0\0\0\0\0\0\0\0\0\0\0\0\0\0\0\0\0\0\0\0\
    \x03\x02\x00\x00\x02\x03\x00\x04\x00\x01\0\0\0\0\0\0\0\0\0\0\0\0\0\0\0\0\0\0\0\0\0\0\
    \x07\x02\x00\x00\x02\x03\x00\x04\x00\x01\x02\x01\x00\x02\x02\x00\x04\x03\x04\x05\x02\x05\0\0\0\0\0\0\0\0\0\0\
    \x02\x02\x01\x00\x08\x00\x00\0\0\0\0\0\0\0\0\0\0\0\0\0\0\0\0\0\0\0\0\0\0\0\0\0\
    \x02\x02\x01\x00\x0a\x00\x00\0\0\0\0\0\0\0\0\0\0\0\0\0\0\0\0\0\0\0\0\0\0\0\0\0\
    \x02\x02\x01\x00\x09\x00\x00\0\0\0\0\0\0\0\0\0\0\0\0\0\0\0\0\0\0\0\0\0\0\0\0\0\
    \x03\x02\x01\x00\x02\x03\x00\x0c\x00\x01\0\0\0\0\0\0\0\0\0\0\0\0\0\0\0\0\0\0\0\0\0\0\
    \x03\x02\x01\x00\x02\x03\x00\x0b\x00\x01\0\0\0\0\0\0\0\0\0\0\0\0\0\0\0\0\0\0\0\0\0\0\
    \x04\x02\x03\x00\x02\x01\x00\x04\x01\x00\x0b\x00\x02\0\0\0\0\0\0\0\0\0\0\0\0\0\0\0\0\0\0\0";

pub fn recipes() -> [u8; TABLE_BYTES]
    ensures { result ≡ recipes' }
{
    TABLE
}

// How many nodes the recipe of a row has.
pub fn count_at(recipes: &[u8; TABLE_BYTES], row: usize) -> usize
    requires { Row recipes.now row }
    ensures { result ≡ length (recipe row) }
{
    usize::from(recipes[ROW * row])
}

// A node of a recipe. Its fields are numbers of earlier nodes, or the signal that stands for an operand's form.
#[derive(Clone, Copy)]
pub struct Step {
    pub kind: u32,
    pub first: usize,
    pub second: usize,
}

pub fn step_at(recipes: &[u8; TABLE_BYTES], row: usize, j: usize) -> Step
    requires { Step' recipes.now row j }
    ensures { StepIs row j result.kind result.first result.second }
{
    let at = ROW * row + 1 + 3 * j;
    let kind = u32::from(recipes[at]);
    let first = usize::from(recipes[at + 1]);
    let second = usize::from(recipes[at + 2]);
    Step {
        kind,
        first,
        second,
    }
}

// Which fourteen rows are those of a form, or of the negated half of form 1.
fn list_of(form: u32, half: usize) -> usize
    ensures { result ≡ list_of form half }
{
    if form == AS_EXPANDED {
        return AS_IS;
    }
    if form == NEGATION_FORM {
        if half == 0 {
            return PLAIN;
        }
        return NEGATED;
    }
    CORE
}

// A node whose form is needed: the row of the recipe, and the node's fields.
#[derive(Clone, Copy)]
pub struct Source {
    pub row: usize,
    pub first: usize,
    pub second: usize,
}

pub fn source_at(nodes: &[u32], form: u32, x: usize) -> Source
    requires { Place form nodes.now x }
    ensures { SourceIs form nodes.now x result.row result.first result.second }
{
    let node = Node { word: nodes[x / 2] };
    let list = list_of(form, x % 2);
    let kind = node.kind() as usize;
    let first = node.first() as usize;
    let second = node.second() as usize;
    Source {
        row: ROWS * list + kind,
        first,
        second,
    }
}
