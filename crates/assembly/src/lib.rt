// One formula of the formulas of a text's lines (document 01, 'Expansion').
// Its functions ask for lines whose nodes stand in the table one after the other and for names that are noted: `lines` and `ending`, which alone call them,
// have written both.
#![tactic(auto)]

ghost use Rattle.std.specs.Prelude.{◌≡◌};
ghost use Rattle.language.specs.Tree.{Part, part_code};
ghost use Rattle.assembly.specs.Gathered.{SomeLined, SomeGathered, LineRoom, Adds};
ghost use Rattle.assembly.specs.Layout.{preset as preset', assumed as assumed', promised as promised', Writes, Assembles};

use choices::folds::{Fold, finish, further};
use node::{FIELD_LIMIT, MAX_NODES, Node};
use writing::copies::copy_from;
use writing::{TOO_MANY, cap, join};

pub mod implied;

// The parts by their numbers.
// Numbers and no enum: the words of the list of lines hold them, beside a size (specs of crate assembly).
pub const INITIALLY: u32 = 0;

pub const PRESET: u32 = 1;

pub const REQUIRE: u32 = 2;

pub const ASSERT: u32 = 3;

pub const ASSUME: u32 = 4;

pub const GUARANTEE: u32 = 5;

// One line more in the list: its formula was written to the table from `at` up to `next`. The new count; a line that does not fit the table is not listed.
pub fn add_line(part: u32, at: usize, next: usize, lines: &mut [u32], count: usize) -> usize
    requires { LineRoom part at next lines.old count }
    ensures { Adds part at next lines.old lines.new count result }
{
    // A count that goes on where the table is full (head of crate writing).
    if MAX_NODES < next {
        return count;
    }
    lines[count] = part * FIELD_LIMIT + (next - at) as u32;
    count + 1
}

// A section: the part's lines folded with `&&`, or true, from `at` on.
fn section(
    part: u32,
    lines: &[u32],
    count: usize,
    table: &[u32; MAX_NODES],
    at: usize,
    out: &mut [u32; MAX_NODES],
) -> usize
    requires { SomeLined lines.now count table.now }
    ensures { (p : Part) → part ≡ part_code p → Writes (λ f. f p) lines.now count table.now out.old out.new at result }
{
    let mut f = Fold {
        some: false,
        end: at,
    };
    let mut start = 0;
    for line in &lines[..count] {
        let size = (*line % FIELD_LIMIT) as usize;
        if *line / FIELD_LIMIT == part {
            let end = f.end;
            let r = copy_from(table, start, size, end, out);
            f = further(true, f, r, out);
        }
        start += size;
    }
    finish(true, f, out)
}

// P; strict: P && (A W !R).
fn preset(
    strict: bool,
    lines: &[u32],
    count: usize,
    table: &[u32; MAX_NODES],
    at: usize,
    out: &mut [u32; MAX_NODES],
) -> usize
    requires { SomeLined lines.now count table.now }
    ensures { Writes (preset' strict) lines.now count table.now out.old out.new at result }
{
    let p = section(PRESET, lines, count, table, at, out);
    if !strict {
        return p;
    }
    let a = section(ASSERT, lines, count, table, p, out);
    let r = section(REQUIRE, lines, count, table, a, out);
    let not = cap(Node::NOT, r, out);
    let weak = join(Node::WEAK_UNTIL, a, not, out);
    join(Node::AND, p, weak, out)
}

// G R && S.
fn assumed(
    lines: &[u32],
    count: usize,
    table: &[u32; MAX_NODES],
    at: usize,
    out: &mut [u32; MAX_NODES],
) -> usize
    requires { SomeLined lines.now count table.now }
    ensures { Writes assumed' lines.now count table.now out.old out.new at result }
{
    let r = section(REQUIRE, lines, count, table, at, out);
    let always = cap(Node::GLOBALLY, r, out);
    let s = section(ASSUME, lines, count, table, always, out);
    join(Node::AND, always, s, out)
}

// G A && U; strict: U.
fn promised(
    strict: bool,
    lines: &[u32],
    count: usize,
    table: &[u32; MAX_NODES],
    at: usize,
    out: &mut [u32; MAX_NODES],
) -> usize
    requires { SomeLined lines.now count table.now }
    ensures { Writes (promised' strict) lines.now count table.now out.old out.new at result }
{
    if strict {
        return section(GUARANTEE, lines, count, table, at, out);
    }
    let a = section(ASSERT, lines, count, table, at, out);
    let always = cap(Node::GLOBALLY, a, out);
    let u = section(GUARANTEE, lines, count, table, always, out);
    join(Node::AND, always, u, out)
}

// The whole formula, from the table's start: I -> (P && ((G R && S) -> (G A && U))); strict: I -> ((P && (A W !R)) && ((G R && S) -> U)). The lines' formulas end at m.
pub fn assemble(
    strict: bool,
    lines: &[u32],
    count: usize,
    table: &[u32; MAX_NODES],
    m: usize,
    out: &mut [u32; MAX_NODES],
) -> usize
    requires { SomeGathered lines.now count table.now m }
    ensures { Assembles strict lines.now count table.now m out.old out.new result }
{
    if MAX_NODES < m {
        return TOO_MANY;
    }
    let i = section(INITIALLY, lines, count, table, 0, out);
    let p = preset(strict, lines, count, table, i, out);
    let a = assumed(lines, count, table, p, out);
    let g = promised(strict, lines, count, table, a, out);
    let implied = join(Node::IMPLIES, a, g, out);
    let rest = join(Node::AND, p, implied, out);
    join(Node::IMPLIES, i, rest, out)
}
