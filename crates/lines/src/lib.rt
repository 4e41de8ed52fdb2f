// The lines of a text: their formulas one after the other in a table of nodes, with a word for each that has its part and its size.
// `gather` asks for a checked tree, its declarations worked out, and arrays of full length: `read` has all three.
#![tactic(auto)]

ghost use Rattle.std.specs.Prelude.{◌≡◌, length};
ghost use Rattle.node.specs.Limits.{max_nodes};
ghost use Rattle.operands.specs.Working.{view};
ghost use Rattle.lines.specs.Gathering.{buffers, Sizes, SomeLine, WritesLine, SomeTree, WritesLines};
ghost use Rattle.lines.specs.Whole.{SomeGiven, Gathers};

use assembly::implied::{Ends, Ports, Span, implied};
use assembly::{ASSERT, REQUIRE, add_line};
use entries::{headings, kinds};
use machine_run::formula_of;
use node::{MAX_NODES, Refusal};
use operands::Source;
use traversal::cell_at;

fn len(words: &[u32]) -> usize
    ensures { result ≡ length words.now }
{
    words.len()
}

// A table has 8,192 words, by its type. The machine asks for that, and it is known of a table once it is lent as a slice.
fn whole(table: &[u32; MAX_NODES])
    ensures { length table.now ≡ max_nodes }
{
    len(table);
}

// Where a line is: in a text of so many entries, under the heading of that number, with its expression's own entry at k.
#[derive(Clone, Copy)]
struct Place {
    entries: usize,
    heading: u32,
    k: usize,
}

// One line behind others. Where their formulas end is 8,193 if they do not fit.
fn line(
    source: &Source,
    memory: &mut [u32],
    table: &mut [u32; MAX_NODES],
    lines: &mut [u32],
    here: Place,
    e: Ends,
) -> Result<Ends, Refusal>
    requires sizes { Sizes (view source.now) memory.old lines.old here.entries }
    requires some_line { SomeLine (view source.now) (buffers memory.old table.old lines.old) here e }
    ensures { WritesLine (view source.now) (buffers memory.old table.old lines.old)
        (buffers memory.new table.new lines.new) here e result }
{
    whole(table);
    let at = e.at;
    let next = formula_of(source, memory, table, here.entries, here.k, at)?;
    let part = here.heading - headings::FIRST_PART;
    let count = add_line(part, at, next, lines, e.count);
    Ok(Ends { at: next, count })
}

// The written lines, in one walk over the entries.
fn written_lines(
    source: &Source,
    memory: &mut [u32],
    table: &mut [u32; MAX_NODES],
    lines: &mut [u32],
    entries: usize,
    start: usize,
) -> Result<Ends, Refusal>
    requires sizes { Sizes (view source.now) memory.old lines.old entries }
    requires some_tree { SomeTree (view source.now) (buffers memory.old table.old lines.old) entries start }
    ensures { WritesLines (view source.now) (buffers memory.old table.old lines.old)
        (buffers memory.new table.new lines.new) entries start result }
{
    whole(table);
    let mut heading: u32 = 0;
    let mut e = Ends {
        at: start,
        count: 0,
    };
    for i in 0..entries {
        let c = cell_at(source.work, i);
        if c.kind == kinds::HEADING {
            heading = c.size;
            continue;
        }
        if c.kind == kinds::LINE {
            let here = Place {
                entries,
                heading,
                k: i - 1,
            };
            e = line(source, memory, table, lines, here, e)?;
        }
    }
    Ok(e)
}

// How many entries the text has and how many ports, the first `ins` of them inputs. Formulas go into the table from `start` on, 0, or 8,193 where they are worked through
// for their refusals alone.
#[derive(Clone, Copy)]
pub struct Plan {
    pub entries: usize,
    pub ins: usize,
    pub count: usize,
    pub start: usize,
}

// All lines: the written ones, then the implied ones of the inputs and of the outputs.
pub fn gather(
    source: &Source,
    memory: &mut [u32],
    table: &mut [u32; MAX_NODES],
    lines: &mut [u32],
    ports: Ports,
    plan: Plan,
) -> Result<Ends, Refusal>
    requires sizes { Sizes (view source.now) memory.old lines.old plan.entries }
    requires some_given { SomeGiven (view source.now) (buffers memory.old table.old lines.old) ports plan }
    ensures { Gathers (view source.now) (buffers memory.old table.old lines.old) table.new
        lines.new ports plan result }
{
    let written = written_lines(source, memory, table, lines, plan.entries, plan.start)?;
    let inputs = Span {
        part: REQUIRE,
        from: 0,
        to: plan.ins,
    };
    let outputs = Span {
        part: ASSERT,
        from: plan.ins,
        to: plan.count,
    };
    let i = implied(
        source.text,
        source.work,
        ports,
        inputs,
        written,
        table,
        lines,
    );
    let o = implied(source.text, source.work, ports, outputs, i, table, lines);
    Ok(o)
}
