// A text's declarations whole: parameters, widths of inputs then outputs, signals.
ghost use Rattle.std.specs.Prelude.{◌≤◌, length};
ghost use Rattle.language.specs.Limits.{max_signals};
ghost use Rattle.language.specs.Tree.{Spec};
ghost use Rattle.declarations.specs.Expressions.{MemoryRoom};
ghost use Rattle.declarations.specs.Promise.{Checked, Given, Declares};

use crate::sizes::sizes;
use crate::stages::{find_ports, globals};
use crate::{Counts, Declarations};
use language::limits;
use memory_notes::lay;
use node::{MAX_NODES, Refusal};
use operands::Source;
use ports::list_signals;

// The declarations of a checked text: every declared name is noted, parameters are worked out in order, inputs are sized, then outputs, the signals are numbered
// and listed, and the notes laid into the memory; or the first refusal. This is a stage of the reader and no entry point: it asks for what the stages before leave.
pub fn declare(
    source: &Source,
    found: &[u16],
    counts: Counts,
    memory: &mut [u32],
    table: &mut [u32; MAX_NODES],
    list: &mut [u32],
) -> Result<Declarations, Refusal>
    requires { Given source.now.text.now source.now.work.now source.now.refs.now found.now counts.entries counts.names ×
        (MemoryRoom memory.old table.old counts.entries × (max_signals ≤ length list.old)) }
    ensures { (x : Spec) → Checked source.now.text.now source.now.work.now source.now.refs.now found.now counts.entries counts.names x
        → Declares source.now.text.now source.now.work.now counts.entries x memory.new table.new list.old list.new result }
{
    let names = globals(source, found, counts, memory, table)?;
    let ports = find_ports(source, found, counts);
    let all = sizes(source, ports, names, memory, table, counts.entries)?;
    let order = ports.order;
    let enumerations = ports.enumerations;
    let offsets = ports.offsets;
    let widths = all.widths;
    let ins = ports.ins;
    let count = ports.count;
    let mut firsts = [0u32; limits::MAX_NAMES];
    let listed = list_signals(&order, &offsets, &widths, ins, count, &mut firsts, list);
    let noted = all.names;
    let sorts = noted.sorts;
    let numbers = noted.numbers;
    lay(&sorts, &numbers, &firsts, memory);
    Ok(Declarations {
        count,
        ins,
        listed,
        order,
        enumerations,
        firsts,
    })
}
