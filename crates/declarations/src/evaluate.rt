// An expression of a declaration as a number, worked out by the machine.
ghost use Rattle.declarations.specs.Expressions.{Workable, Numbered};

use language::limits;
use memory_notes::lay;
use node::{MAX_NODES, Refusal};
use operands::Source;

// What is noted of the names (crate notes), by their numbers.
#[derive(Clone, Copy)]
pub struct Names {
    pub sorts: [u8; limits::MAX_NAMES],
    pub numbers: [u32; limits::MAX_NAMES],
}

// The expression at entry k as a number. The notes are laid anew each time, since what is kept of definitions changes with every name that gets its value.
pub fn number_of(
    source: &Source,
    names: Names,
    memory: &mut [u32],
    table: &mut [u32; MAX_NODES],
    entries: usize,
    k: usize,
) -> Result<u32, Refusal>
    requires { Workable source.now.text.now source.now.work.now source.now.refs.now names.sorts names.numbers memory.old table.old entries k }
    ensures { Numbered source.now.text.now source.now.work.now source.now.refs.now names.sorts names.numbers table.old table.new k result }
{
    let sorts = names.sorts;
    let numbers = names.numbers;
    let firsts = [0u32; limits::MAX_NAMES];
    lay(&sorts, &numbers, &firsts, memory);
    machine_run::number_of(source, memory, table, entries, k)
}
