// Formulas without operands.
ghost use Rattle.entries.specs.Kinds as Kind;
ghost use Rattle.machine.specs.States.{ReadyToWrite, Writes};
ghost use Rattle.operands.specs.Working.{view};
ghost use Rattle.machine.specs.Entering.{Expands};

use lexer::numbers;
use machine::{Machine, Move, Stepped, capped};
use node::MAX_NODES;
use operands::Source;
use operands::entry::number_at;
use writing::constant;

// true and false.
pub fn truth(source: &Source, memory: &[u32], table: &mut [u32; MAX_NODES], m: Machine) -> Stepped
    requires ready_to_write { ReadyToWrite (view source.now) memory.now table.old m }
    requires expands { Expands source.now.work.now m Kind.truth Kind.index }
    ensures { Writes (view source.now) memory.now memory.now table.old table.new m result }
{
    let k = m.value as usize;
    let n = constant(number_at(source.work, k) == numbers::TRUE, table, m.nodes);
    Ok(Move::Next(m.wrote(capped(n))))
}
