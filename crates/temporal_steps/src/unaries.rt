// `!`, X, G and F.
ghost use Rattle.entries.specs.Kinds as Kind;
ghost use Rattle.machine.specs.Phases as Phase;
ghost use Rattle.machine.specs.States.{Ready, Steps, ToppedToWrite, TakesToWrite};
ghost use Rattle.operands.specs.Working.{view};
ghost use Rattle.machine.specs.Entering.{Expands, Waiting};

use machine::{Machine, Move, Stepped, capped, fields, modes, phases};
use node::{MAX_NODES, Refusal, refusals};
use operands::Source;
use operands::entry::prefix_at;
use writing::cap;

// The operand is worked out first.
pub fn unary(source: &Source, memory: &mut [u32], m: Machine) -> Stepped
    requires ready { Ready (view source.now) memory.old m }
    requires expands { Expands source.now.work.now m Kind.unary Kind.arithmetic }
    ensures { Steps (view source.now) memory.old memory.new m result }
{
    m.push(memory, phases::CAPPING, modes::EXPAND, m.value - 1)
}

// The operand is written: the operator goes behind it.
pub fn capping(source: &Source, memory: &[u32], table: &mut [u32; MAX_NODES], m: Machine) -> Stepped
    requires topped_to_write { ToppedToWrite (view source.now) memory.now table.old m }
    requires waiting { Waiting memory.now m Phase.capping }
    ensures { TakesToWrite (view source.now) memory.now memory.now table.old table.new m result }
{
    if m.mode != modes::NODES {
        return Err(Refusal {
            number: refusals::WRONG_TYPE,
            place: 0,
        });
    }
    let k = memory[m.frames + fields::ENTRY] as usize;
    let n = cap(prefix_at(source.work, k), m.nodes, table);
    Ok(Move::Next(m.popped().wrote(capped(n))))
}
