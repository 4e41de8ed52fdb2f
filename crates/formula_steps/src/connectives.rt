// Operators between two formulas.
ghost use Rattle.entries.specs.Kinds as Kind;
ghost use Rattle.machine.specs.Phases as Phase;
ghost use Rattle.machine.specs.States.{Ready, Steps, Topped, Takes, ToppedToWrite, TakesToWrite};
ghost use Rattle.operands.specs.Working.{view};
ghost use Rattle.machine.specs.Entering.{Expands, Waiting};

use machine::{Machine, Move, Stepped, capped, fields, modes, phases};
use node::{MAX_NODES, Refusal, refusals};
use operands::Source;
use operands::entry::infix_at;
use writing::join;

// The left operand is worked out first.
pub fn connective(source: &Source, memory: &mut [u32], m: Machine) -> Stepped
    requires ready { Ready (view source.now) memory.old m }
    requires expands { Expands source.now.work.now m Kind.binary Kind.nexts }
    ensures { Steps (view source.now) memory.old memory.new m result }
{
    m.push_first(source.work, memory, phases::LEFT_FORMULA, modes::EXPAND, 0)
}

// The left operand is written: the right one is worked out.
pub fn left(source: &Source, memory: &mut [u32], m: Machine) -> Stepped
    requires topped { Topped (view source.now) memory.old m }
    requires waiting { Waiting memory.old m Phase.left_formula }
    ensures { Takes (view source.now) memory.old memory.new m result }
{
    if m.mode != modes::NODES {
        return Err(Refusal {
            number: refusals::WRONG_TYPE,
            place: 0,
        });
    }
    let end = m.nodes as u32;
    Ok(Move::Next(m.renew(memory, phases::RIGHT_FORMULA, 0, end, 0, modes::EXPAND)))
}

// The right operand is written behind the left one.
pub fn right(source: &Source, memory: &[u32], table: &mut [u32; MAX_NODES], m: Machine) -> Stepped
    requires topped_to_write { ToppedToWrite (view source.now) memory.now table.old m }
    requires waiting { Waiting memory.now m Phase.right_formula }
    ensures { TakesToWrite (view source.now) memory.now memory.now table.old table.new m result }
{
    if m.mode != modes::NODES {
        return Err(Refusal {
            number: refusals::WRONG_TYPE,
            place: 0,
        });
    }
    let at = m.frames;
    let k = memory[at + fields::ENTRY] as usize;
    let first = memory[at + fields::VALUE] as usize;
    let n = join(infix_at(source.work, k), first, m.nodes, table);
    Ok(Move::Next(m.popped().wrote(capped(n))))
}
