// X[n]: the number first, then the formula.
ghost use Rattle.entries.specs.Kinds as Kind;
ghost use Rattle.machine.specs.Phases as Phase;
ghost use Rattle.machine.specs.States.{Ready, Steps, Topped, Takes, ToppedToWrite, TakesToWrite};
ghost use Rattle.operands.specs.Working.{view};
ghost use Rattle.machine.specs.Entering.{Expands, Waiting};

use machine::{Machine, Move, Stepped, capped, fields, modes, phases};
use node::{MAX_NODES, Node, Refusal, refusals};
use operands::Source;
use writing::nexts;

pub fn repetition(source: &Source, memory: &mut [u32], m: Machine) -> Stepped
    requires ready { Ready (view source.now) memory.old m }
    requires expands { Expands source.now.work.now m Kind.nexts Kind.window }
    ensures { Steps (view source.now) memory.old memory.new m result }
{
    m.push_first(source.work, memory, phases::REPEAT, modes::EVALUATE, 0)
}

// The number has come: the formula is worked out.
// No twin of the other steps: each clause names a phase of its own, whose law tells what the frame keeps; one function over a phase would take that law along.
pub fn number(source: &Source, memory: &mut [u32], m: Machine) -> Stepped
    requires topped { Topped (view source.now) memory.old m }
    requires waiting { Waiting memory.old m Phase.repeat }
    ensures { Takes (view source.now) memory.old memory.new m result }
{
    if m.mode != modes::NUMBER {
        return Err(Refusal {
            number: refusals::WRONG_TYPE,
            place: 0,
        });
    }
    Ok(Move::Next(m.renew(memory, phases::REPEATED, 0, m.value, 0, modes::EXPAND)))
}

// The formula is written: as many X as the number says go behind it.
pub fn repeated(
    source: &Source,
    memory: &[u32],
    table: &mut [u32; MAX_NODES],
    m: Machine,
) -> Stepped
    requires topped_to_write { ToppedToWrite (view source.now) memory.now table.old m }
    requires waiting { Waiting memory.now m Phase.repeated }
    ensures { TakesToWrite (view source.now) memory.now memory.now table.old table.new m result }
{
    if m.mode != modes::NODES {
        return Err(Refusal {
            number: refusals::WRONG_TYPE,
            place: 0,
        });
    }
    let n = memory[m.frames + fields::VALUE] as usize;
    let end = nexts(Node::NEXT, n, m.nodes, table);
    Ok(Move::Next(m.popped().wrote(capped(end))))
}
