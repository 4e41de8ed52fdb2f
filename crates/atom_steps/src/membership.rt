// IN: a number and a set.
ghost use Rattle.entries.specs.Kinds as Kind;
ghost use Rattle.machine.specs.Phases as Phase;
ghost use Rattle.machine.specs.States.{Ready, Steps, Topped, Takes, ToppedToWrite, TakesToWrite};
ghost use Rattle.operands.specs.Working.{view};
ghost use Rattle.machine.specs.Entering.{Expands, Waiting};

use machine::{Machine, Move, Stepped, capped, fields, modes, phases};
use memory_sets::Span;
use memory_sets::one::contains;
use node::{MAX_NODES, Refusal, refusals};
use operands::Source;
use writing::constant;

// The number is worked out first.
pub fn membership(source: &Source, memory: &mut [u32], m: Machine) -> Stepped
    requires ready { Ready (view source.now) memory.old m }
    requires expands { Expands source.now.work.now m Kind.membership Kind.binary }
    ensures { Steps (view source.now) memory.old memory.new m result }
{
    m.push_first(source.work, memory, phases::MEMBER, modes::EVALUATE, 0)
}

// The number has come: the set is worked out.
// No twin of the other steps: each clause names a phase of its own, whose law tells what the frame keeps; one function over a phase would take that law along.
pub fn number(source: &Source, memory: &mut [u32], m: Machine) -> Stepped
    requires topped { Topped (view source.now) memory.old m }
    requires waiting { Waiting memory.old m Phase.member }
    ensures { Takes (view source.now) memory.old memory.new m result }
{
    if m.mode != modes::NUMBER {
        return Err(Refusal {
            number: refusals::WRONG_TYPE,
            place: 0,
        });
    }
    Ok(Move::Next(m.renew(memory, phases::AMONG, 0, m.value, 0, modes::EVALUATE)))
}

// The set has come: it is searched where it stands.
pub fn among(source: &Source, memory: &[u32], table: &mut [u32; MAX_NODES], m: Machine) -> Stepped
    requires topped_to_write { ToppedToWrite (view source.now) memory.now table.old m }
    requires waiting { Waiting memory.now m Phase.among }
    ensures { TakesToWrite (view source.now) memory.now memory.now table.old table.new m result }
{
    if m.mode != modes::SET {
        return Err(Refusal {
            number: refusals::WRONG_TYPE,
            place: 0,
        });
    }
    let x = memory[m.frames + fields::VALUE];
    let set = Span {
        at: m.from,
        count: m.value as usize,
    };
    let n = constant(contains(memory, set, x), table, m.nodes);
    Ok(Move::Next(m.popped().wrote(capped(n))))
}
