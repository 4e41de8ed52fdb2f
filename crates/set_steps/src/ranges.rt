// The numbers from one on by steps: {x, y .. z}.
ghost use Rattle.entries.specs.Kinds as Kind;
ghost use Rattle.machine.specs.Phases as Phase;
ghost use Rattle.machine.specs.States.{Ready, Steps, Topped, Takes};
ghost use Rattle.operands.specs.Working.{view};
ghost use Rattle.machine.specs.Entering.{Evaluates, Waiting};

use crate::making::made;
use machine::{Machine, Move, Stepped, fields, modes, phases};
use memory_sets::one::range;
use node::{Refusal, refusals};
use operands::Source;
use operands::entry::place_at;

// The first number is worked out first.
pub fn stepping(source: &Source, memory: &mut [u32], m: Machine) -> Stepped
    requires ready { Ready (view source.now) memory.old m }
    requires evaluates { Evaluates source.now.work.now m Kind.range Kind.parameter }
    ensures { Steps (view source.now) memory.old memory.new m result }
{
    m.push_first_of_three(source.work, memory, phases::RANGE_FIRST, modes::EVALUATE)
}

// The first number has come: the second is worked out.
// No twin of the other steps: each clause names a phase of its own, whose law tells what the frame keeps; one function over a phase would take that law along.
pub fn first(source: &Source, memory: &mut [u32], m: Machine) -> Stepped
    requires topped { Topped (view source.now) memory.old m }
    requires waiting { Waiting memory.old m Phase.range_first }
    ensures { Takes (view source.now) memory.old memory.new m result }
{
    if m.mode != modes::NUMBER {
        return Err(Refusal {
            number: refusals::WRONG_TYPE,
            place: 0,
        });
    }
    Ok(Move::Next(m.renew_before(
        source.work,
        memory,
        phases::RANGE_SECOND,
        m.value,
        modes::EVALUATE,
    )))
}

// The second number has come: the last is worked out.
pub fn second(source: &Source, memory: &mut [u32], m: Machine) -> Stepped
    requires topped { Topped (view source.now) memory.old m }
    requires waiting { Waiting memory.old m Phase.range_second }
    ensures { Takes (view source.now) memory.old memory.new m result }
{
    if m.mode != modes::NUMBER {
        return Err(Refusal {
            number: refusals::WRONG_TYPE,
            place: 0,
        });
    }
    let x = memory[m.frames + fields::VALUE];
    Ok(Move::Next(m.renew(memory, phases::RANGE_LAST, 0, x, m.value, modes::EVALUATE)))
}

// The last number has come.
pub fn last(source: &Source, memory: &mut [u32], m: Machine) -> Stepped
    requires topped { Topped (view source.now) memory.old m }
    requires waiting { Waiting memory.old m Phase.range_last }
    ensures { Takes (view source.now) memory.old memory.new m result }
{
    if m.mode != modes::NUMBER {
        return Err(Refusal {
            number: refusals::WRONG_TYPE,
            place: 0,
        });
    }
    let at = m.frames;
    let k = memory[at + fields::ENTRY] as usize;
    let x = memory[at + fields::VALUE];
    let y = memory[at + fields::OTHER];
    let r = range(place_at(source.work, k), x, y, m.value, memory, m.top);
    made(m, m.top, r)
}
