// The numbers between two bounds.
ghost use Rattle.std.specs.Prelude.{false};
ghost use Rattle.entries.specs.Kinds as Kind;
ghost use Rattle.machine.specs.Phases as Phase;
ghost use Rattle.machine.specs.States.{Ready, Steps, Topped, Takes};
ghost use Rattle.operands.specs.Working.{view};
ghost use Rattle.machine.specs.Entering.{Evaluates, Waiting};

use crate::making::made;
use entries::kinds;
use machine::{Machine, Move, Stepped, fields, modes, phases};
use memory_sets::one::between;
use node::{Refusal, refusals};
use operands::Source;
use operands::entry::{kind_at, number_at, place_at};
use operators::signs::strict;

// The low bound is worked out first.
pub fn bounds(source: &Source, memory: &mut [u32], m: Machine) -> Stepped
    requires ready { Ready (view source.now) memory.old m }
    requires evaluates { Evaluates source.now.work.now m (Kind.between false) Kind.listed }
    ensures { Steps (view source.now) memory.old memory.new m result }
{
    m.push_first(source.work, memory, phases::LOW, modes::EVALUATE, 0)
}

// The low bound has come: the high one is worked out.
// No twin of the other steps: each clause names a phase of its own, whose law tells what the frame keeps; one function over a phase would take that law along.
pub fn low(source: &Source, memory: &mut [u32], m: Machine) -> Stepped
    requires topped { Topped (view source.now) memory.old m }
    requires waiting { Waiting memory.old m Phase.low }
    ensures { Takes (view source.now) memory.old memory.new m result }
{
    if m.mode != modes::NUMBER {
        return Err(Refusal {
            number: refusals::WRONG_TYPE,
            place: 0,
        });
    }
    Ok(Move::Next(m.renew(memory, phases::HIGH, 0, m.value, 0, modes::EVALUATE)))
}

// The high bound has come.
pub fn high(source: &Source, memory: &mut [u32], m: Machine) -> Stepped
    requires topped { Topped (view source.now) memory.old m }
    requires waiting { Waiting memory.old m Phase.high }
    ensures { Takes (view source.now) memory.old memory.new m result }
{
    if m.mode != modes::NUMBER {
        return Err(Refusal {
            number: refusals::WRONG_TYPE,
            place: 0,
        });
    }
    let at = m.frames;
    let k = memory[at + fields::ENTRY] as usize;
    let a = memory[at + fields::VALUE];
    let above = strict(number_at(source.work, k));
    let under = kind_at(source.work, k) == kinds::BETWEEN_NO_HIGH;
    let r = between(
        place_at(source.work, k),
        above,
        under,
        a,
        m.value,
        memory,
        m.top,
    );
    made(m, m.top, r)
}
