// Numerals, and operators between two numbers.
ghost use Rattle.entries.specs.Kinds as Kind;
ghost use Rattle.machine.specs.Phases as Phase;
ghost use Rattle.machine.specs.States.{Ready, Steps, Topped, Takes};
ghost use Rattle.operands.specs.Working.{view};
ghost use Rattle.machine.specs.Entering.{Evaluates, Waiting};

use machine::{Machine, Move, Stepped, fields, modes, phases};
use node::{Refusal, refusals};
use operands::Source;
use operands::entry::{infix_at, place_at};
use sets::numbers;

pub fn numeral(source: &Source, memory: &[u32], m: Machine) -> Stepped
    requires ready { Ready (view source.now) memory.now m }
    requires evaluates { Evaluates source.now.work.now m Kind.numeral Kind.truth }
    ensures { Steps (view source.now) memory.now memory.now m result }
{
    let k = m.value as usize;
    m.numbered(numbers::numeral(source.text, place_at(source.work, k)))
}

// An operator between two numbers: its left operand is worked out first.
pub fn calculation(source: &Source, memory: &mut [u32], m: Machine) -> Stepped
    requires ready { Ready (view source.now) memory.old m }
    requires evaluates { Evaluates source.now.work.now m Kind.arithmetic Kind.combination }
    ensures { Steps (view source.now) memory.old memory.new m result }
{
    m.push_first(source.work, memory, phases::LEFT, modes::EVALUATE, 0)
}

// The left operand has come: the right one is worked out.
// No twin of the other steps: each clause names a phase of its own, whose law tells what the frame keeps; one function over a phase would take that law along.
pub fn left(source: &Source, memory: &mut [u32], m: Machine) -> Stepped
    requires topped { Topped (view source.now) memory.old m }
    requires waiting { Waiting memory.old m Phase.left }
    ensures { Takes (view source.now) memory.old memory.new m result }
{
    if m.mode != modes::NUMBER {
        return Err(Refusal {
            number: refusals::WRONG_TYPE,
            place: 0,
        });
    }
    Ok(Move::Next(m.renew(memory, phases::RIGHT, 0, m.value, 0, modes::EVALUATE)))
}

// The right operand has come.
pub fn right(source: &Source, memory: &[u32], m: Machine) -> Stepped
    requires topped { Topped (view source.now) memory.now m }
    requires waiting { Waiting memory.now m Phase.right }
    ensures { Takes (view source.now) memory.now memory.now m result }
{
    if m.mode != modes::NUMBER {
        return Err(Refusal {
            number: refusals::WRONG_TYPE,
            place: 0,
        });
    }
    let at = m.frames;
    let k = memory[at + fields::ENTRY] as usize;
    let a = memory[at + fields::VALUE];
    let operator = infix_at(source.work, k);
    let r = numbers::calculate(place_at(source.work, k), operator, a, m.value);
    m.popped().numbered(r)
}
