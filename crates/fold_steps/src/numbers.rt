// Big operators of numbers: `+[..]` and `*[..]`.
ghost use Rattle.machine.specs.Phases as Phase;
ghost use Rattle.machine.specs.States.{Topped, Takes};
ghost use Rattle.operands.specs.Working.{view};
ghost use Rattle.machine.specs.Entering.{Waiting};
ghost use Rattle.fold_steps.specs.FoldingNumbers.{Foldable, Onward};

use crate::turning::again;
use machine::{FRAME, Machine, Move, Stepped, fields, modes, phases};
use node::{Refusal, refusals};
use operands::Source;
use operands::entry::{place_at, prefix_at};
use sets::numbers;

// A number is folded: the answer where no element is left.
fn onward(memory: &mut [u32], m: Machine, folded: u32) -> Stepped
    requires { Foldable memory.old m }
    ensures { Onward memory.old memory.new m folded result }
{
    let at = m.frames;
    if memory[at + fields::COUNT] == 0 {
        return Ok(Move::Next(Machine {
            mode: modes::NUMBER,
            value: folded,
            from: 0,
            depth: m.depth - 1,
            top: memory[at + fields::BASE] as usize,
            frames: at + FRAME,
            ..m
        }));
    }
    Ok(Move::Next(again(
        memory,
        m,
        phases::NEXT_NUMBER,
        folded,
        0,
        modes::EVALUATE,
        m.top,
    )))
}

// The operand at the first element has come.
pub fn first(source: &Source, memory: &mut [u32], m: Machine) -> Stepped
    requires topped { Topped (view source.now) memory.old m }
    requires waiting { Waiting memory.old m Phase.first_number }
    ensures { Takes (view source.now) memory.old memory.new m result }
{
    if m.mode != modes::NUMBER {
        return Err(Refusal {
            number: refusals::WRONG_TYPE,
            place: 0,
        });
    }
    onward(memory, m, m.value)
}

// The operand at a further element has come.
pub fn next(source: &Source, memory: &mut [u32], m: Machine) -> Stepped
    requires topped { Topped (view source.now) memory.old m }
    requires waiting { Waiting memory.old m Phase.next_number }
    ensures { Takes (view source.now) memory.old memory.new m result }
{
    if m.mode != modes::NUMBER {
        return Err(Refusal {
            number: refusals::WRONG_TYPE,
            place: 0,
        });
    }
    let at = m.frames;
    let k = memory[at + fields::ENTRY] as usize;
    let a = memory[at + fields::VALUE];
    let n = numbers::calculate(
        place_at(source.work, k),
        prefix_at(source.work, k),
        a,
        m.value,
    )?;
    onward(memory, m, n)
}
