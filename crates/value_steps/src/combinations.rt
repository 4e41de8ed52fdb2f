// Operators between two sets. A set that a frame holds stays where it stands; the result is made above both and moved to where the frame's values begin.
ghost use Rattle.entries.specs.Kinds as Kind;
ghost use Rattle.machine.specs.Phases as Phase;
ghost use Rattle.machine.specs.States.{Ready, Steps, Topped, Takes};
ghost use Rattle.operands.specs.Working.{view};
ghost use Rattle.machine.specs.Entering.{Evaluates, Waiting};

use machine::{FRAME, Machine, Move, Stepped, Words, fields, frame, modes, phases};
use memory_sets::Span;
use memory_sets::moving::lower;
use memory_sets::two::combine;
use node::{Refusal, refusals};
use operands::Source;
use operands::entry::{infix_at, place_at};

// The left operand is worked out first.
pub fn combination(source: &Source, memory: &mut [u32], m: Machine) -> Stepped
    requires ready { Ready (view source.now) memory.old m }
    requires evaluates { Evaluates source.now.work.now m Kind.combination Kind.equality }
    ensures { Steps (view source.now) memory.old memory.new m result }
{
    m.push_first(source.work, memory, phases::LEFT_SET, modes::EVALUATE, 0)
}

// The left operand has come: the right one is worked out above it.
pub fn left(source: &Source, memory: &mut [u32], m: Machine) -> Stepped
    requires topped { Topped (view source.now) memory.old m }
    requires waiting { Waiting memory.old m Phase.left_set }
    ensures { Takes (view source.now) memory.old memory.new m result }
{
    if m.mode != modes::SET {
        return Err(Refusal {
            number: refusals::WRONG_TYPE,
            place: 0,
        });
    }
    let at = m.frames;
    let top = m.above();
    let k = memory[at + fields::ENTRY];
    frame(
        memory,
        at,
        Words {
            phase: phases::RIGHT_SET,
            entry: k,
            base: m.top,
            at: m.from,
            count: m.value,
            value: 0,
            other: 0,
        },
    );
    Ok(Move::Next(Machine {
        mode: modes::EVALUATE,
        value: k - 1,
        from: 0,
        top,
        frames: at,
        ..m
    }))
}

// The right operand has come.
pub fn right(source: &Source, memory: &mut [u32], m: Machine) -> Stepped
    requires topped { Topped (view source.now) memory.old m }
    requires waiting { Waiting memory.old m Phase.right_set }
    ensures { Takes (view source.now) memory.old memory.new m result }
{
    if m.mode != modes::SET {
        return Err(Refusal {
            number: refusals::WRONG_TYPE,
            place: 0,
        });
    }
    let at = m.frames;
    let k = memory[at + fields::ENTRY] as usize;
    let base = memory[at + fields::BASE] as usize;
    let left = Span {
        at: memory[at + fields::AT] as usize,
        count: memory[at + fields::COUNT] as usize,
    };
    let right = Span {
        at: m.from,
        count: m.value as usize,
    };
    let to = m.above();
    let operator = infix_at(source.work, k);
    let place = place_at(source.work, k);
    let n = combine(place, operator, memory, left, right, to)?;
    lower(memory, to, base, n as usize);
    Ok(Move::Next(Machine {
        mode: modes::SET,
        value: n,
        from: base,
        top: base,
        frames: at + FRAME,
        ..m
    }))
}
