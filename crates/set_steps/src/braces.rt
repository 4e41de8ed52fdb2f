// A set in braces. Its numbers stand in their order where the frame's values begin, and are made a set when the last one has come.
ghost use Rattle.std.specs.Prelude.{◌≡◌};
ghost use Rattle.entries.specs.Kinds as Kind;
ghost use Rattle.machine.specs.Phases as Phase;
ghost use Rattle.machine.specs.States.{Ready, Steps, Topped, Takes};
ghost use Rattle.operands.specs.Working.{view};
ghost use Rattle.machine.specs.Entering.{Evaluates, Waiting};
ghost use Rattle.set_steps.specs.Braces.{element_at, Elementary};

use crate::making::made;
use entries::kinds;
use machine::{FRAME, Machine, Move, ROOM, Stepped, Words, fields, frame, modes, phases};
use memory_sets::sorted::sorted;
use node::{Refusal, refusals};
use operands::Source;
use operands::entry::{kind_at, place_at, size_at};

// Where the expression of an element at entry j ends: the further elements stand behind it.
fn expression(work: &[u8], j: usize) -> usize
    requires { Elementary work.now j }
    ensures { result ≡ element_at work.now j }
{
    if kind_at(work, j - 1) == kinds::ELEMENT {
        return j - 1 - size_at(work, j - 1);
    }
    j - 1
}

// No element: the empty set. Else the first is worked out.
pub fn listing(source: &Source, memory: &mut [u32], m: Machine) -> Stepped
    requires ready { Ready (view source.now) memory.old m }
    requires evaluates { Evaluates source.now.work.now m Kind.listed Kind.element }
    ensures { Steps (view source.now) memory.old memory.new m result }
{
    let k = m.value;
    let top = m.top;
    let frames = m.frames;
    if size_at(source.work, k as usize) == 1 {
        return Ok(Move::Next(m.came(modes::SET, 0, top)));
    }
    if frames - top < ROOM + k as usize {
        return Ok(Move::Short);
    }
    let at = frames - FRAME;
    let j = expression(source.work, (k - 1) as usize);
    frame(
        memory,
        at,
        Words {
            phase: phases::ELEMENTS,
            entry: k - 1,
            base: top,
            at: top,
            count: 0,
            value: k,
            other: 0,
        },
    );
    Ok(Move::Next(Machine {
        mode: modes::EVALUATE,
        value: j as u32,
        from: 0,
        top,
        frames: at,
        ..m
    }))
}

// An element has come: it is put behind the others, and the next is worked out, if there is one.
pub fn element(source: &Source, memory: &mut [u32], m: Machine) -> Stepped
    requires topped { Topped (view source.now) memory.old m }
    requires waiting { Waiting memory.old m Phase.elements }
    ensures { Takes (view source.now) memory.old memory.new m result }
{
    if m.mode != modes::NUMBER {
        return Err(Refusal {
            number: refusals::WRONG_TYPE,
            place: 0,
        });
    }
    let at = m.frames;
    let j = memory[at + fields::ENTRY];
    let base = memory[at + fields::BASE] as usize;
    let count = memory[at + fields::COUNT];
    let k = memory[at + fields::VALUE];
    memory[base + count as usize] = m.value;
    if kind_at(source.work, j as usize - 1) != kinds::ELEMENT {
        let r = sorted(
            memory,
            base,
            count as usize + 1,
            place_at(source.work, k as usize),
        );
        return made(m, base, r);
    }
    let i = expression(source.work, j as usize - 1);
    frame(
        memory,
        at,
        Words {
            phase: phases::ELEMENTS,
            entry: j - 1,
            base,
            at: base,
            count: count + 1,
            value: k,
            other: 0,
        },
    );
    Ok(Move::Next(Machine {
        mode: modes::EVALUATE,
        value: i as u32,
        from: 0,
        top: base + count as usize + 1,
        frames: at,
        ..m
    }))
}
