// SIZEOF of a bus.
ghost use Rattle.entries.specs.Kinds as Kind;
ghost use Rattle.machine.specs.Phases as Phase;
ghost use Rattle.machine.specs.States.{Ready, Steps, Topped, Takes};
ghost use Rattle.operands.specs.Working.{view};
ghost use Rattle.machine.specs.Entering.{Evaluates, Waiting};

use machine::{Machine, Move, NOTE, Stepped, fields, modes, phases};
use node::{Refusal, refusals};
use operands::Source;

// The bus is worked out first.
pub fn width(source: &Source, memory: &mut [u32], m: Machine) -> Stepped
    requires ready { Ready (view source.now) memory.old m }
    requires evaluates { Evaluates source.now.work.now m Kind.width Kind.unary }
    ensures { Steps (view source.now) memory.old memory.new m result }
{
    m.push(memory, phases::WIDTH, modes::EVALUATE, m.value - 1)
}

// The bus has come: its width is noted with its name.
pub fn sized(source: &Source, memory: &[u32], m: Machine) -> Stepped
    requires topped { Topped (view source.now) memory.now m }
    requires waiting { Waiting memory.now m Phase.width }
    ensures { Takes (view source.now) memory.now memory.now m result }
{
    if m.mode == modes::UNSIZED {
        return Err(Refusal {
            number: refusals::WRONG_WIDTH,
            place: m.value,
        });
    }
    if m.mode != modes::BUS {
        return Err(Refusal {
            number: refusals::WRONG_TYPE,
            place: 0,
        });
    }
    let n = memory[NOTE * m.from + fields::NOTE_NUMBER];
    Ok(Move::Next(m.popped().came(modes::NUMBER, n, 0)))
}
