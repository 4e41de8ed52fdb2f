// SIZE, MIN and MAX of a set.
ghost use Rattle.entries.specs.Kinds as Kind;
ghost use Rattle.machine.specs.Phases as Phase;
ghost use Rattle.machine.specs.States.{Ready, Steps, Topped, Takes};
ghost use Rattle.operands.specs.Working.{view};
ghost use Rattle.machine.specs.Entering.{Evaluates, Waiting};

use machine::{Machine, Stepped, fields, modes, phases};
use memory_sets::Span;
use memory_sets::one::measure;
use node::{Refusal, refusals};
use operands::Source;
use operands::entry::{place_at, prefix_at};

// The set is worked out first.
pub fn measurement(source: &Source, memory: &mut [u32], m: Machine) -> Stepped
    requires ready { Ready (view source.now) memory.old m }
    requires evaluates { Evaluates source.now.work.now m Kind.measure Kind.width }
    ensures { Steps (view source.now) memory.old memory.new m result }
{
    m.push(memory, phases::MEASURED, modes::EVALUATE, m.value - 1)
}

// The set has come: it is measured where it stands.
pub fn measured(source: &Source, memory: &[u32], m: Machine) -> Stepped
    requires topped { Topped (view source.now) memory.now m }
    requires waiting { Waiting memory.now m Phase.measured }
    ensures { Takes (view source.now) memory.now memory.now m result }
{
    if m.mode != modes::SET {
        return Err(Refusal {
            number: refusals::WRONG_TYPE,
            place: 0,
        });
    }
    let k = memory[m.frames + fields::ENTRY] as usize;
    let set = Span {
        at: m.from,
        count: m.value as usize,
    };
    let operator = prefix_at(source.work, k);
    let r = measure(place_at(source.work, k), operator, memory, set);
    m.popped().numbered(r)
}
