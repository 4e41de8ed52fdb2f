// A big operator of numbers or sets, and one of formulas where a value is asked for: its set.
ghost use Rattle.std.specs.Prelude.{false, ◌≡◌};
ghost use Rattle.entries.specs.Kinds as Kind;
ghost use Rattle.machine.specs.Phases as Phase;
ghost use Rattle.machine.specs.States.{Ready, Steps, Topped, Takes};
ghost use Rattle.operands.specs.Working.{view};
ghost use Rattle.machine.specs.Entering.{Evaluates, Waiting};
ghost use Rattle.fold_steps.specs.Bigs.{big_by, over_nothing};

use crate::turning::begin;
use entries::kinds;
use machine::{Machine, Move, Stepped, fields, modes, phases};
use node::{Refusal, refusals};
use operands::Source;
use operands::entry::{kind_at, place_at, prefix_at};
use operators::codes;

// The set is worked out first: its expression ends before the entry of the operator's name, which stands before the operand.
pub fn over(source: &Source, memory: &mut [u32], m: Machine) -> Stepped
    requires ready { Ready (view source.now) memory.old m }
    requires evaluates { Evaluates source.now.work.now m Kind.big_numbers (Kind.binder false) }
    ensures { Steps (view source.now) memory.old memory.new m result }
{
    m.push_first(source.work, memory, phases::OVER, modes::EVALUATE, 1)
}

// Over nothing `+` is 0, `*` 1, `(+)` empty; `(*)` is refused.
fn nothing(m: Machine, kind: u32, code: u32, place: u32) -> Stepped
    ensures { result ≡ over_nothing m (big_by kind code) place }
{
    if kind < kinds::BIG_SETS {
        if code == codes::TIMES {
            return Ok(Move::Next(m.came(modes::NUMBER, 1, 0)));
        }
        return Ok(Move::Next(m.came(modes::NUMBER, 0, 0)));
    }
    if code == codes::CUP {
        return Ok(Move::Next(m.came(modes::SET, 0, m.top)));
    }
    Err(Refusal {
        number: refusals::OUT_OF_RANGE,
        place,
    })
}

// The set has come: the operand is worked out at its first element.
pub fn elements(source: &Source, memory: &mut [u32], m: Machine) -> Stepped
    requires topped { Topped (view source.now) memory.old m }
    requires waiting { Waiting memory.old m Phase.over }
    ensures { Takes (view source.now) memory.old memory.new m result }
{
    if m.mode != modes::SET {
        return Err(Refusal {
            number: refusals::WRONG_TYPE,
            place: 0,
        });
    }
    let at = m.frames;
    let k = memory[at + fields::ENTRY] as usize;
    let kind = kind_at(source.work, k);
    if kind >= kinds::BIG_FORMULAS {
        return Ok(Move::Next(m.popped().came(modes::LOGIC, 0, 0)));
    }
    if m.value == 0 {
        return nothing(
            m.popped(),
            kind,
            prefix_at(source.work, k),
            place_at(source.work, k),
        );
    }
    if kind < kinds::BIG_SETS {
        return Ok(Move::Next(begin(memory, m, phases::FIRST_NUMBER, modes::EVALUATE)));
    }
    Ok(Move::Next(begin(memory, m, phases::FIRST_SET, modes::EVALUATE)))
}
