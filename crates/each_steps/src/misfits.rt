// A formula where a value is asked for, and a value where a formula is.
ghost use Rattle.machine.specs.States.{Ready, Steps};
ghost use Rattle.operands.specs.Working.{view};
ghost use Rattle.each_steps.specs.Misfits.{Logical, Formless};

use machine::{Machine, Move, Stepped, modes};
use node::{Refusal, refusals};
use operands::Source;

// A formula is only marked as one.
pub fn logic(source: &Source, memory: &[u32], m: Machine) -> Stepped
    requires ready { Ready (view source.now) memory.now m }
    requires logical { Logical source.now.work.now m }
    ensures { Steps (view source.now) memory.now memory.now m result }
{
    Ok(Move::Next(m.came(modes::LOGIC, 0, 0)))
}

// No text that has passed refusal 9 comes to this.
pub fn misfit(source: &Source, memory: &[u32], m: Machine) -> Stepped
    requires ready { Ready (view source.now) memory.now m }
    requires formless { Formless source.now.work.now m }
    ensures { Steps (view source.now) memory.now memory.now m result }
{
    Err(Refusal {
        number: refusals::WRONG_TYPE,
        place: 0,
    })
}
