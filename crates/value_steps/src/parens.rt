// Parentheses, of values and of formulas.
ghost use Rattle.machine.specs.States.{Ready, Steps};
ghost use Rattle.operands.specs.Working.{view};
ghost use Rattle.value_steps.specs.Parens.{Parenthesis};

use machine::{Machine, Move, Stepped};
use operands::Source;

// What stands in it is worked out in its place.
pub fn paren(source: &Source, memory: &[u32], m: Machine) -> Stepped
    requires ready { Ready (view source.now) memory.now m }
    requires parenthesis { Parenthesis source.now.work.now m }
    ensures { Steps (view source.now) memory.now memory.now m result }
{
    Ok(Move::Next(m.came(m.mode, m.value - 1, 0)))
}
