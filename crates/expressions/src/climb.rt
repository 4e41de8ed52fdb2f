// Operators between operands, and the end of an expression.
ghost use Rattle.std.specs.Prelude.{◌≡◌, true, not, ◌&&◌, eqb, leb};
ghost use Rattle.operators.specs.Fields.{level_field};
ghost use Rattle.expressions.specs.States.{Standing, Steps};
ghost use Rattle.expressions.specs.Complete.{Completed, Ends};

use crate::classes;
use crate::close::{close, whole};
use crate::names::names;
use crate::roles::operand;
use crate::sets::{all, further, set};
use crate::stack::{Machine, Turn};
use entries::fields::TOKENS;
use operators::fields::LEVELS;
use operators::infixes;
use operators::infixes::infix;

// No operator follows: the last frame takes the expression.
fn pop(m: Machine, work: &mut [u8]) -> Turn
    requires { Completed work.old m }
    ensures { Ends work.old work.new m result }
{
    if m.depth == 0 {
        let c = m.c;
        return Turn::Ended(Ok(c));
    }
    let class = m.top(work) / TOKENS / LEVELS;
    if class < classes::ROUND {
        return whole(m, work);
    }
    if class < classes::ALL {
        return close(m, work);
    }
    if class == classes::ALL {
        return all(m, work);
    }
    if class < classes::ONE {
        return further(m, work);
    }
    if class < classes::BOUND {
        return set(m, work);
    }
    names(m, work)
}

// The row is that of an operator, of a level up to this one.
fn tight(row: u32, level: u32) -> bool
    ensures { result ≡ (not (eqb row 0) && leb (level_field row) level) }
{
    if row == 0 {
        return false;
    }
    row % LEVELS <= level
}

// An operand is complete: an operator that is tight enough goes on with it.
fn climb(m: Machine, work: &mut [u8]) -> Turn
    requires { Standing true work.old m }
    ensures { Steps true work.old work.new m result }
{
    let c = m.c;
    let at = c.at;
    let q = infix(c.number(work));
    if tight(q, m.level) {
        return Turn::Next(m.push(
            work,
            classes::RIGHT,
            at,
            c.next(),
            q / infixes::RIGHT % LEVELS,
        ));
    }
    pop(m, work)
}

// One step.
pub fn advance(m: Machine, work: &mut [u8]) -> Turn
    requires { Standing m.complete work.old m }
    ensures { Steps m.complete work.old work.new m result }
{
    if m.complete {
        return climb(m, work);
    }
    operand(m, work)
}
