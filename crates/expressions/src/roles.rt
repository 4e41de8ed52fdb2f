// How an operand begins with an operator, and how a name of a big operator does.
ghost use Rattle.std.specs.Prelude.{◌≡◌, false, ◌≤◌};
ghost use Rattle.entries.specs.Cursors.{Fits, number_at};
ghost use Rattle.operators.specs.Fields.{level_field, role_field, folding_role};
ghost use Rattle.operators.specs.Tables.{prefix_at};
ghost use Rattle.expressions.specs.States.{Standing, Steps};
ghost use Rattle.expressions.specs.Binders.{among_at, member_at, Naming, Names};

use crate::classes;
use crate::stack::{BOUNDS, LOOSEST, Machine, Turn};
use crate::start::atom;
use entries::Cursor;
use lexer::numbers;
use operators::fields::LEVELS;
use operators::prefixes;
use operators::prefixes::prefix;

fn among(number: u32) -> bool
    ensures { result ≡ among_at number }
{
    if number == numbers::IN {
        return true;
    }
    if number == numbers::ELEM {
        return true;
    }
    number == numbers::ARROW
}

// Does a name with its set follow?
fn member(c: Cursor, work: &[u8]) -> bool
    requires { Fits work.now c }
    ensures { result ≡ member_at work.now c }
{
    if c.number(work) == numbers::NAME {
        return among(c.next().number(work));
    }
    false
}

// A name of the big operator that is the token begins at the cursor.
pub fn binder(m: Machine, work: &mut [u8], c: Cursor, token: usize) -> Machine
    requires { Naming work.old m c token }
    ensures { Names work.old work.new m c token result }
{
    if member(c, work) {
        let name = c.at;
        let n = m.push(work, classes::OVER, token, c, 0);
        return n.push(work, classes::MEMBER, name, c.next().next(), LOOSEST);
    }
    m.push(work, classes::BOUND, token, c, BOUNDS)
}

// A big operator.
fn fold(m: Machine, work: &mut [u8]) -> Turn
    requires { Standing false work.old m × (role_field (prefix_at (number_at work.old m.c)) ≡ folding_role) × (level_field (prefix_at (number_at work.old m.c)) ≤ m.level) }
    ensures { Steps false work.old work.new m result }
{
    let c = m.c;
    let at = c.at;
    let r = c.next().expect(work, numbers::OPEN_BRACKET);
    let Ok(d) = r else {
        return Turn::Ended(r);
    };
    Turn::Next(binder(m, work, d, at))
}

// An expression is read: its first operand.
pub fn operand(m: Machine, work: &mut [u8]) -> Turn
    requires { Standing false work.old m }
    ensures { Steps false work.old work.new m result }
{
    let c = m.c;
    let at = c.at;
    let p = prefix(c.number(work));
    if p == 0 {
        return atom(m, work);
    }
    let level = p % LEVELS;
    if m.level < level {
        return Turn::Ended(c.refuse(work));
    }
    let role = p / prefixes::ROLE % prefixes::ROLES;
    if role == prefixes::FOLDING {
        return fold(m, work);
    }
    let d = c.next();
    if role == prefixes::PLAIN {
        return Turn::Next(m.push(work, classes::SOLE, at, d, level));
    }
    if d.number(work) != numbers::OPEN_BRACKET {
        return Turn::Next(m.push(work, classes::SOLE, at, d, level));
    }
    if role == prefixes::COUNTED {
        return Turn::Next(m.push(work, classes::COUNT, at, d.next(), LOOSEST));
    }
    Turn::Next(m.push(work, classes::LOW, at, d.next(), LOOSEST))
}
