// How an operand begins.
ghost use Rattle.std.specs.Prelude.{◌≡◌, false};
ghost use Rattle.language.specs.Tokens.{Name};
ghost use Rattle.entries.specs.Cursors.{number_at};
ghost use Rattle.operators.specs.Tables.{prefix_at};
ghost use Rattle.expressions.specs.States.{Standing, Steps};
ghost use Rattle.expressions.specs.Starts.{Leafs, leaf_of, leaf_written};
ghost use Rattle.lexer.specs.Numbers.{fixed, class_number as tokenNumber};

use crate::classes;
use crate::stack::{LOOSEST, Machine, Turn};
use entries::kinds;
use lexer::numbers;

// The next token alone is an operand.
fn leaf(m: Machine, work: &mut [u8], kind: u32) -> Turn
    requires { Leafs work.old m kind }
    ensures { (result ≡ leaf_of m) × (work.new ≡ leaf_written work.old m kind) }
{
    let c = m.c;
    let at = c.at;
    let d = c.next().emit(work, kind, at, 1);
    Turn::Next(m.climbing(d))
}

// A name, alone or with an index.
fn name(m: Machine, work: &mut [u8]) -> Turn
    requires { Standing false work.old m × (number_at work.old m.c ≡ tokenNumber Name) }
    ensures { Steps false work.old work.new m result }
{
    let c = m.c;
    let at = c.at;
    let d = c.next();
    if d.number(work) == numbers::OPEN_BRACKET {
        return Turn::Next(m.push(work, classes::SQUARE, at, d.next(), LOOSEST));
    }
    leaf(m, work, kinds::NAMED)
}

// A set, after its `{`.
fn brace(m: Machine, work: &mut [u8]) -> Turn
    requires { Standing false work.old m × (number_at work.old m.c ≡ fixed "{") }
    ensures { Steps false work.old work.new m result }
{
    let c = m.c;
    let at = c.at;
    let d = c.next();
    if d.number(work) == numbers::CLOSE_BRACE {
        let e = d.next().emit(work, kinds::LISTED, at, 1);
        return Turn::Next(m.climbing(e));
    }
    Turn::Next(m.push(work, classes::ONE, at, d, LOOSEST))
}

// An operand that begins with no operator.
pub fn atom(m: Machine, work: &mut [u8]) -> Turn
    requires { Standing false work.old m × (prefix_at (number_at work.old m.c) ≡ 0) }
    ensures { Steps false work.old work.new m result }
{
    let c = m.c;
    let at = c.at;
    let k = c.number(work);
    if k == numbers::NAME {
        return name(m, work);
    }
    if k == numbers::NUMERAL {
        return leaf(m, work, kinds::NUMERAL);
    }
    if k == numbers::TRUE {
        return leaf(m, work, kinds::TRUTH);
    }
    if k == numbers::FALSE {
        return leaf(m, work, kinds::TRUTH);
    }
    if k == numbers::OPEN_PAREN {
        return Turn::Next(m.push(work, classes::ROUND, at, c.next(), LOOSEST));
    }
    if k == numbers::BAR {
        return Turn::Next(m.push(work, classes::BARS, at, c.next(), LOOSEST));
    }
    if k == numbers::OPEN_BRACE {
        return brace(m, work);
    }
    Turn::Ended(c.refuse(work))
}
