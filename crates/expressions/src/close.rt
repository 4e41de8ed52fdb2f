// An expression is complete: its frame makes a tree of it.
ghost use Rattle.std.specs.Prelude.{◌≡◌, ◌≤◌, ◌<◌, length};
ghost use Rattle.language.specs.Limits.{work_bytes};
ghost use Rattle.expressions.specs.declared.stack.Turn.TheVariants.{Next};
ghost use Rattle.expressions.specs.Classes.{Round, All, class_number};
ghost use Rattle.expressions.specs.Stack.{top_slot, slot_class};
ghost use Rattle.expressions.specs.Complete.{Completed, Ends, Builds, built_of, built_in};
ghost use Rattle.expressions.specs.Wholes.{operator_in};

use crate::classes;
use crate::stack::{Machine, Turn, start_of};
use entries::fields::TOKENS;
use entries::{Cursor, kinds};
use lexer::fields::{LENGTHS, OFFSETS};
use lexer::numbers;
use operators::fields::LEVELS;
use operators::infixes::infix;
use operators::prefixes::prefix;
use operators::{infixes, prefixes};
use words::get;

// The number of a slot's token.
pub fn operator(work: &[u8], slot: u32) -> u32
    requires { work_bytes ≤ length work.now }
    ensures { result ≡ operator_in work.now slot }
{
    get(work, (slot % TOKENS) as usize) / LENGTHS / OFFSETS
}

// The last frame's tree of so many operands is complete at the cursor.
pub fn build(m: Machine, work: &mut [u8], c: Cursor, kind: u32, operands: usize) -> Turn
    requires { Builds work.old m c kind operands }
    ensures { (result ≡ Next (built_of work.old m c)) × (work.new ≡ built_in work.old m c kind operands) }
{
    let f = m.top(work);
    let out = c.out;
    let start = start_of(work, out, operands);
    let d = c.emit(work, kind, (f % TOKENS) as usize, 1 + (out - start));
    Turn::Next(m.popped(f / TOKENS % LEVELS).climbing(d))
}

// A frame whose tree needs no sign behind it.
pub fn whole(m: Machine, work: &mut [u8]) -> Turn
    requires { Completed work.old m × (0 < m.depth) × (slot_class (top_slot work.old m.depth) < class_number Round) }
    ensures { Ends work.old work.new m result }
{
    let c = m.c;
    let f = m.top(work);
    let class = f / TOKENS / LEVELS;
    if class == classes::STEPPED {
        return build(m, work, c, kinds::NEXTS, 2);
    }
    if class == classes::CONS {
        return build(m, work, c, kinds::ELEMENT, 2);
    }
    let k = operator(work, f);
    if class == classes::RIGHT {
        return build(m, work, c, infix(k) / infixes::KIND % kinds::KINDS, 2);
    }
    if class == classes::SOLE {
        return build(m, work, c, prefix(k) / prefixes::SOLE % kinds::KINDS, 1);
    }
    if class == classes::WITHIN {
        return build(m, work, c, prefix(k) / prefixes::WINDOW % kinds::KINDS, 3);
    }
    build(m, work, c, prefix(k) / prefixes::SOLE % kinds::KINDS, 2)
}

// A frame whose tree needs a sign behind it.
pub fn close(m: Machine, work: &mut [u8]) -> Turn
    requires { Completed work.old m × (0 < m.depth) × (class_number Round ≤ slot_class (top_slot work.old m.depth)) × (slot_class (top_slot work.old m.depth) < class_number All) }
    ensures { Ends work.old work.new m result }
{
    let c = m.c;
    let f = m.top(work);
    let class = f / TOKENS / LEVELS;
    let k = c.number(work);
    if class == classes::ROUND {
        if k == numbers::CLOSE_PAREN {
            return build(m, work, c.next(), kinds::PAREN, 1);
        }
        return Turn::Ended(c.refuse(work));
    }
    if class == classes::BARS {
        if k == numbers::BAR {
            return build(m, work, c.next(), kinds::MEASURE, 1);
        }
        return Turn::Ended(c.refuse(work));
    }
    if class == classes::SQUARE {
        if k == numbers::CLOSE_BRACKET {
            return build(m, work, c.next(), kinds::INDEX, 1);
        }
        return Turn::Ended(c.refuse(work));
    }
    if k == numbers::CLOSE_BRACE {
        return build(m, work, c.next(), kinds::RANGE, 3);
    }
    Turn::Ended(c.refuse(work))
}
