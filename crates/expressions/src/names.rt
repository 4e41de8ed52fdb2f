// The bounds or the set of a big operator's name is complete: the name is bound.
ghost use Rattle.std.specs.Prelude.{◌≡◌, ◌≤◌, ◌<◌, length};
ghost use Rattle.words.specs.Words.{word_at};
ghost use Rattle.language.specs.Limits.{work_bytes, max_tokens};
ghost use Rattle.lexer.specs.Stored.{number_in};
ghost use Rattle.expressions.specs.Classes.{Bound, class_number};
ghost use Rattle.expressions.specs.Stack.{top_slot, slot_class};
ghost use Rattle.expressions.specs.Complete.{Completed, Ends};
ghost use Rattle.expressions.specs.Signs.{sign_at};
ghost use Rattle.expressions.specs.NameStates.{Ranging, Binds, binder_kind};
ghost use Rattle.expressions.specs.NameStarts.{between_at};

use crate::classes;
use crate::close::operator;
use crate::roles::binder;
use crate::sets::grow;
use crate::stack::{BOUNDS, Machine, Turn};
use entries::fields::TOKENS;
use entries::{Cursor, kinds};
use lexer::fields::{LENGTHS, OFFSETS};
use lexer::numbers;
use operators::fields::LEVELS;
use operators::prefixes::prefix;
use operators::signs::strict;
use words::get;

// Is it a sign of bounds?
fn sign(number: u32) -> bool
    ensures { result ≡ sign_at number }
{
    if strict(number) {
        return true;
    }
    if number == numbers::AT_MOST {
        return true;
    }
    number == numbers::LEQ
}

// The kind of the entry of bounds, by the number of the high one's sign.
fn between(high: u32) -> u32
    ensures { result ≡ between_at high }
{
    if strict(high) {
        return kinds::BETWEEN_NO_HIGH;
    }
    kinds::BETWEEN
}

// The kind of the entry of a name, which is the first where the operator's level is not 0.
fn binder_kind(level: u32) -> u32
    ensures { result ≡ binder_kind level }
{
    if level == 0 {
        return kinds::FURTHER_BINDER;
    }
    kinds::BINDER
}

// The number of a token.
fn number(work: &[u8], at: usize) -> u32
    requires { (work_bytes ≤ length work.now) × (at < max_tokens) }
    ensures { result ≡ number_in (word_at work.now at) }
{
    get(work, at) / LENGTHS / OFFSETS
}

// The name is bound: further names follow, or the operand.
fn named(m: Machine, work: &mut [u8], c: Cursor, name: usize) -> Turn
    requires { Ranging work.old m c name }
    ensures { Binds work.old work.new m c name result }
{
    let f = m.top(work);
    let d = grow(c, work, binder_kind(f / TOKENS % LEVELS), name, 1);
    let k = d.number(work);
    if k == numbers::COMMA {
        let n = Machine {
            c: d,
            depth: m.depth,
            level: 0,
            complete: false,
        };
        return Turn::Next(binder(n, work, d.next(), (f % TOKENS) as usize));
    }
    if k == numbers::CLOSE_BRACKET {
        let level = prefix(operator(work, f)) % LEVELS;
        let e = d.next();
        return Turn::Next(Machine {
            c: e,
            depth: m.depth,
            level,
            complete: false,
        });
    }
    Turn::Ended(d.refuse(work))
}

// The low bound: a sign, the name and a sign must follow.
fn low(m: Machine, work: &mut [u8]) -> Turn
    requires { Completed work.old m × (0 < m.depth) × (slot_class (top_slot work.old m.depth) ≡ class_number Bound) }
    ensures { Ends work.old work.new m result }
{
    let c = m.c;
    let at = c.at;
    if !sign(c.number(work)) {
        return Turn::Ended(c.refuse(work));
    }
    let d = c.next();
    if d.number(work) != numbers::NAME {
        return Turn::Ended(d.refuse(work));
    }
    let e = d.next();
    if !sign(e.number(work)) {
        return Turn::Ended(e.refuse(work));
    }
    let f = m.top(work);
    let g = e.next();
    let n = m
        .popped(f / TOKENS % LEVELS)
        .push(work, classes::OVER, (f % TOKENS) as usize, g, 0);
    Turn::Next(n.push(work, classes::UPPER, at, g, BOUNDS))
}

// A bound or a set.
pub fn names(m: Machine, work: &mut [u8]) -> Turn
    requires { Completed work.old m × (0 < m.depth) × (class_number Bound ≤ slot_class (top_slot work.old m.depth)) }
    ensures { Ends work.old work.new m result }
{
    let c = m.c;
    let f = m.top(work);
    let class = f / TOKENS / LEVELS;
    if class == classes::BOUND {
        return low(m, work);
    }
    let at = (f % TOKENS) as usize;
    if class == classes::UPPER {
        let kind = between(number(work, at + 2));
        let d = grow(c, work, kind, at, 2);
        return named(m.popped(0), work, d, at + 1);
    }
    named(m.popped(0), work, c, at)
}
