// A part of an operator's brackets or of a set is complete: what follows it.
ghost use Rattle.std.specs.Prelude.{◌≡◌, ◌≤◌, ◌<◌, ◌^◌};
ghost use Rattle.entries.specs.Cursors.{emitted_of};
ghost use Rattle.expressions.specs.Machines.{Tops};
ghost use Rattle.expressions.specs.Classes.{All, Count, One, Bound, class_number};
ghost use Rattle.expressions.specs.Stack.{class_bits, top_slot, slot_class};
ghost use Rattle.expressions.specs.Complete.{Completed, Ends};
ghost use Rattle.expressions.specs.Reopens.{reopened_of, reopened_in};
ghost use Rattle.expressions.specs.Grown.{Grows, grown_in};
ghost use Rattle.expressions.specs.Sets.{Lists, listed_of, listed_in};
ghost use Rattle.expressions.specs.Elements.{Listings, Goes};

use crate::classes;
use crate::close::{build, operator};
use crate::stack::{LOOSEST, Machine, Turn, start_of};
use entries::fields::TOKENS;
use entries::{Cursor, kinds};
use lexer::numbers;
use operators::fields::LEVELS;
use operators::prefixes::prefix;

// An entry over the last trees.
pub fn grow(c: Cursor, work: &mut [u8], kind: u32, token: usize, operands: usize) -> Cursor
    requires { Grows work.old c kind token operands }
    ensures { (result ≡ emitted_of c) × (work.new ≡ grown_in work.old c kind token operands) }
{
    let out = c.out;
    let start = start_of(work, out, operands);
    c.emit(work, kind, token, 1 + (out - start))
}

// The last frame waits for its next part, from the cursor on.
fn reopen(m: Machine, work: &mut [u8], c: Cursor, class: u32, level: u32) -> Turn
    requires { Tops work.old m × (class < 2 ^ class_bits) }
    ensures { (result ≡ reopened_of m c level) × (work.new ≡ reopened_in work.old m class) }
{
    let f = m.top(work);
    let n = m.popped(f / TOKENS % LEVELS);
    Turn::Next(n.push(work, class, (f % TOKENS) as usize, c, level))
}

// The n of `X[n]`, the n and the m of `F[n:m]`.
pub fn further(m: Machine, work: &mut [u8]) -> Turn
    requires { Completed work.old m × (0 < m.depth) × (class_number Count ≤ slot_class (top_slot work.old m.depth)) × (slot_class (top_slot work.old m.depth) < class_number One) }
    ensures { Ends work.old work.new m result }
{
    let c = m.c;
    let f = m.top(work);
    let class = f / TOKENS / LEVELS;
    let k = c.number(work);
    if class == classes::LOW {
        if k == numbers::COLON {
            return reopen(m, work, c.next(), classes::HIGH, LOOSEST);
        }
        return Turn::Ended(c.refuse(work));
    }
    if k != numbers::CLOSE_BRACKET {
        return Turn::Ended(c.refuse(work));
    }
    let level = prefix(operator(work, f)) % LEVELS;
    if class == classes::COUNT {
        return reopen(m, work, c.next(), classes::STEPPED, level);
    }
    reopen(m, work, c.next(), classes::WITHIN, level)
}

// The list of elements is complete, and with it the set.
fn listed(m: Machine, work: &mut [u8], c: Cursor, parts: usize) -> Turn
    requires { Lists work.old m c parts }
    ensures { (result ≡ listed_of work.old m c parts) × (work.new ≡ listed_in work.old m c parts) }
{
    let d = grow(c, work, kinds::ELEMENT, 0, parts);
    build(m, work, d, kinds::LISTED, 1)
}

// An element from the second on, its frame popped.
fn element(m: Machine, work: &mut [u8]) -> Machine
    requires { Listings work.old m }
    ensures { Goes work.old work.new m result }
{
    let c = m.c;
    let at = c.at;
    if c.number(work) == numbers::COMMA {
        let n = m.push(work, classes::CONS, at, c, 0);
        return n.push(work, classes::MORE, at, c.next(), LOOSEST);
    }
    let d = grow(c, work, kinds::ELEMENT, 0, 1);
    Machine {
        c: d,
        depth: m.depth,
        level: 0,
        complete: true,
    }
}

// The elements of a set.
pub fn set(m: Machine, work: &mut [u8]) -> Turn
    requires { Completed work.old m × (0 < m.depth) × (class_number One ≤ slot_class (top_slot work.old m.depth)) × (slot_class (top_slot work.old m.depth) < class_number Bound) }
    ensures { Ends work.old work.new m result }
{
    let c = m.c;
    let f = m.top(work);
    let class = f / TOKENS / LEVELS;
    let k = c.number(work);
    if class == classes::ONE {
        if k == numbers::COMMA {
            return reopen(m, work, c.next(), classes::TWO, LOOSEST);
        }
        if k == numbers::CLOSE_BRACE {
            return listed(m, work, c.next(), 1);
        }
        return Turn::Ended(c.refuse(work));
    }
    if class == classes::MORE {
        return Turn::Next(element(m.popped(0), work));
    }
    if k == numbers::DOTS {
        return reopen(m, work, c.next(), classes::LAST, LOOSEST);
    }
    let n = m
        .popped(f / TOKENS % LEVELS)
        .push(work, classes::ALL, (f % TOKENS) as usize, c, 0);
    Turn::Next(element(n, work))
}

// The elements from the second on are complete.
pub fn all(m: Machine, work: &mut [u8]) -> Turn
    requires { Completed work.old m × (0 < m.depth) × (slot_class (top_slot work.old m.depth) ≡ class_number All) }
    ensures { Ends work.old work.new m result }
{
    let c = m.c;
    if c.number(work) == numbers::CLOSE_BRACE {
        return listed(m, work, c.next(), 2);
    }
    Turn::Ended(c.refuse(work))
}
