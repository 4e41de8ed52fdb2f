// Expressions: tokens to entries, by a stack of frames in the work buffer, so that no depth of a text is a depth of calls.
// The functions ask for a cursor on stored tokens with room for the entries to come, as `parser` has it.
#![tactic(auto)]

mod classes;
mod climb;
mod close;
mod names;
mod roles;
mod sets;
mod stack;
mod start;

ghost use Rattle.language.specs.Sections.{expression as expressionOf};
ghost use Rattle.entries.specs.Flat.{flat};
ghost use Rattle.entries.specs.Cursors.{Readied};
ghost use Rattle.entries.specs.Reads.{Parses};

use climb::advance;
use entries::{Cursor, Parse};
use stack::{LOOSEST, Machine, Turn};

// An expression of any level from the cursor on. A requirement: the reader, which calls it, has lexed the text into the buffer.
pub fn expression(c: Cursor, work: &mut [u8]) -> Parse
    requires { Readied work.old c }
    ensures { Parses expressionOf flat work.old work.new c result }
{
    let mut m = Machine {
        c,
        depth: 0,
        level: LOOSEST,
        complete: false,
    };
    // A step of the stack at a time: no index counts.
    loop {
        let t = advance(m, work);
        match t {
            Turn::Next(n) => {
                m = n;
            }
            Turn::Ended(p) => {
                return p;
            }
        }
    }
}
