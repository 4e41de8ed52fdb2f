// The stack of the expression parser: slots from the work buffer's last word downwards. The fields of a slot are class, level and token: of levels there are as many as in
// an operator's row, of tokens as in an entry.
ghost use Rattle.std.specs.Prelude.{◌≡◌, ◌<◌};
ghost use Rattle.expressions.specs.Stack.{constants as constants', put_slot, top_slot, start_of};
ghost use Rattle.expressions.specs.Machines.{Pushes, Tops, Sizes, pushed_of, popped_of, climbing_of};

use entries::fields::{FIRST_ENTRY, SIZES, TOKENS};
use entries::{Cursor, Parse};
use language::limits;
use operators::fields::LEVELS;
use words::{get, put};

// The work buffer's last word, and the end behind it.
const LAST_WORD: usize = limits::WORK_BYTES / 4 - 1;

const STACK_TOP: usize = LAST_WORD + 1;

// The loosest level of an expression, and of a bound of a big operator's name.
pub const LOOSEST: u32 = 17;

pub const BOUNDS: u32 = 8;

// What the constants stand for.
pub fn constants() -> [usize; 4]
    ensures { result ≡ constants' }
{
    [LAST_WORD, STACK_TOP, LOOSEST as usize, BOUNDS as usize]
}

// Where the parser stands, how many slots there are, and the level of the expression that is read; whether an operand of it is complete.
#[derive(Clone, Copy)]
pub struct Machine {
    pub c: Cursor,
    pub depth: usize,
    pub level: u32,
    pub complete: bool,
}

#[derive(Clone, Copy)]
pub enum Turn {
    Next(Machine),
    Ended(Parse),
}

// Like those of the cursor, the functions here have requirements: only `expression` calls them.
impl Machine {
    // A slot more; then an expression is read from the cursor on, at a level.
    pub fn push(self, work: &mut [u8], class: u32, token: usize, c: Cursor, level: u32) -> Machine
        requires { Pushes work.old self class token }
        ensures { (result ≡ pushed_of self c level) × (work.new ≡ put_slot work.old self.depth class self.level token) }
    {
        let depth = self.depth;
        put(
            work,
            LAST_WORD - depth,
            (class * LEVELS + self.level) * TOKENS + (token as u32),
        );
        Machine {
            c,
            depth: depth + 1,
            level,
            complete: false,
        }
    }

    // The last slot.
    pub fn top(self, work: &[u8]) -> u32
        requires { Tops work.now self }
        ensures { result ≡ top_slot work.now self.depth }
    {
        let depth = self.depth;
        get(work, STACK_TOP - depth)
    }

    // A slot less, at a level.
    pub fn popped(self, level: u32) -> Machine
        requires { 0 < self.depth }
        ensures { result ≡ popped_of self level }
    {
        let c = self.c;
        Machine {
            c,
            depth: self.depth - 1,
            level,
            complete: self.complete,
        }
    }

    // An operand is complete, up to the cursor.
    pub fn climbing(self, c: Cursor) -> Machine
        ensures { result ≡ climbing_of self c }
    {
        Machine {
            c,
            depth: self.depth,
            level: self.level,
            complete: true,
        }
    }
}

// Where the last n trees before entry `out` begin.
pub fn start_of(work: &[u8], out: usize, n: usize) -> usize
    requires { Sizes work.now out n }
    ensures { result ≡ start_of work.now out n }
{
    let mut start = out;
    let mut left = n;
    while 0 < left {
        start -= (get(work, FIRST_ENTRY + (start - 1)) % SIZES) as usize;
        left -= 1;
    }
    start
}
