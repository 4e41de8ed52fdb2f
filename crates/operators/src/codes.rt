// The operators of numbers and sets by number, in the order of the language's definitions; an operator of formulas has its nodes' kind.
ghost use Rattle.std.specs.Prelude.{◌≡◌};
ghost use Rattle.operators.specs.Codes.{codes as codes'};

// Numbers and no enum: a row of an operator packs its number with its level and its role (specs/Codes).
pub const PLUS: u32 = 0;

pub const MINUS: u32 = 1;

pub const TIMES: u32 = 2;

pub const DIVIDE: u32 = 3;

pub const MODULO: u32 = 4;

pub const CUP: u32 = 0;

pub const CAP: u32 = 1;

pub const WITHOUT: u32 = 2;

pub const EQUAL: u32 = 0;

pub const UNEQUAL: u32 = 1;

pub const LESS: u32 = 2;

pub const AT_MOST: u32 = 3;

pub const GREATER: u32 = 4;

pub const AT_LEAST: u32 = 5;

pub const SIZE: u32 = 0;

pub const MIN: u32 = 1;

pub const MAX: u32 = 2;

// What the constants stand for.
pub fn codes() -> [u32; 17]
    ensures { result ≡ codes' }
{
    [
        PLUS, MINUS, TIMES, DIVIDE, MODULO, CUP, CAP, WITHOUT, EQUAL, UNEQUAL, LESS, AT_MOST,
        GREATER, AT_LEAST, SIZE, MIN, MAX,
    ]
}
