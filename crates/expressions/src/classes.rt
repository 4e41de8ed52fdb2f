// The classes of frames (specs/Classes): what the expression that is read is. `climb::pop` tells groups of them apart by the first of each.
ghost use Rattle.std.specs.Prelude.{◌≡◌};
ghost use Rattle.expressions.specs.Classes.{class_numbers};

// Numbers and no enum: a frame's word in the work buffer holds them.
pub const RIGHT: u32 = 1;

pub const SOLE: u32 = 2;

pub const STEPPED: u32 = 3;

pub const WITHIN: u32 = 4;

pub const CONS: u32 = 5;

pub const OVER: u32 = 6;

pub const ROUND: u32 = 7;

pub const BARS: u32 = 8;

pub const SQUARE: u32 = 9;

pub const LAST: u32 = 10;

pub const ALL: u32 = 11;

pub const COUNT: u32 = 12;

pub const LOW: u32 = 13;

pub const HIGH: u32 = 14;

pub const ONE: u32 = 15;

pub const TWO: u32 = 16;

pub const MORE: u32 = 17;

pub const BOUND: u32 = 18;

pub const UPPER: u32 = 19;

pub const MEMBER: u32 = 20;

// What the constants stand for.
pub fn classes() -> [u32; 20]
    ensures { result ≡ class_numbers }
{
    [
        RIGHT, SOLE, STEPPED, WITHIN, CONS, OVER, ROUND, BARS, SQUARE, LAST, ALL, COUNT, LOW, HIGH,
        ONE, TWO, MORE, BOUND, UPPER, MEMBER,
    ]
}
