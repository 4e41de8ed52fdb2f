// The sorts of declared names (specs/Sorts).
ghost use Rattle.std.specs.Prelude.{◌≡◌};
ghost use Rattle.name_values.specs.Sorts.{sorts as sorts'};

// Numbers and no enum: the tables of names and the notes in the lent memory hold them.
pub const NUMBER: u8 = 0;

pub const BODY: u8 = 1;

pub const BUS: u8 = 2;

pub const SIGNAL: u8 = 3;

pub const SET: u8 = 4;

pub const IDENTIFIER: u8 = 5;

pub const NOTHING: u8 = 6;

// What the constants stand for.
pub fn sorts() -> [u8; 7]
    ensures { result ≡ sorts' }
{
    [NUMBER, BODY, BUS, SIGNAL, SET, IDENTIFIER, NOTHING]
}
