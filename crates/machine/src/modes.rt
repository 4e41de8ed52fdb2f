// The modes of the machine (specs/Telling, specs/States): an entry is worked out as a value or as a formula; then what has come, by the kinds of values.
ghost use Rattle.std.specs.Prelude.{◌≡◌};
ghost use Rattle.machine.specs.Modes.{modes as modes'};

// Numbers and no enum: Modes, Telling and the steps' clauses name the mode of a state by its number.
pub const EVALUATE: u32 = 0;

pub const EXPAND: u32 = 1;

pub const NUMBER: u32 = 2;

pub const SET: u32 = 3;

pub const LOGIC: u32 = 4;

pub const BUS: u32 = 5;

pub const UNSIZED: u32 = 6;

pub const CHOICE: u32 = 7;

pub const NODES: u32 = 8;

// What the constants stand for.
pub fn modes() -> [u32; 9]
    ensures { result ≡ modes' }
{
    [
        EVALUATE, EXPAND, NUMBER, SET, LOGIC, BUS, UNSIZED, CHOICE, NODES,
    ]
}
