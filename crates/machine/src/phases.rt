// The phases of frames (specs/Holding), in the order of specs/Frames: what a frame waits for.
ghost use Rattle.std.specs.Prelude.{◌≡◌};
ghost use Rattle.machine.specs.Phases.{phases as phases'};

// Numbers and no enum: a frame's word in the lent memory holds them, and phases in a row are tested by their ends.
pub const MEASURED: u32 = 0;

pub const WIDTH: u32 = 1;

pub const LEFT: u32 = 2;

pub const RIGHT: u32 = 3;

pub const LEFT_SET: u32 = 4;

pub const RIGHT_SET: u32 = 5;

pub const LOW: u32 = 6;

pub const HIGH: u32 = 7;

pub const ELEMENTS: u32 = 8;

pub const RANGE_FIRST: u32 = 9;

pub const RANGE_SECOND: u32 = 10;

pub const RANGE_LAST: u32 = 11;

pub const OVER: u32 = 12;

pub const FIRST_NUMBER: u32 = 13;

pub const NEXT_NUMBER: u32 = 14;

pub const FIRST_SET: u32 = 15;

pub const NEXT_SET: u32 = 16;

pub const KEEP_VALUE: u32 = 17;

pub const CAPPING: u32 = 18;

pub const LEFT_FORMULA: u32 = 19;

pub const RIGHT_FORMULA: u32 = 20;

pub const LEFT_COMPARED: u32 = 21;

pub const RIGHT_COMPARED: u32 = 22;

pub const MEMBER: u32 = 23;

pub const AMONG: u32 = 24;

pub const INDEXED: u32 = 25;

pub const REPEAT: u32 = 26;

pub const REPEATED: u32 = 27;

pub const WINDOW_FROM: u32 = 28;

pub const WINDOW_TO: u32 = 29;

pub const WINDOWED: u32 = 30;

pub const OVER_EACH: u32 = 31;

pub const FIRST_EACH: u32 = 32;

pub const NEXT_EACH: u32 = 33;

pub const KEEP_FORMULA: u32 = 34;

pub const BIT_OF: u32 = 35;

// What the constants stand for.
pub fn phases() -> [u32; 36]
    ensures { result ≡ phases' }
{
    [
        MEASURED,
        WIDTH,
        LEFT,
        RIGHT,
        LEFT_SET,
        RIGHT_SET,
        LOW,
        HIGH,
        ELEMENTS,
        RANGE_FIRST,
        RANGE_SECOND,
        RANGE_LAST,
        OVER,
        FIRST_NUMBER,
        NEXT_NUMBER,
        FIRST_SET,
        NEXT_SET,
        KEEP_VALUE,
        CAPPING,
        LEFT_FORMULA,
        RIGHT_FORMULA,
        LEFT_COMPARED,
        RIGHT_COMPARED,
        MEMBER,
        AMONG,
        INDEXED,
        REPEAT,
        REPEATED,
        WINDOW_FROM,
        WINDOW_TO,
        WINDOWED,
        OVER_EACH,
        FIRST_EACH,
        NEXT_EACH,
        KEEP_FORMULA,
        BIT_OF,
    ]
}
