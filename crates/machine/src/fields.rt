// Where the words of a frame and of a note stand (specs/Fields), behind the first, which is a frame's phase and a note's sort.
ghost use Rattle.std.specs.Prelude.{◌≡◌};
ghost use Rattle.machine.specs.Fields.{fields as fields'};

pub const ENTRY: usize = 1;

pub const BASE: usize = 2;

pub const AT: usize = 3;

pub const COUNT: usize = 4;

pub const VALUE: usize = 5;

pub const OTHER: usize = 6;

pub const NOTE_NUMBER: usize = 1;

pub const NOTE_ADDRESS: usize = 2;

pub const NOTE_MARK: usize = 3;

// What the constants stand for.
pub fn fields() -> [usize; 9]
    ensures { result ≡ fields' }
{
    [
        ENTRY,
        BASE,
        AT,
        COUNT,
        VALUE,
        OTHER,
        NOTE_NUMBER,
        NOTE_ADDRESS,
        NOTE_MARK,
    ]
}
