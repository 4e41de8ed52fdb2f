// The limits of document 01 (specs/Limits); those of nodes and signals are the node format's.
ghost use Rattle.std.specs.Prelude.{◌≡◌};
ghost use Rattle.language.specs.Limits.{limits as limits'};

pub const MAX_BYTES: usize = 32768;

pub const MAX_TOKENS: usize = 8192;

// The bytes of a name.
pub const MAX_NAME: usize = 64;

// Declared names.
pub const MAX_NAMES: usize = 256;

pub const MAX_LEVELS: u32 = 256;

pub const MAX_ELEMENTS: usize = 256;

pub const MAX_WIDTH: u32 = 255;

// The words of an enumeration, and the marks of one.
pub const MAX_WORDS: usize = 16;

pub const MAX_MARKS: u32 = 8;

pub const MAX_NUMBER: u32 = 1000000;

pub const WORK_BYTES: usize = 65536;

// The fields of an entry of the signal list: how many offsets, indices and widths there are.
pub const OFFSETS: u32 = 32768;

pub const INDICES: u32 = 256;

pub const WIDTHS: u32 = 256;

// The room of a set: its elements and one more, which stands for every larger set.
pub const SET_ROOM: usize = MAX_ELEMENTS + 1;

// The constants in the order of specs/Limits: what they stand for.
pub fn limits() -> [usize; 14]
    ensures { result ≡ limits' }
{
    [
        MAX_BYTES,
        MAX_TOKENS,
        MAX_NAME,
        MAX_NAMES,
        MAX_LEVELS as usize,
        MAX_ELEMENTS,
        MAX_WIDTH as usize,
        MAX_WORDS,
        MAX_MARKS as usize,
        MAX_NUMBER as usize,
        WORK_BYTES,
        OFFSETS as usize,
        INDICES as usize,
        WIDTHS as usize,
    ]
}
