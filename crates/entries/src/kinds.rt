// The kinds of entries (specs/Kinds): operators of one group have one kind.
ghost use Rattle.std.specs.Prelude.{◌≡◌};
ghost use Rattle.entries.specs.Kinds.{kinds as kinds'};

// Numbers and no enum: an entry's word in the work buffer holds them, the definitions compare them by size, and Kinds states them.
// Leaves, an index and a parenthesis.
pub const NAMED: u32 = 0;

pub const NUMERAL: u32 = 1;

pub const TRUTH: u32 = 2;

pub const INDEX: u32 = 4;

pub const PAREN: u32 = 5;

// Operators before their operand: of sets, of a bus, of formulas.
pub const MEASURE: u32 = 6;

pub const WIDTH: u32 = 9;

pub const UNARY: u32 = 10;

// Operators between two operands: of numbers, of sets, comparisons of anything and of numbers alone, IN, of formulas.
pub const ARITHMETIC: u32 = 14;

pub const COMBINATION: u32 = 19;

pub const EQUALITY: u32 = 22;

pub const ORDER: u32 = 24;

pub const MEMBERSHIP: u32 = 28;

pub const BINARY: u32 = 29;

// `X[n]`; `F[n:m]` and `G[n:m]`.
pub const NEXTS: u32 = 36;

pub const WINDOW: u32 = 37;

// Big operators of numbers, of sets, of formulas; the names that they bind.
pub const BIG_NUMBERS: u32 = 39;

pub const BIG_SETS: u32 = 41;

pub const BIG_FORMULAS: u32 = 43;

pub const BINDER: u32 = 45;

pub const FURTHER_BINDER: u32 = 46;

// Bounds with the high end, and without it.
pub const BETWEEN: u32 = 47;

pub const BETWEEN_NO_HIGH: u32 = 48;

// Sets.
pub const LISTED: u32 = 51;

pub const ELEMENT: u32 = 52;

pub const RANGE: u32 = 53;

// Lines, and a subsection's heading.
pub const PARAMETER: u32 = 54;

pub const DEFINITION: u32 = 55;

pub const ENUMERATION: u32 = 56;

pub const IDENTIFIER: u32 = 57;

pub const WORD: u32 = 58;

pub const SIGNAL: u32 = 59;

pub const BUS: u32 = 60;

pub const TYPED: u32 = 61;

pub const LINE: u32 = 62;

pub const HEADING: u32 = 63;

// How many numbers there are for kinds.
pub const KINDS: u32 = 64;

// The first kind of lines.
pub const LINES: u32 = PARAMETER;

// What the constants stand for.
pub fn kinds() -> [u32; 37]
    ensures { result ≡ kinds' }
{
    [
        NAMED,
        NUMERAL,
        TRUTH,
        INDEX,
        PAREN,
        MEASURE,
        WIDTH,
        UNARY,
        ARITHMETIC,
        COMBINATION,
        EQUALITY,
        ORDER,
        MEMBERSHIP,
        BINARY,
        NEXTS,
        WINDOW,
        BIG_NUMBERS,
        BIG_SETS,
        BIG_FORMULAS,
        BINDER,
        FURTHER_BINDER,
        BETWEEN,
        BETWEEN_NO_HIGH,
        LISTED,
        ELEMENT,
        RANGE,
        PARAMETER,
        DEFINITION,
        ENUMERATION,
        IDENTIFIER,
        WORD,
        SIGNAL,
        BUS,
        TYPED,
        LINE,
        HEADING,
        KINDS,
    ]
}
