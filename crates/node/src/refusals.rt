// The refusals of documents 01 and 02 by their numbers.
ghost use Rattle.std.specs.Prelude.{◌≡◌};
ghost use Rattle.node.specs.Refusals.{refusals as refusals'};

// Numbers and no enum: the definitions (node/specs/Result) and the interface for C tell a refusal by its number.
// The text is too long.
pub const TOO_LONG: u32 = 1;

// No token starts here, or one is not closed.
pub const NO_TOKEN: u32 = 2;

pub const TOO_MANY_TOKENS: u32 = 3;

// No text of the grammar continues here.
pub const NOT_GRAMMAR: u32 = 4;

pub const TOO_DEEP: u32 = 5;

pub const NOT_VISIBLE: u32 = 6;

pub const DECLARED_AGAIN: u32 = 7;

pub const TOO_MANY_NAMES: u32 = 8;

pub const WRONG_TYPE: u32 = 9;

// The words of an enumeration.
pub const WRONG_WORDS: u32 = 10;

pub const OUT_OF_RANGE: u32 = 11;

// A set.
pub const TOO_LARGE: u32 = 12;

pub const WRONG_WIDTH: u32 = 13;

pub const OTHER_MODEL: u32 = 14;

pub const TOO_MANY_SIGNALS: u32 = 15;

pub const TOO_MANY_NODES: u32 = 16;

// The work buffer.
pub const SHORT_WORK: u32 = 17;

// A result buffer.
pub const SHORT_RESULT: u32 = 18;

pub const BAD_TABLE: u32 = 19;

pub const BAD_RECORDING: u32 = 20;

pub const BAD_FORM: u32 = 21;

// A name too long for the basic format, or equal to an earlier one.
pub const UNWRITABLE_NAME: u32 = 22;

// A recording of fewer signals than the table's.
pub const UNRECORDED_SIGNALS: u32 = 23;

// The numbers in the documents' order: what the constants stand for.
pub fn refusals() -> [u32; 23]
    ensures { result ≡ refusals' }
{
    [
        TOO_LONG,
        NO_TOKEN,
        TOO_MANY_TOKENS,
        NOT_GRAMMAR,
        TOO_DEEP,
        NOT_VISIBLE,
        DECLARED_AGAIN,
        TOO_MANY_NAMES,
        WRONG_TYPE,
        WRONG_WORDS,
        OUT_OF_RANGE,
        TOO_LARGE,
        WRONG_WIDTH,
        OTHER_MODEL,
        TOO_MANY_SIGNALS,
        TOO_MANY_NODES,
        SHORT_WORK,
        SHORT_RESULT,
        BAD_TABLE,
        BAD_RECORDING,
        BAD_FORM,
        UNWRITABLE_NAME,
        UNRECORDED_SIGNALS,
    ]
}
