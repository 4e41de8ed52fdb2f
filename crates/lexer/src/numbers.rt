// The numbers of tokens, by which the code knows them (specs/Numbers): of classes, then of signs and words in the order of the format's tables. Signs and words that
// no code asks for by name have none here.
// Numbers and no enum: a token's word in the lent buffer holds them.
ghost use Rattle.std.specs.Prelude.{◌≡◌};
ghost use Rattle.lexer.specs.Numbers.{numbers as numbers'};

pub const NAME: u32 = 1;

pub const NUMERAL: u32 = 2;

pub const QUOTED: u32 = 3;

pub const MARKS: u32 = 4;

// The first sign or word.
pub const FIRST_FIXED: u32 = 5;

// Signs.
pub const AT_MOST: u32 = 13;

pub const ARROW: u32 = 15;

pub const DOTS: u32 = 19;

pub const OPEN_BRACE: u32 = 20;

pub const CLOSE_BRACE: u32 = 21;

pub const OPEN_PAREN: u32 = 22;

pub const CLOSE_PAREN: u32 = 23;

pub const OPEN_BRACKET: u32 = 24;

pub const CLOSE_BRACKET: u32 = 25;

pub const SEMICOLON: u32 = 26;

pub const COMMA: u32 = 27;

pub const EQUALS: u32 = 28;

pub const COLON: u32 = 29;

pub const BAR: u32 = 31;

pub const LESS: u32 = 37;

// Words of the format.
pub const INFO: u32 = 40;

pub const TITLE: u32 = 41;

pub const DESCRIPTION: u32 = 42;

pub const SEMANTICS: u32 = 43;

pub const TARGET: u32 = 44;

pub const TAGS: u32 = 45;

pub const MEALY: u32 = 46;

pub const MOORE: u32 = 47;

pub const STRICT: u32 = 48;

pub const GLOBAL: u32 = 49;

pub const PARAMETERS: u32 = 50;

pub const DEFINITIONS: u32 = 51;

pub const ENUM: u32 = 52;

pub const MAIN: u32 = 54;

pub const INPUTS: u32 = 55;

pub const TRUE: u32 = 66;

pub const FALSE: u32 = 67;

pub const LE: u32 = 84;

pub const LEQ: u32 = 85;

pub const IN: u32 = 89;

pub const ELEM: u32 = 90;

// One more than the last of them.
pub const COUNT: u32 = 104;

// What is no token.
pub const NO_NUMBER: u32 = 255;

// What the constants stand for.
pub fn numbers() -> [u32; 43]
    ensures { result ≡ numbers' }
{
    [
        NAME,
        NUMERAL,
        QUOTED,
        MARKS,
        FIRST_FIXED,
        AT_MOST,
        ARROW,
        DOTS,
        OPEN_BRACE,
        CLOSE_BRACE,
        OPEN_PAREN,
        CLOSE_PAREN,
        OPEN_BRACKET,
        CLOSE_BRACKET,
        SEMICOLON,
        COMMA,
        EQUALS,
        COLON,
        BAR,
        LESS,
        INFO,
        TITLE,
        DESCRIPTION,
        SEMANTICS,
        TARGET,
        TAGS,
        MEALY,
        MOORE,
        STRICT,
        GLOBAL,
        PARAMETERS,
        DEFINITIONS,
        ENUM,
        MAIN,
        INPUTS,
        TRUE,
        FALSE,
        LE,
        LEQ,
        IN,
        ELEM,
        COUNT,
        NO_NUMBER,
    ]
}
