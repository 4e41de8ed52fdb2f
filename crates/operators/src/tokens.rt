// The numbers of the tokens that are operators (crate lexer, specs/Numbers) and have no name in lexer::numbers: signs, then words.
ghost use Rattle.std.specs.Prelude.{◌≡◌};
ghost use Rattle.operators.specs.Tokens.{tokens as tokens'};

// Numbers and no enum: the words of tokens in the work buffer hold them, and Tokens states them.
// `<->`
pub const EQUIVALENCE: u32 = 5;

// `(*)`
pub const CIRCLED_STAR: u32 = 6;

// `(+)`
pub const CIRCLED_PLUS: u32 = 7;

// `(\)`
pub const CIRCLED_BACKSLASH: u32 = 8;

// `(-)`
pub const CIRCLED_MINUS: u32 = 9;

// `==`
pub const DOUBLE_EQUALS: u32 = 10;

// `!=`
pub const BANG_EQUALS: u32 = 11;

// `/=`
pub const SLASH_EQUALS: u32 = 12;

// `>=`
pub const AT_LEAST: u32 = 14;

// `->`
pub const IMPLICATION: u32 = 16;

// `&&`
pub const CONJUNCTION: u32 = 17;

// `||`
pub const DISJUNCTION: u32 = 18;

// `*`
pub const STAR: u32 = 32;

// `/`
pub const SLASH: u32 = 33;

// `%`
pub const PERCENT: u32 = 34;

// `+`
pub const PLUS_SIGN: u32 = 35;

// `-`
pub const MINUS_SIGN: u32 = 36;

// `>`
pub const GREATER: u32 = 38;

// `!`
pub const BANG: u32 = 39;

pub const SUM: u32 = 68;

pub const PROD: u32 = 69;

pub const SIZE: u32 = 70;

pub const MIN: u32 = 71;

pub const MAX: u32 = 72;

pub const SIZEOF: u32 = 73;

pub const MUL: u32 = 74;

pub const DIV: u32 = 75;

pub const MOD: u32 = 76;

pub const PLUS: u32 = 77;

pub const MINUS: u32 = 78;

pub const CAP: u32 = 79;

pub const CUP: u32 = 80;

pub const SETMINUS: u32 = 81;

pub const EQ: u32 = 82;

pub const NEQ: u32 = 83;

pub const GE: u32 = 86;

pub const GEG: u32 = 87;

pub const GEQ: u32 = 88;

pub const NOT: u32 = 91;

pub const X: u32 = 92;

pub const F: u32 = 93;

pub const G: u32 = 94;

pub const AND: u32 = 95;

pub const FORALL: u32 = 96;

pub const OR: u32 = 97;

pub const EXISTS: u32 = 98;

pub const IMPLIES: u32 = 99;

pub const EQUIV: u32 = 100;

pub const W: u32 = 101;

pub const U: u32 = 102;

pub const R: u32 = 103;

// What the constants stand for.
pub fn tokens() -> [u32; 51]
    ensures { result ≡ tokens' }
{
    [
        EQUIVALENCE,
        CIRCLED_STAR,
        CIRCLED_PLUS,
        CIRCLED_BACKSLASH,
        CIRCLED_MINUS,
        DOUBLE_EQUALS,
        BANG_EQUALS,
        SLASH_EQUALS,
        AT_LEAST,
        IMPLICATION,
        CONJUNCTION,
        DISJUNCTION,
        STAR,
        SLASH,
        PERCENT,
        PLUS_SIGN,
        MINUS_SIGN,
        GREATER,
        BANG,
        SUM,
        PROD,
        SIZE,
        MIN,
        MAX,
        SIZEOF,
        MUL,
        DIV,
        MOD,
        PLUS,
        MINUS,
        CAP,
        CUP,
        SETMINUS,
        EQ,
        NEQ,
        GE,
        GEG,
        GEQ,
        NOT,
        X,
        F,
        G,
        AND,
        FORALL,
        OR,
        EXISTS,
        IMPLIES,
        EQUIV,
        W,
        U,
        R,
    ]
}
