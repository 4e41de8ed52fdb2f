// Table 1 of document 001 by the numbers of tokens, operators before their operand: a new one is a constant and an arm here, at its place in the order of specs/Operators of crate language.
ghost use Rattle.std.specs.Prelude.{◌≡◌};
ghost use Rattle.operators.specs.Tables.{prefix_at, prefix_code_at};

use crate::fields::LEVELS;
use crate::{codes, tokens};
use entries::kinds;
use node::Node;

// An operator before its operand: its code, the kind of its entry with a window or a count, without, its role, its level.
pub const CODE: u32 = WINDOW * kinds::KINDS;

pub const WINDOW: u32 = SOLE * kinds::KINDS;

pub const SOLE: u32 = ROLE * ROLES;

pub const ROLE: u32 = LEVELS;

// The roles, and how many numbers there are for them.
pub const ROLES: u32 = 8;

// Numbers and no enum: a row packs the role with the operator's number and its level.
pub const PLAIN: u32 = 1;

pub const COUNTED: u32 = 2;

pub const WINDOWED: u32 = 3;

pub const FOLDING: u32 = 4;

const SUM: u32 = codes::PLUS * CODE + kinds::BIG_NUMBERS * SOLE + FOLDING * ROLE + 1;

const PRODUCT: u32 = codes::TIMES * CODE + kinds::BIG_NUMBERS * SOLE + FOLDING * ROLE + 1;

const SIZE: u32 = codes::SIZE * CODE + kinds::MEASURE * SOLE + PLAIN * ROLE + 1;

const MIN: u32 = codes::MIN * CODE + kinds::MEASURE * SOLE + PLAIN * ROLE + 1;

const MAX: u32 = codes::MAX * CODE + kinds::MEASURE * SOLE + PLAIN * ROLE + 1;

const SIZEOF: u32 = kinds::WIDTH * SOLE + PLAIN * ROLE + 1;

const BIG_CAP: u32 = codes::CAP * CODE + kinds::BIG_SETS * SOLE + FOLDING * ROLE + 5;

const BIG_CUP: u32 = codes::CUP * CODE + kinds::BIG_SETS * SOLE + FOLDING * ROLE + 5;

const NOT: u32 = Node::NOT * CODE + kinds::UNARY * SOLE + PLAIN * ROLE + 11;

const NEXT: u32 = Node::NEXT * CODE
    + kinds::NEXTS * WINDOW
    + kinds::UNARY * SOLE
    + COUNTED * ROLE
    + 11;

const FINALLY: u32 = Node::FINALLY * CODE
    + kinds::WINDOW * WINDOW
    + kinds::UNARY * SOLE
    + WINDOWED * ROLE
    + 11;

const GLOBALLY: u32 = Node::GLOBALLY * CODE
    + kinds::WINDOW * WINDOW
    + kinds::UNARY * SOLE
    + WINDOWED * ROLE
    + 11;

const BIG_AND: u32 = Node::AND * CODE + kinds::BIG_FORMULAS * SOLE + FOLDING * ROLE + 11;

const BIG_OR: u32 = Node::OR * CODE + kinds::BIG_FORMULAS * SOLE + FOLDING * ROLE + 11;

// The row of an operator before its operand, 0 if the number is none.
pub fn prefix(number: u32) -> u32
    ensures { result ≡ prefix_at number }
{
    match number {
        tokens::PLUS_SIGN => SUM,
        tokens::SUM => SUM,
        tokens::STAR => PRODUCT,
        tokens::PROD => PRODUCT,
        tokens::SIZE => SIZE,
        tokens::MIN => MIN,
        tokens::MAX => MAX,
        tokens::SIZEOF => SIZEOF,
        tokens::CIRCLED_STAR => BIG_CAP,
        tokens::CAP => BIG_CAP,
        tokens::CIRCLED_PLUS => BIG_CUP,
        tokens::CUP => BIG_CUP,
        tokens::BANG => NOT,
        tokens::NOT => NOT,
        tokens::X => NEXT,
        tokens::F => FINALLY,
        tokens::G => GLOBALLY,
        tokens::CONJUNCTION => BIG_AND,
        tokens::AND => BIG_AND,
        tokens::FORALL => BIG_AND,
        tokens::DISJUNCTION => BIG_OR,
        tokens::OR => BIG_OR,
        tokens::EXISTS => BIG_OR,
        _ => 0,
    }
}

// The code of the operator before its operand that a token of this number is; 0, SIZE, for a bar.
pub fn prefix_code(number: u32) -> u32
    ensures { result ≡ prefix_code_at number }
{
    prefix(number) / CODE
}
