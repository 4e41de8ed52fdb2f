// Table 1 of document 001 by the numbers of tokens, operators between operands: a new one is a constant and an arm here, at its place in the order of specs/Operators of crate language.
ghost use Rattle.std.specs.Prelude.{◌≡◌};
ghost use Rattle.operators.specs.Tables.{infix_at, infix_code_at};

use crate::fields::LEVELS;
use crate::{codes, tokens};
use entries::kinds;
use lexer::numbers;
use node::Node;

// An operator between operands: its code, its entry's kind, the loosest level of its right operand, its level.
pub const CODE: u32 = KIND * kinds::KINDS;

pub const KIND: u32 = RIGHT * LEVELS;

pub const RIGHT: u32 = LEVELS;

const TIMES: u32 = codes::TIMES * CODE + kinds::ARITHMETIC * KIND + 1 * RIGHT + 2;

const DIVIDE: u32 = codes::DIVIDE * CODE + kinds::ARITHMETIC * KIND + 3 * RIGHT + 3;

const MODULO: u32 = codes::MODULO * CODE + kinds::ARITHMETIC * KIND + 3 * RIGHT + 3;

const PLUS: u32 = codes::PLUS * CODE + kinds::ARITHMETIC * KIND + 3 * RIGHT + 4;

const MINUS: u32 = codes::MINUS * CODE + kinds::ARITHMETIC * KIND + 3 * RIGHT + 4;

const WITHOUT: u32 = codes::WITHOUT * CODE + kinds::COMBINATION * KIND + 6 * RIGHT + 6;

const CAP: u32 = codes::CAP * CODE + kinds::COMBINATION * KIND + 6 * RIGHT + 7;

const CUP: u32 = codes::CUP * CODE + kinds::COMBINATION * KIND + 7 * RIGHT + 8;

const EQUAL: u32 = codes::EQUAL * CODE + kinds::EQUALITY * KIND + 8 * RIGHT + 9;

const UNEQUAL: u32 = codes::UNEQUAL * CODE + kinds::EQUALITY * KIND + 8 * RIGHT + 9;

const LESS: u32 = codes::LESS * CODE + kinds::ORDER * KIND + 8 * RIGHT + 9;

const AT_MOST: u32 = codes::AT_MOST * CODE + kinds::ORDER * KIND + 8 * RIGHT + 9;

const GREATER: u32 = codes::GREATER * CODE + kinds::ORDER * KIND + 8 * RIGHT + 9;

const AT_LEAST: u32 = codes::AT_LEAST * CODE + kinds::ORDER * KIND + 8 * RIGHT + 9;

const AMONG: u32 = kinds::MEMBERSHIP * KIND + 9 * RIGHT + 10;

const AND: u32 = Node::AND * CODE + kinds::BINARY * KIND + 11 * RIGHT + 12;

const OR: u32 = Node::OR * CODE + kinds::BINARY * KIND + 12 * RIGHT + 13;

const IMPLIES: u32 = Node::IMPLIES * CODE + kinds::BINARY * KIND + 14 * RIGHT + 14;

const IFF: u32 = Node::IFF * CODE + kinds::BINARY * KIND + 14 * RIGHT + 14;

const WEAK: u32 = Node::WEAK_UNTIL * CODE + kinds::BINARY * KIND + 15 * RIGHT + 15;

const UNTIL: u32 = Node::UNTIL * CODE + kinds::BINARY * KIND + 16 * RIGHT + 16;

const RELEASE: u32 = Node::RELEASE * CODE + kinds::BINARY * KIND + 16 * RIGHT + 17;

// The row of an operator between operands, 0 if the number is none.
pub fn infix(number: u32) -> u32
    ensures { result ≡ infix_at number }
{
    match number {
        tokens::STAR => TIMES,
        tokens::MUL => TIMES,
        tokens::SLASH => DIVIDE,
        tokens::DIV => DIVIDE,
        tokens::PERCENT => MODULO,
        tokens::MOD => MODULO,
        tokens::PLUS_SIGN => PLUS,
        tokens::PLUS => PLUS,
        tokens::MINUS_SIGN => MINUS,
        tokens::MINUS => MINUS,
        tokens::CIRCLED_BACKSLASH => WITHOUT,
        tokens::CIRCLED_MINUS => WITHOUT,
        tokens::SETMINUS => WITHOUT,
        tokens::CIRCLED_STAR => CAP,
        tokens::CAP => CAP,
        tokens::CIRCLED_PLUS => CUP,
        tokens::CUP => CUP,
        tokens::DOUBLE_EQUALS => EQUAL,
        tokens::EQ => EQUAL,
        tokens::BANG_EQUALS => UNEQUAL,
        tokens::SLASH_EQUALS => UNEQUAL,
        tokens::NEQ => UNEQUAL,
        numbers::LESS => LESS,
        numbers::LE => LESS,
        numbers::AT_MOST => AT_MOST,
        numbers::LEQ => AT_MOST,
        tokens::GREATER => GREATER,
        tokens::GE => GREATER,
        tokens::AT_LEAST => AT_LEAST,
        tokens::GEG => AT_LEAST,
        tokens::GEQ => AT_LEAST,
        numbers::IN => AMONG,
        numbers::ELEM => AMONG,
        numbers::ARROW => AMONG,
        tokens::CONJUNCTION => AND,
        tokens::AND => AND,
        tokens::DISJUNCTION => OR,
        tokens::OR => OR,
        tokens::IMPLICATION => IMPLIES,
        tokens::IMPLIES => IMPLIES,
        tokens::EQUIVALENCE => IFF,
        tokens::EQUIV => IFF,
        tokens::W => WEAK,
        tokens::U => UNTIL,
        tokens::R => RELEASE,
        _ => 0,
    }
}

// The code of the operator between operands that a token of this number is.
pub fn infix_code(number: u32) -> u32
    ensures { result ≡ infix_code_at number }
{
    infix(number) / CODE
}
