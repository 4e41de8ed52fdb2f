// What an entry gives and what it takes, by its kind. The functions are the pass's own: it has bounded what they ask for.
ghost use Rattle.std.specs.Prelude.{◌≡◌, ◌≤◌, ◌<◌, length, get_or};
ghost use Rattle.std.proofs.Math.Seq.{slice};
ghost use Rattle.language.specs.Places.{unless};
ghost use Rattle.entries.specs.Kinds as Kind;
ghost use Rattle.traversal.specs.Places.{placed};
ghost use Rattle.types.specs.Codes.{codes as codes'};
ghost use Rattle.types.specs.Kinds.{last_takes, other_takes, gives_of, fits, takes_last, misfits as misfits', sides_of, indexed as indexed'};
ghost use Rattle.types.specs.Pass.{wrong_at};

use entries::kinds;
use traversal::{first, first_of};

// Types as numbers and no enum: the definition's tables name them so, what is taken stands in one range with them (specs/Codes), and both stacks hold words.
pub const NUMBER: u32 = 0;

const SET: u32 = 1;

pub const FORMULA: u32 = 2;

pub const BUS: u32 = 3;

pub const VALUE: u32 = 4;

pub const ENUMERATION: u32 = 5;

// What a line gives.
const NOTHING: u32 = 8;

// What an operand may be: of any type; of one that a definition may have, which are the first three.
const ANY: u32 = 8;

const DEFINABLE: u32 = 9;

const UNDEFINABLE: u32 = BUS;

// What the operands before the last may be: the sides of an equation, an index.
const EQUATION: u32 = 10;

const INDEX: u32 = 11;

// What an entry declares that declares no name, or a definition's.
pub const UNDECLARED: u32 = 8;

// A list of constants of its own, like `fields` of crate operators: no twin.
// What the constants stand for.
pub fn codes() -> [u32; 13]
    ensures { result ≡ codes' }
{
    [
        NUMBER,
        SET,
        FORMULA,
        BUS,
        VALUE,
        ENUMERATION,
        NOTHING,
        ANY,
        DEFINABLE,
        UNDEFINABLE,
        EQUATION,
        INDEX,
        UNDECLARED,
    ]
}

// The type of what an entry gives, with that of its name and of its operand.
pub fn gives_of(kind: u32, name: u32, operand: u32) -> u32
    requires { kind < Kind.limit }
    ensures { result ≡ gives_of kind name operand }
{
    if kind < kinds::NUMERAL {
        name
    } else if kind < kinds::TRUTH {
        NUMBER
    } else if kind < kinds::PAREN {
        FORMULA
    } else if kind < kinds::MEASURE {
        operand
    } else if kind < kinds::UNARY {
        NUMBER
    } else if kind < kinds::ARITHMETIC {
        FORMULA
    } else if kind < kinds::COMBINATION {
        NUMBER
    } else if kind < kinds::EQUALITY {
        SET
    } else if kind < kinds::BIG_NUMBERS {
        FORMULA
    } else if kind < kinds::BIG_SETS {
        NUMBER
    } else if kind < kinds::BIG_FORMULAS {
        SET
    } else if kind < kinds::BINDER {
        FORMULA
    } else if kind < kinds::LINES {
        SET
    } else {
        NOTHING
    }
}

// An operand that does not fit what is taken.
fn misfit(takes: u32, given: u32, start: u32) -> Option<u32>
    ensures { result ≡ placed (unless (fits takes given) start) }
{
    if takes == ANY {
        return None;
    }
    if takes == DEFINABLE {
        if given < UNDEFINABLE {
            return None;
        }
        return Some(start);
    }
    if takes == given {
        return None;
    }
    Some(start)
}

// The type of the last operand, by an entry's kind.
fn last_takes(kind: u32) -> u32
    requires { kind < Kind.limit }
    ensures { result ≡ get_or last_takes kind 0 }
{
    if kind < kinds::INDEX {
        ANY
    } else if kind < kinds::PAREN {
        NUMBER
    } else if kind < kinds::MEASURE {
        ANY
    } else if kind < kinds::WIDTH {
        SET
    } else if kind < kinds::UNARY {
        BUS
    } else if kind < kinds::ARITHMETIC {
        FORMULA
    } else if kind < kinds::COMBINATION {
        NUMBER
    } else if kind < kinds::EQUALITY {
        SET
    } else if kind < kinds::ORDER {
        ANY
    } else if kind < kinds::MEMBERSHIP {
        NUMBER
    } else if kind < kinds::BINARY {
        SET
    } else if kind < kinds::BIG_NUMBERS {
        FORMULA
    } else if kind < kinds::BIG_SETS {
        NUMBER
    } else if kind < kinds::BIG_FORMULAS {
        SET
    } else if kind < kinds::BINDER {
        FORMULA
    } else if kind < kinds::BETWEEN {
        SET
    } else if kind < kinds::LISTED {
        NUMBER
    } else if kind < kinds::ELEMENT {
        ANY
    } else if kind < kinds::DEFINITION {
        NUMBER
    } else if kind < kinds::ENUMERATION {
        DEFINABLE
    } else if kind < kinds::BUS {
        ANY
    } else if kind < kinds::TYPED {
        NUMBER
    } else if kind < kinds::LINE {
        ENUMERATION
    } else if kind < kinds::HEADING {
        FORMULA
    } else {
        ANY
    }
}

// And of those before it.
fn others_take(kind: u32) -> u32
    requires { kind < Kind.limit }
    ensures { result ≡ get_or other_takes kind 0 }
{
    if kind < kinds::INDEX {
        ANY
    } else if kind < kinds::PAREN {
        INDEX
    } else if kind < kinds::ARITHMETIC {
        ANY
    } else if kind < kinds::COMBINATION {
        NUMBER
    } else if kind < kinds::EQUALITY {
        SET
    } else if kind < kinds::ORDER {
        EQUATION
    } else if kind < kinds::BINARY {
        NUMBER
    } else if kind < kinds::NEXTS {
        FORMULA
    } else if kind < kinds::BIG_NUMBERS {
        NUMBER
    } else if kind < kinds::BETWEEN {
        ANY
    } else if kind < kinds::LISTED {
        NUMBER
    } else if kind < kinds::ELEMENT {
        ANY
    } else if kind < kinds::LINES {
        NUMBER
    } else {
        ANY
    }
}

fn takes_last(kind: u32, n: usize) -> u32
    requires { kind < Kind.limit }
    ensures { result ≡ takes_last kind n }
{
    if kind == kinds::ELEMENT {
        if n == 2 {
            return ANY;
        }
        return NUMBER;
    }
    last_takes(kind)
}

// The first of the operands that does not fit.
fn misfits(
    other: u32,
    last: u32,
    types: &[u32],
    starts: &[u32],
    from: usize,
    to: usize,
) -> Option<u32>
    requires { (to ≤ length types.now) × (to ≤ length starts.now) }
    ensures { result ≡ placed (misfits' other last (slice from to types.now) (slice from to starts.now)) }
{
    let mut found = None;
    for i in from..to {
        if i + 1 == to {
            return first(found, misfit(last, types[i], starts[i]));
        }
        found = first(found, misfit(other, types[i], starts[i]));
    }
    found
}

// A number and a number, a bus and an identifier of an enumeration, in either order.
fn sides_of(left: u32, right: u32, start: u32, other: u32) -> Option<u32>
    ensures { result ≡ placed (sides_of left right start other) }
{
    if left == NUMBER {
        return misfit(NUMBER, right, other);
    }
    if left == BUS {
        return misfit(VALUE, right, other);
    }
    if left == VALUE {
        return misfit(BUS, right, other);
    }
    Some(start)
}

pub fn indexed(kind: u32, name: u32, place: u32) -> Option<u32>
    requires { kind < Kind.limit }
    ensures { result ≡ placed (indexed' kind name place) }
{
    if others_take(kind) == INDEX {
        return misfit(BUS, name, place);
    }
    None
}

// The first operand of a wrong type, of those from `from` up to `to`.
pub fn wrong_at(kind: u32, types: &[u32], starts: &[u32], from: usize, to: usize) -> Option<u32>
    requires { (kind < Kind.limit) × (to ≤ length types.now) × (to ≤ length starts.now) × (from ≤ to) }
    ensures { result ≡ placed (wrong_at kind (slice from to types.now) (slice from to starts.now)) }
{
    let other = others_take(kind);
    if other == EQUATION {
        let left = first_of(types, from, to);
        let right = first_of(types, from + 1, to);
        let start = first_of(starts, from, to);
        return sides_of(left, right, start, first_of(starts, from + 1, to));
    }
    misfits(other, takes_last(kind, to - from), types, starts, from, to)
}
