// What a stored entry says. The functions are called with entries that are there.
ghost use Rattle.std.specs.Prelude.{◌≡◌, ◌≤◌, ◌<◌, length};
ghost use Rattle.language.specs.Limits.{max_tokens, work_bytes};
ghost use Rattle.operators.specs.Tables.{infix_code_at, prefix_code_at};
ghost use Rattle.operands.specs.Entries.{kind_at, size_at, place_at, number_at};

use entries::fields::{FIRST_ENTRY, SIZES, TOKENS};
use lexer::fields::{LENGTHS, OFFSETS};
use operators::infixes::infix_code;
use operators::prefixes::prefix_code;
use words::get;

pub fn kind_at(work: &[u8], k: usize) -> u32
    requires { (k < max_tokens) × (work_bytes ≤ length work.now) }
    ensures { result ≡ kind_at work.now k }
{
    get(work, FIRST_ENTRY + k) / SIZES / TOKENS
}

// How many entries the expression takes.
pub fn size_at(work: &[u8], k: usize) -> usize
    requires { (k < max_tokens) × (work_bytes ≤ length work.now) }
    ensures { result ≡ size_at work.now k }
{
    (get(work, FIRST_ENTRY + k) % SIZES) as usize
}

// The place of its token.
pub fn place_at(work: &[u8], k: usize) -> u32
    requires { (k < max_tokens) × (work_bytes ≤ length work.now) }
    ensures { result ≡ place_at work.now k }
{
    let token = (get(work, FIRST_ENTRY + k) / SIZES % TOKENS) as usize;
    get(work, token) / LENGTHS % OFFSETS
}

// The number of its token.
pub fn number_at(work: &[u8], k: usize) -> u32
    requires { (k < max_tokens) × (work_bytes ≤ length work.now) }
    ensures { result ≡ number_at work.now k }
{
    let token = (get(work, FIRST_ENTRY + k) / SIZES % TOKENS) as usize;
    get(work, token) / LENGTHS / OFFSETS
}

// The code of the operator between operands, or before its operand, that its token is (crate operators).
pub fn infix_at(work: &[u8], k: usize) -> u32
    requires { (k < max_tokens) × (work_bytes ≤ length work.now) }
    ensures { result ≡ infix_code_at (number_at work.now k) }
{
    infix_code(number_at(work, k))
}

pub fn prefix_at(work: &[u8], k: usize) -> u32
    requires { (k < max_tokens) × (work_bytes ≤ length work.now) }
    ensures { result ≡ prefix_code_at (number_at work.now k) }
{
    prefix_code(number_at(work, k))
}
