// The lexer: a text's bytes to one word for each token in a lent buffer (refusals 1 to 3).
// An inner stage: `lex` asks for a buffer with room for the tokens' words, and the reader refuses a shorter one (17). The pieces ask for a place within the text.
#![tactic(auto)]

pub mod fields;
pub mod numbers;
mod piece;
mod search;
mod sizes;
mod tables;

ghost use Rattle.std.specs.Prelude.{◌≡◌, ◌≤◌, length};
ghost use Rattle.lexer.specs.Stored.{word_of};
ghost use Rattle.lexer.specs.Answer.{token_bytes, Lexes};
ghost use Rattle.lexer.specs.Scanning.{enumerating_by, later_place, Storable, storing};

use fields::{LENGTHS, LONGEST, OFFSETS};
use language::limits;
use node::{Refusal, refusals};
use numbers::{CLOSE_BRACE, ENUM, NO_NUMBER, SEMICOLON};

// Is the text in an enumeration after a token of this number?
fn enumerating_after(enumerating: bool, number: u32) -> bool
    ensures { result ≡ enumerating_by enumerating number }
{
    match number {
        ENUM => true,
        SEMICOLON | CLOSE_BRACE => false,
        _ => enumerating,
    }
}

// The place of the first token that is too many, once token n at `at` is met.
fn later_place(n: usize, over: usize, at: usize) -> usize
    ensures { result ≡ later_place n over at }
{
    if n == limits::MAX_TOKENS {
        return at;
    }
    over
}

// Stores token n, if it is one of those that a text may have. Its caller has met the token, so that its number and offset fit their fields.
fn store(work: &mut [u8], n: usize, number: u32, at: usize, size: usize)
    requires { Storable work.old number at }
    ensures { work.new ≡ storing work.old n (word_of number at size) }
{
    if n < limits::MAX_TOKENS {
        let word = (number * OFFSETS + at as u32) * LENGTHS + LONGEST.min(size) as u32;
        words::put(work, n, word);
    }
}

// The tokens of a text: how many are stored.
pub fn lex(text: &[u8], work: &mut [u8]) -> Result<u32, Refusal>
    requires { token_bytes ≤ length work.old }
    ensures { Lexes text.now work.old work.new result }
{
    if limits::MAX_BYTES < text.len() {
        return Err(Refusal {
            number: refusals::TOO_LONG,
            place: limits::MAX_BYTES as u32,
        });
    }
    let bytes = tables::byte_table();
    let rows = tables::row_table();
    let mut at: usize = 0;
    let mut n: usize = 0;
    let mut enumerating = false;
    let mut over: usize = 0;
    // A token's bytes at a time.
    while at < text.len() {
        let piece = piece::scan(text, at, enumerating, &bytes, &rows);
        let number = piece.number;
        let size = piece.size;
        if size == 0 {
            return Err(Refusal {
                number: refusals::NO_TOKEN,
                place: at as u32,
            });
        }
        if number == NO_NUMBER {
            at += size;
            continue;
        }
        store(work, n, number, at, size);
        over = later_place(n, over, at);
        enumerating = enumerating_after(enumerating, number);
        n += 1;
        at += size;
    }
    if limits::MAX_TOKENS < n {
        return Err(Refusal {
            number: refusals::TOO_MANY_TOKENS,
            place: over as u32,
        });
    }
    Ok(n as u32)
}
