// The enumeration that a bus is declared by.
ghost use Rattle.std.specs.Prelude.{List, ◌≡◌, ℕ, ◌<◌, ◌≤◌, ◌+◌, min, length};
ghost use Rattle.words.specs.Words.{word_at};
ghost use Rattle.language.specs.Limits.{work_bytes, max_tokens, max_names};
ghost use Rattle.language.specs.Tokens.{Token, tokens};
ghost use Rattle.language.specs.DeclaredNames.{word_width};
ghost use Rattle.lexer.specs.Stored.{longest};
ghost use Rattle.entries.specs.Stored.{first_entry, index_of};
ghost use Rattle.spellings.specs.Interned.{Lexed};
ghost use Rattle.name_values.specs.Declaring.{EnumerationAt};
ghost use Rattle.declarations.specs.Enumerations.{enumeration_of};

use crate::constants::before;
use entries::fields::{SIZES, TOKENS};
use entries::kinds;
use language::limits;
use lexer::fields::LENGTHS;
use notes::choose::entry_word;
use operands::entry::kind_at;
use words::get;

// No entry has this number (specs/Enumerations).
pub const NO_ENTRY: usize = 65535;

// The word of the token of entry k.
fn token_word(work: &[u8], k: usize) -> u32
    requires { (work_bytes ≤ length work.now) × (k < max_tokens) }
    ensures { result ≡ word_at work.now (index_of (word_at work.now (first_entry + k))) }
{
    let word = entry_word(work, k);
    let token = (word / SIZES % TOKENS) as usize;
    get(work, token)
}

// The entry that declares the enumeration that the entry before k names.
pub fn enumeration_of(work: &[u8], refs: &[u16], found: &[u16], k: usize) -> usize
    requires { (work_bytes ≤ length work.now) × ((k < max_tokens) × ((max_tokens ≤ length refs.now) × (max_names ≤ length found.now))) }
    ensures { result ≡ enumeration_of work.now refs.now found.now k }
{
    let r = usize::from(refs[before(k)]);
    if r >= limits::MAX_NAMES {
        return NO_ENTRY;
    }
    let e = usize::from(found[r]);
    if e >= limits::MAX_TOKENS {
        return NO_ENTRY;
    }
    if kind_at(work, e) == kinds::ENUMERATION {
        return e;
    }
    NO_ENTRY
}

// How wide the first word behind the enumeration's entry e is.
pub fn word_width(work: &[u8], e: usize) -> u32
    requires { (work_bytes ≤ length work.now) × (e < max_tokens) }
    ensures { (text : List ℕ) (count : ℕ) (words : List Token) → Lexed text work.now count → EnumerationAt (tokens text) work.now e words
        → result ≡ min longest (word_width words) }
{
    for i in e + 1..limits::MAX_TOKENS {
        let kind = kind_at(work, i);
        if kind == kinds::WORD {
            return token_word(work, i) % LENGTHS;
        }
        if kind != kinds::IDENTIFIER {
            return 0;
        }
    }
    0
}
