// The fields of an entry's word, kind, token and size (specs/Stored): how many tokens and sizes there are, and how they are read. Before the entries' words
// stand the tokens'.
ghost use Rattle.std.specs.Prelude.{◌≡◌, ◌+◌, ◌≤◌, ◌<◌, length};
ghost use Rattle.words.specs.Words.{word_at};
ghost use Rattle.language.specs.Limits.{max_tokens, work_bytes};
ghost use Rattle.entries.specs.Stored.{first_entry, kind_of, index_of, fields as fields'};

use language::limits;
use words::get;

pub const TOKENS: u32 = 8192;

pub const SIZES: u32 = 8192;

// The word of entry 0.
pub const FIRST_ENTRY: usize = limits::MAX_TOKENS;

// What the constants stand for.
pub fn fields() -> [u32; 3]
    ensures { result ≡ fields' }
{
    [TOKENS, SIZES, FIRST_ENTRY as u32]
}

// Entry k's kind. Like the other reader here it is called with entries that are there.
pub fn kind_at(work: &[u8], k: usize) -> u32
    requires { (k < max_tokens) × (work_bytes ≤ length work.now) }
    ensures { result ≡ kind_of (word_at work.now (first_entry + k)) }
{
    get(work, FIRST_ENTRY + k) / SIZES / TOKENS
}

// The index of its token.
pub fn token_at(work: &[u8], k: usize) -> usize
    requires { (k < max_tokens) × (work_bytes ≤ length work.now) }
    ensures { result ≡ index_of (word_at work.now (first_entry + k)) }
{
    (get(work, FIRST_ENTRY + k) / SIZES % TOKENS) as usize
}
