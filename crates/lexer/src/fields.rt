// The fields of a token's word, number, offset and length (specs/Stored): how many offsets and lengths there are, and the longest length that is kept.
ghost use Rattle.std.specs.Prelude.{◌≡◌, ◌≤◌, ◌<◌, length};
ghost use Rattle.words.specs.Words.{word_at};
ghost use Rattle.language.specs.Limits.{max_tokens, work_bytes};
ghost use Rattle.lexer.specs.Stored.{offset_in, fields as fields'};

use words::get;

pub const OFFSETS: u32 = 65536;

pub const LENGTHS: u32 = 256;

pub const LONGEST: usize = 255;

// What the constants stand for.
pub fn fields() -> [u32; 3]
    ensures { result ≡ fields' }
{
    [OFFSETS, LENGTHS, LONGEST as u32]
}

// Where token j stands in the text. It is called with tokens that are there.
pub fn place_at(work: &[u8], j: usize) -> u32
    requires { (j < max_tokens) × (work_bytes ≤ length work.now) }
    ensures { result ≡ offset_in (word_at work.now j) }
{
    get(work, j) / LENGTHS % OFFSETS
}
