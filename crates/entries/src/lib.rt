// How a text's tree stands in the work buffer: the cursor by which the parser reads tokens and writes entries.
// A cursor's methods ask that it stands on a token and that there is room for an entry: a token that was read pays for each entry.
#![tactic(auto)]

pub mod fields;
pub mod headings;
pub mod kinds;

ghost use Rattle.std.specs.Prelude.{◌≡◌, ◌<◌};
ghost use Rattle.language.specs.Limits.{max_tokens};
ghost use Rattle.entries.specs.Stored.{put_entry};
ghost use Rattle.entries.specs.Cursors.{Fits, Writes, number_at, place_at, next_of, emitted_of, refused_at, expected};

use fields::{FIRST_ENTRY, SIZES, TOKENS};
use lexer::fields::{LENGTHS, OFFSETS};
use node::{Refusal, refusals};
use words::{get, put};

// The next token's index, how many entries are written; how many tokens there are, and the text's length.
#[derive(Clone, Copy)]
pub struct Cursor {
    pub at: usize,
    pub out: usize,
    pub count: usize,
    pub end: usize,
}

// What a function of the parser returns: where it has read on to, or a refusal.
pub type Parse = Result<Cursor, Refusal>;

// The functions of the parser have requirements: none is called but by the reader, whose own contract asks for nothing.
impl Cursor {
    // The number of the next token (crate lexer, specs/Numbers), 0 at the text's end.
    pub fn number(self, work: &[u8]) -> u32
        requires { Fits work.now self }
        ensures { result ≡ number_at work.now self }
    {
        let at = self.at;
        if at < self.count {
            return get(work, at) / LENGTHS / OFFSETS;
        }
        0
    }

    // The place of the next token.
    pub fn place(self, work: &[u8]) -> u32
        requires { Fits work.now self }
        ensures { result ≡ place_at work.now self }
    {
        let at = self.at;
        if at < self.count {
            return get(work, at) / LENGTHS % OFFSETS;
        }
        self.end as u32
    }

    pub fn next(self) -> Cursor
        requires { self.at < max_tokens }
        ensures { result ≡ next_of self }
    {
        Cursor {
            at: self.at + 1,
            out: self.out,
            count: self.count,
            end: self.end,
        }
    }

    // One entry more.
    pub fn emit(self, work: &mut [u8], kind: u32, token: usize, size: usize) -> Cursor
        requires { Writes work.old self kind token size }
        ensures { (result ≡ emitted_of self) × (work.new ≡ put_entry work.old self.out kind token size) }
    {
        let out = self.out;
        put(
            work,
            FIRST_ENTRY + out,
            (kind * TOKENS + (token as u32)) * SIZES + (size as u32),
        );
        Cursor {
            at: self.at,
            out: out + 1,
            count: self.count,
            end: self.end,
        }
    }

    // Nothing continues here.
    pub fn refuse(self, work: &[u8]) -> Parse
        requires { Fits work.now self }
        ensures { result ≡ refused_at work.now self }
    {
        Err(Refusal {
            number: refusals::NOT_GRAMMAR,
            place: self.place(work),
        })
    }

    // Past the next token, which must have this number; the text's end has none behind it.
    pub fn expect(self, work: &[u8], number: u32) -> Parse
        requires { Fits work.now self × (0 < number) }
        ensures { result ≡ expected work.now self number }
    {
        if self.number(work) == number {
            return Ok(self.next());
        }
        self.refuse(work)
    }
}
