// What stands at a place of the text: a sign or word, a name, a numeral, a string, marks, a blank or comment, or no token. The lexer calls these at a byte of
// a text that is not too long, with tables that are right, and shows it; what the byte's class is, the caller has looked up.
ghost use Rattle.std.specs.Prelude.{◌≡◌, Bool, true, false, ◌*◌, ◌≤◌, get_or, drop};
ghost use Rattle.language.specs.Bytes.{is_name_start};
ghost use Rattle.language.specs.Tokens.{signs, word_at, sign_at};
ghost use Rattle.lexer.specs.ByteClasses as Byte;
ghost use Rattle.lexer.specs.ByteClasses.{byte_classes};
ghost use Rattle.lexer.specs.Scanning.{Scannable, Scans, ScansAs, closed_as};

use crate::numbers::{FIRST_FIXED, MARKS, NAME, NO_NUMBER, NUMERAL, QUOTED};
use crate::tables::{COUNT, ROW, ROW_BYTES};
use crate::{search, sizes};
use language::limits;

// The classes of bytes (specs/ByteClasses).
// Numbers and no enum: the bytes of the lexer's table hold them, and classes in a row are tested by their ends.
const BLANK: u8 = 1;

const QUOTE: u8 = 2;

const SLASH: u8 = 3;

const STAR: u8 = 4;

const BIT: u8 = 5;

const DIGIT: u8 = 6;

const LETTER: u8 = 7;

const PRIME: u8 = 8;

// What the constants stand for.
pub fn classes() -> [u8; 8]
    ensures { result ≡ byte_classes }
{
    [BLANK, QUOTE, SLASH, STAR, BIT, DIGIT, LETTER, PRIME]
}

// Number and size stay numbers, without an enum: `ScansAs` and `closed_as` (specs/Scanning) name them so, as the format's pieces do.
// What stands at a place: a token's number and size. A blank or comment has NO_NUMBER, and what is no token has size 0 besides.
#[derive(Clone, Copy)]
pub struct Scanned {
    pub number: u32,
    pub size: usize,
}

pub fn closed(number: u32, size: usize) -> Scanned
    ensures { result ≡ closed_as number size }
{
    if size == 0 {
        return Scanned {
            number: NO_NUMBER,
            size: 0,
        };
    }
    Scanned { number, size }
}

// A word of the format or a name, of which this is the first byte.
pub fn word(text: &[u8], at: usize, bytes: &[u8; 512], rows: &[u8; ROW_BYTES]) -> Scanned
    requires { Scannable text.now at bytes.now rows.now × (is_name_start (get_or text.now at 0) ≡ true) }
    ensures { ScansAs (word_at (drop at text.now)) (drop at text.now) result }
{
    let n = sizes::run(text, at, bytes, BIT, PRIME);
    if limits::MAX_NAME < n {
        return Scanned {
            number: NO_NUMBER,
            size: 0,
        };
    }
    let first = search::first_row(bytes, text[at]);
    let k = search::find(text, at, rows, first, n);
    if k < COUNT {
        return Scanned {
            number: FIRST_FIXED + k as u32,
            size: n,
        };
    }
    Scanned {
        number: NAME,
        size: n,
    }
}

// The longest sign that stands here; this byte begins no name.
pub fn sign(text: &[u8], at: usize, bytes: &[u8; 512], rows: &[u8; ROW_BYTES]) -> Scanned
    requires { Scannable text.now at bytes.now rows.now × (is_name_start (get_or text.now at 0) ≡ false) }
    ensures { ScansAs (sign_at signs (drop at text.now)) (drop at text.now) result }
{
    let first = search::first_row(bytes, text[at]);
    let k = search::find(text, at, rows, first, 0);
    if k < COUNT {
        return Scanned {
            number: FIRST_FIXED + k as u32,
            size: usize::from(rows[ROW * k]),
        };
    }
    Scanned {
        number: NO_NUMBER,
        size: 0,
    }
}

// A comment or a sign, of which this is the slash.
pub fn slash(text: &[u8], at: usize, bytes: &[u8; 512], rows: &[u8; ROW_BYTES]) -> Scanned
    requires { Scannable text.now at bytes.now rows.now × (get_or bytes.now (2 * get_or text.now at 0) 0 ≡ Byte.slash) }
    ensures { (e : Bool) → Scans e (drop at text.now) result }
{
    if text.len() - at < 2 {
        return sign(text, at, bytes, rows);
    }
    let next = text[at + 1];
    if next == b'/' {
        return Scanned {
            number: NO_NUMBER,
            size: sizes::line_size(text, at + 1) + 1,
        };
    }
    if next == b'*' {
        return closed(NO_NUMBER, sizes::comment_size(text, at + 2));
    }
    sign(text, at, bytes, rows)
}

// An enumeration's word, a numeral or `*`, by the class k of its first byte.
pub fn digits(
    text: &[u8],
    at: usize,
    enumerating: bool,
    k: u8,
    bytes: &[u8; 512],
    rows: &[u8; ROW_BYTES],
) -> Scanned
    requires { Scannable text.now at bytes.now rows.now × (k ≡ get_or bytes.now (2 * get_or text.now at 0) 0) × (Byte.star ≤ k) × (k ≤ Byte.digit) }
    ensures { Scans enumerating (drop at text.now) result }
{
    if enumerating {
        if k == DIGIT {
            return Scanned {
                number: NO_NUMBER,
                size: 0,
            };
        }
        return Scanned {
            number: MARKS,
            size: sizes::run(text, at, bytes, STAR, BIT),
        };
    }
    if k == STAR {
        return sign(text, at, bytes, rows);
    }
    Scanned {
        number: NUMERAL,
        size: sizes::run(text, at, bytes, BIT, DIGIT),
    }
}

// What stands at a place of the text.
pub fn scan(
    text: &[u8],
    at: usize,
    enumerating: bool,
    bytes: &[u8; 512],
    rows: &[u8; ROW_BYTES],
) -> Scanned
    requires { Scannable text.now at bytes.now rows.now }
    ensures { Scans enumerating (drop at text.now) result }
{
    let k = sizes::class(bytes, text[at]);
    if k == LETTER {
        return word(text, at, bytes, rows);
    }
    if k == BLANK {
        return Scanned {
            number: NO_NUMBER,
            size: 1,
        };
    }
    if k == QUOTE {
        return closed(QUOTED, sizes::quoted_size(text, at + 1));
    }
    if k == SLASH {
        return slash(text, at, bytes, rows);
    }
    if k < STAR {
        return sign(text, at, bytes, rows);
    }
    if DIGIT < k {
        return sign(text, at, bytes, rows);
    }
    digits(text, at, enumerating, k, bytes, rows)
}
