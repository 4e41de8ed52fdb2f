// Sizes of runs, lines, strings and comments at a place of the text. The callers have read a byte at or before that place, and show that it is in the text.

ghost use Rattle.std.specs.Prelude.{◌≡◌, ◌*◌, ◌≤◌, ℕ, Bool, length, get_or, drop};
ghost use Rattle.language.specs.Limits.{max_bytes};
ghost use Rattle.language.specs.Tokens.{run as run', line_size, quoted_size, comment_size};
ghost use Rattle.lexer.specs.Tables.{classed};
ghost use Rattle.lexer.specs.Scanning.{opened, Nests, Tests};

pub fn class(bytes: &[u8; 512], b: u8) -> u8
    ensures { result ≡ get_or bytes.now (2 * b) 0 }
{
    bytes[2 * usize::from(b)]
}

// How many bytes from `at` on there are before the first that is not within.
fn leading<F: Fn(u8) -> bool>(text: &[u8], at: usize, within: F) -> usize
    requires start { at ≤ length text.now }
    requires calls { F.IsAlwaysCallable within }
    ensures { (p : ℕ → Bool) → Tests p (F.post within) → result ≡ run' p (drop at text.now) }
{
    let rest = &text[at..];
    for (i, b) in rest.iter().enumerate() {
        if !within(*b) {
            return i;
        }
    }
    rest.len()
}

// How many bytes from `at` on are of the classes low to high.
pub fn run(text: &[u8], at: usize, bytes: &[u8; 512], low: u8, high: u8) -> usize
    requires { at ≤ length text.now }
    ensures { result ≡ run' (classed bytes.now low high) (drop at text.now) }
{
    leading(text, at, |b| {
        let k = class(bytes, b);
        low <= k && k <= high
    })
}

// The bytes before the next line feed.
pub fn line_size(text: &[u8], at: usize) -> usize
    requires { at ≤ length text.now }
    ensures { result ≡ line_size (drop at text.now) }
{
    leading(text, at, |b| b != b'\n')
}

// The size of a string whose first quote stands before `from`; 0 if it is not closed, as in the format's definition `quoted_size`: no Option.
pub fn quoted_size(text: &[u8], from: usize) -> usize
    requires { from ≤ length text.now }
    ensures { result ≡ quoted_size 1 (drop from text.now) }
{
    let n = leading(text, from, |b| b != b'"');
    if n < text.len() - from { n + 2 } else { 0 }
}

// A block comment while it is read: how many are open, and the byte before, 0 where that byte has already made `/*` or `*/`.
#[derive(Clone, Copy)]
pub struct Nest {
    pub depth: usize,
    pub last: u8,
}

// One byte more of a comment. Its caller knows that one is open, and that they are no more than the text's bytes.
pub fn nested(nest: Nest, b: u8) -> Nest
    requires { (1 ≤ nest.depth) × (nest.depth ≤ max_bytes) }
    ensures { Nests nest.depth nest.last b result }
{
    match (nest.last, b) {
        (b'*', b'/') => Nest {
            depth: nest.depth - 1,
            last: 0,
        },
        (b'/', b'*') => Nest {
            depth: nest.depth + 1,
            last: 0,
        },
        _ => Nest {
            depth: nest.depth,
            last: b,
        },
    }
}

// The size of a comment whose `/*` stands before `from`; 0 if it is not closed.
pub fn comment_size(text: &[u8], from: usize) -> usize
    requires { (from ≤ length text.now) × (length text.now ≤ max_bytes) }
    ensures { result ≡ comment_size 2 opened (drop from text.now) }
{
    let rest = &text[from..];
    let mut nest = Nest { depth: 1, last: 0 };
    for (i, b) in rest.iter().enumerate() {
        nest = nested(nest, *b);
        if nest.depth == 0 {
            return i + 3;
        }
    }
    0
}
