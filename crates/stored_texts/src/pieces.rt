// Several texts in one file: for each a line with its name, the text's bytes, a record separator and a line feed.
ghost use Rattle.std.specs.Prelude.{◌≡◌, ◌+◌, ◌≤◌, min, length};
ghost use Rattle.stored_texts.specs.Pieces.{Found, StandsAt};

const LINE_FEED: u8 = 10;

const SEPARATOR: u8 = 30;

// A text's place in the file: where its name ends, where the text starts and ends, and where the next name starts.
#[derive(Clone, Copy)]
pub struct Piece {
    pub name: usize,
    pub start: usize,
    pub end: usize,
    pub next: usize,
}

// The place of the next such byte from `at` on, or the file's end.
#[tactic(auto, using(crate::proofs::Laws::seeking_stop, crate::proofs::Laws::seeking_end))]
fn find(file: &[u8], at: usize, byte: u8) -> usize
    requires { at ≤ length file.now }
    ensures { Found byte file.now at result }
{
    for i in at..file.len() {
        if file[i] == byte {
            return i;
        }
    }
    file.len()
}

// `count` places on, or the end.
fn past(at: usize, count: usize, end: usize) -> usize
    requires { at ≤ end }
    ensures { result ≡ min (at + count) end }
{
    at + count.min(end - at)
}

// The text whose name starts at `at`.
pub fn piece_at(file: &[u8], at: usize) -> Piece
    requires { at ≤ length file.now }
    ensures { StandsAt file.now at result }
{
    let name = find(file, at, LINE_FEED);
    let start = past(name, 1, file.len());
    let end = find(file, start, SEPARATOR);
    let next = past(end, 2, file.len());
    Piece {
        name,
        start,
        end,
        next,
    }
}
