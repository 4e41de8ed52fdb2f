// The coverage test: do the words of an enumeration name every valuation of its bits?
ghost use Rattle.std.specs.Prelude.{◌≡◌, ◌+◌, ◌-◌, ◌≤◌, ◌<◌, length};
ghost use Rattle.language.specs.Limits.{max_marks, max_words};
ghost use Rattle.language.specs.Numbering.{covered as covered', after as after', mark_of, admits as admits'};
ghost use Rattle.choices.specs.Coverage.{Rows, rests, Kept};
ghost use Rattle.choices.specs.Promise.{Tabled, Unnamed};

use crate::{ABSENT, PRESENT};
use entries::kinds;
use enumerations::{MARKS, marks};
use language::limits::MAX_WORDS;
use lexer::fields::{LENGTHS, OFFSETS};
use traversal::cell_at;

fn admits(holds: bool, mark: u8) -> bool
    ensures { result ≡ admits' holds (mark_of mark) }
{
    if mark == ABSENT {
        return !holds;
    }
    if mark == PRESENT {
        return holds;
    }
    true
}

// The rows whose mark i admits a bit, one after another: how many.
fn after(
    holds: bool,
    rows: &[[u8; MARKS]],
    i: usize,
    width: usize,
    kept: &mut [[u8; MARKS]],
) -> usize
    requires { (length rows.now ≤ max_words) × (Rows kept.old 0 × ((i < width) × (width ≤ max_marks))) }
    ensures { Kept (after' holds (rests i width rows.now)) (i + 1) width kept.new result }
{
    let mut k = 0;
    for row in rows {
        if admits(holds, row[i]) {
            kept[k] = *row;
            k += 1;
        }
    }
    k
}

// From mark i on. The rows are those of an enumeration that has passed refusal 10.
fn covered(rows: &[[u8; MARKS]], i: usize, width: usize) -> bool
    requires { (length rows.now ≤ max_words) × ((i ≤ width) × (width ≤ max_marks)) }
    ensures { result ≡ covered' (width - i) (rests i width rows.now) }
{
    if width <= i {
        return !rows.is_empty();
    }
    let mut kept = [[0u8; MARKS]; MAX_WORDS];
    let n = after(false, rows, i, width, &mut kept);
    if covered(&kept[..n], i + 1, width) {
        let m = after(true, rows, i, width, &mut kept);
        return covered(&kept[..m], i + 1, width);
    }
    false
}

// 'an enumeration that leaves some word unnamed': its words are those in the entries [from, to), and have passed refusal 10.
pub fn leaves_unnamed(text: &[u8], work: &[u8], from: usize, to: usize) -> bool
    requires { Tabled text.now work.now from to }
    ensures { Unnamed text.now work.now from to result }
{
    let mut rows = [[0u8; MARKS]; MAX_WORDS];
    let mut count = 0;
    let mut width = 0;
    for i in from..to {
        let c = cell_at(work, i);
        if c.kind != kinds::WORD {
            continue;
        }
        width = (c.token % LENGTHS) as usize;
        let place = (c.token / LENGTHS % OFFSETS) as usize;
        rows[count] = marks(text, place, width);
        count += 1;
    }
    if count == 0 {
        return false;
    }
    !covered(&rows[..count], 0, width)
}
