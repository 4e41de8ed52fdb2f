// The entries that declare parameters, inputs and outputs, in the text's order.
ghost use Rattle.std.specs.Prelude.{List, ◌≡◌, ◌≤◌, ◌<◌, ◌+◌, length, set};
ghost use Rattle.words.specs.Words.{word_at};
ghost use Rattle.language.specs.Limits.{work_bytes, max_tokens};
ghost use Rattle.language.specs.Grammar.{Tokens};
ghost use Rattle.entries.specs.Flat.{Entry};
ghost use Rattle.entries.specs.Stored.{first_entry, EntriesFrom};
ghost use Rattle.notes.specs.Chosen.{choice, takes as takes'};
ghost use Rattle.notes.specs.Choosing.{Chooses};

use entries::fields::{FIRST_ENTRY, SIZES, TOKENS};
use entries::{headings, kinds};
use words::get;

// The word of entry i. It is called with entries that are there.
pub fn entry_word(work: &[u8], i: usize) -> u32
    requires { (work_bytes ≤ length work.now) × (i < max_tokens) }
    ensures { result ≡ word_at work.now (first_entry + i) }
{
    get(work, FIRST_ENTRY + i)
}

fn takes(wanted: u32, low: u32, high: u32, heading: u32, kind: u32) -> bool
    ensures { result ≡ takes' (choice wanted low high) heading kind }
{
    (heading == wanted) & ((low <= kind) & (kind <= high))
}

fn store(order: &mut [u16], at: usize, k: u16)
    ensures { order.new ≡ set order.old at k }
{
    if at < order.len() {
        order[at] = k;
    }
}

// The entries of the kinds from `low` to `high` under a heading go into `order` from `from` on; the answer is where they end.
pub fn choose(
    work: &[u8],
    entries: usize,
    wanted: u32,
    low: u32,
    high: u32,
    order: &mut [u16],
    from: usize,
) -> usize
    requires { (work_bytes ≤ length work.now) × ((entries ≤ max_tokens) × (from ≤ max_tokens)) }
    ensures { (ts : Tokens) (es : List Entry) → EntriesFrom work.now ts 0 es → length es ≡ entries
        → Chooses (choice wanted low high) es order.old from order.new result }
{
    let mut heading = headings::NO_HEADING;
    let mut at = from;
    for i in 0..entries {
        let word = entry_word(work, i);
        let kind = word / SIZES / TOKENS;
        if kind == kinds::HEADING {
            heading = word % SIZES;
            continue;
        }
        if takes(wanted, low, high, heading, kind) {
            store(order, at, i as u16);
            at += 1;
        }
    }
    at
}
