// A table of nodes in one lent array, with an index by which an equal node is found, so that each distinct node stands there once (specs/Shared). Nodes are written
// by `put` alone. No choice of words has a search look at more than 33 nodes (specs/DepthLaws).
// The functions ask for an array that holds a table, as an array of zeros does that is long enough: they are no entry points, and their callers have one.
#![tactic(auto)]

ghost use Rattle.std.specs.Prelude.{List, ◌≡◌, ℕ, ◌<◌, length, get_or};
ghost use Rattle.shared_table.specs.Shared.{head_of, counted, Shares, Shared, Puts, Sought};

use node::MAX_NODES;

// Behind the count stand the heads, and behind them three words for each node: the node and two links.
pub const HEADS: usize = 2048;

// A node whose number plus 1 is v stands 3 * v behind this place.
const BEFORE: usize = HEADS - 2;

// A word's head goes by the upper eleven of the lower 32 bits of its product with this number.
const FACTOR: usize = 2654435769;

const LOWER_BITS: usize = 2097152;

// The index that stands for all past the last node.
pub const NO_ROOM: usize = MAX_NODES + 1;

// The place of the head for a word.
fn head(word: u32) -> usize
    ensures { result ≡ head_of word }
{
    word as usize * FACTOR / LOWER_BITS % HEADS + 1
}

// How many nodes there are.
pub fn count(out: &[u32]) -> usize
    requires { Shared out.now }
    ensures { (t : List ℕ) → Shares out.now t → result ≡ length t }
{
    out[0] as usize
}

// Node i's word; it asks that there is one.
pub fn node_at(out: &[u32], i: usize) -> u32
    requires { Shared out.now × (i < counted out.now) }
    ensures { (t : List ℕ) → Shares out.now t → result ≡ get_or t i 0 }
{
    out[BEFORE + 3 * (i + 1)]
}

// One node more, at the link where the search for its word ended.
fn append(out: &mut [u32], link: usize, word: u32) -> usize
    requires { Sought out.old word link }
    ensures { Puts out.old out.new word result }
{
    let next = out[0] as usize + 1;
    if MAX_NODES < next {
        return NO_ROOM;
    }
    let place = BEFORE + 3 * next;
    if out.len() < place + 3 {
        return NO_ROOM;
    }
    out[place] = word;
    out[place + 1] = 0;
    out[place + 2] = 0;
    out[link] = next as u32;
    out[0] = next as u32;
    next
}

// The word as a node: the one that is there, or one more. It yields the node's number plus 1, or `NO_ROOM`.
pub fn put(out: &mut [u32], word: u32) -> usize
    requires { Shared out.old }
    ensures { Puts out.old out.new word result }
{
    let mut link = head(word);
    let mut bits = word as usize;
    let mut at = out[link] as usize;
    // From link to link: no index counts.
    while at != 0 {
        let place = BEFORE + 3 * at;
        if out[place] == word {
            return at;
        }
        link = place + 1 + bits % 2;
        bits = bits / 2;
        at = out[link] as usize;
    }
    append(out, link, word)
}
