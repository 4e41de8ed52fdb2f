// A number for each name token, by which names are compared from here on (specs/Interned): the node of its spelling.
ghost use Rattle.std.specs.Prelude.{◌+◌, ◌≤◌, ◌<◌, length};
ghost use Rattle.language.specs.Tokens.{tokens};
ghost use Rattle.spellings.specs.Interned.{Lexed, Interned, Indexed, Begun, top};

use crate::trie::spell;
use lexer::fields::{LENGTHS, OFFSETS};
use lexer::numbers;
use words::get;

// One token's number; the nodes after it. It is called with what `intern` has made of the tokens before.
fn number(
    text: &[u8],
    work: &[u8],
    count: usize,
    j: usize,
    links: &mut [u16],
    byte: &mut [u8],
    nodes: usize,
    ids: &mut [u16],
) -> usize
    requires { Lexed text.now work.now count × (j < count) × Indexed (tokens text.now) j links.old byte.old nodes ids.old × (length text.now < length byte.old) }
    ensures { Indexed (tokens text.now) (j + 1) links.new byte.new result ids.new }
{
    let word = get(work, j);
    if word / LENGTHS / OFFSETS != numbers::NAME {
        return nodes;
    }
    let at = (word / LENGTHS % OFFSETS) as usize;
    let len = (word % LENGTHS) as usize;
    let spelt = spell(text, at, len, links, byte, nodes);
    ids[j] = spelt.node as u16;
    spelt.nodes
}

// The numbers of all tokens that are names, in a tree of spellings that holds the empty one alone. It asks for what the lexer leaves and for arrays as
// names' `resolve_with` makes them, and is called by it alone.
pub fn intern(
    text: &[u8],
    work: &[u8],
    count: usize,
    links: &mut [u16],
    byte: &mut [u8],
    ids: &mut [u16],
)
    requires { Lexed text.now work.now count × Begun text.now links.old byte.old ids.old }
    ensures { Interned (tokens text.now) count ids.new × (top ids.new ≤ length text.now + 1) }
{
    let mut nodes = 1;
    for j in 0..count {
        nodes = number(text, work, count, j, links, byte, nodes, ids);
    }
}
