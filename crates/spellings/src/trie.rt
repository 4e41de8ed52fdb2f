// A tree of spellings in two arrays (specs/Trie): a name's node stands for its bytes, so that two names are equal where their nodes are. The children of a node stand in
// a search tree by the bits of their bytes. Two bytes that agree in all eight are equal: no choice of names has a step pass more than eight other children.
ghost use Rattle.std.specs.Prelude.{◌+◌, ◌≤◌, ◌<◌, length};
ghost use Rattle.spellings.specs.Trie.{max_trie_nodes, Trie, Sought, Steps, Spells, part};

// Of the three links of a node, the one to its first child; the others lead to further children of its parent, by a bit of the byte that is sought.
const CHILD: usize = 2;

// The link to the child of a node by one byte, or the link where it is to stand if there is none. Like `step` it asks for the tree that `intern` makes, and is called
// by nobody else.
fn seek(links: &[u16], byte: &[u8], nodes: usize, node: usize, b: u8) -> usize
    requires { Trie links.now byte.now nodes × (node < nodes) × (nodes < max_trie_nodes + 1) }
    ensures { (t : Trie links.now byte.now nodes) → Sought t node b result }
{
    let mut link = 3 * node + CHILD;
    let mut bits = usize::from(b);
    let mut at = usize::from(links[link]);
    // From link to link: no index counts up.
    while at != 0 {
        if byte[at] == b {
            return link;
        }
        link = 3 * at + bits % 2;
        bits = bits / 2;
        at = usize::from(links[link]);
    }
    link
}

// The child of a node by one byte, made if it is not there: then it is node `nodes`, and there is one node more, for which there must be room.
pub fn step(links: &mut [u16], byte: &mut [u8], nodes: usize, node: usize, b: u8) -> usize
    requires { Trie links.old byte.old nodes × (node < nodes) × (nodes < max_trie_nodes) × (nodes < length byte.old) }
    ensures { (t : Trie links.old byte.old nodes) → Steps t node b links.new byte.new result }
{
    let link = seek(links, byte, nodes, node, b);
    let old = usize::from(links[link]);
    if old != 0 {
        return old;
    }
    byte[nodes] = b;
    links[link] = nodes as u16;
    nodes
}

#[derive(Clone, Copy)]
pub struct Spelt {
    pub node: usize,
    pub nodes: usize,
}

// The node of a text's bytes `len` of them from `at` on, made where it is not there. It asks for room for a node for each byte, which
// there is, since a text is no longer than the arrays.
pub fn spell(
    text: &[u8],
    at: usize,
    len: usize,
    links: &mut [u16],
    byte: &mut [u8],
    nodes: usize,
) -> Spelt
    requires { Trie links.old byte.old nodes × (at + len ≤ length text.now) × (nodes + len ≤ max_trie_nodes) × (nodes + len ≤ length byte.old) }
    ensures { (t : Trie links.old byte.old nodes) → Spells t links.new byte.new (part at len text.now) result.nodes result.node }
{
    let mut count = nodes;
    let mut node = 0;
    for i in 0..len {
        node = step(links, byte, count, node, text[at + i]);
        count = count.max(node + 1);
    }
    Spelt { node, nodes: count }
}
