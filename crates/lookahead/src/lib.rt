// How far ahead the root of a table of nodes looks (document 02, F-3): one pass over the nodes, a number for each.
#![tactic(auto)]

ghost use Rattle.std.specs.Prelude.{◌≡◌, ◌≤◌, ◌<◌, length, Ok};
ghost use Rattle.node.specs.Limits.{max_nodes, field_limit};
ghost use Rattle.node.specs.Answer.{says};
ghost use Rattle.node.specs.Formed.{Formed};
ghost use Rattle.lookahead.specs.Reaching.{looks, valued};
ghost use Rattle.lookahead.specs.Promise.{Reaches};
ghost use Rattle.lookahead.specs.Codes.{forever_code, narrow_code, node_code, told_code, near_count, number_at, InTable, Sized, Narrow, Spanned};

use node::{Answer, MAX_NODES, Node, Refusal};
use rewriter::SIGNAL_LIMIT;

// The reach of a table's root: letters 0 to so many decide, or no number of letters does.
#[derive(Clone, Copy, PartialEq, Eq)]
pub enum Reach {
    Letters(u32),
    Unbounded,
}

// As every entry point answers: accepted with (n, 0), unbounded (0, 1).
pub fn answer(reach: Result<Reach, Refusal>) -> Answer
    ensures { says result ≡ valued (looks reach) }
{
    match reach? {
        Reach::Letters(n) => Ok((n, 0)),
        Reach::Unbounded => Ok((0, 1)),
    }
}

// What a node looks at, as a number: below HERE no signal; HERE the letter at hand, and one more for each letter further ahead; from ENDLESS on no bound. So the wider is
// the larger number, and X adds one to every number.
// Numbers and no enum: two tables of bytes and of half words hold them, and they are compared and counted on.
const SILENT: u16 = 0;

const HERE: u16 = 16384;

const ENDLESS: u16 = 32768;

// Node n looks at most n letters ahead: the numbers of the first nodes fit a byte each, 0 for no signal and the greatest for no bound. So all take less than 16 KB.
const NEAR: usize = 254;

const FAR: usize = MAX_NODES - NEAR;

const NEAR_ENDLESS: u8 = 255;

// What G, F, U, R and W make of what they stand above: they look at every letter from theirs on, if at any.
fn forever(s: u16) -> u16
    ensures { result ≡ forever_code s }
{
    if s < HERE { s } else { ENDLESS }
}

// A number in a byte. It asks for one that a node of the first ones has.
fn narrowed(s: u16) -> u8
    requires { Narrow s }
    ensures { result ≡ narrow_code s }
{
    if s < HERE {
        return 0;
    }
    if ENDLESS <= s {
        return NEAR_ENDLESS;
    }
    (s - HERE + 1) as u8
}

// The number that is kept for a node.
fn number_at(near: &[u8], far: &[u16; FAR], i: usize) -> u16
    requires { (i < max_nodes) × (length near.now ≡ near_count) }
    ensures { result ≡ number_at near.now far.now i }
{
    if NEAR <= i {
        return far[i - NEAR];
    }
    let s = near[i];
    if s == 0 {
        return SILENT;
    }
    if s == NEAR_ENDLESS {
        return ENDLESS;
    }
    u16::from(s) + (HERE - 1)
}

// A node's number, from those of the nodes before it. It asks for operands that have one, and room for one more.
fn node_span(word: u32, near: &[u8], far: &[u16; FAR]) -> u16
    requires { InTable word (number_at near.now far.now) × (length near.now ≡ near_count) }
    ensures { result ≡ node_code word (number_at near.now far.now) }
{
    let node = Node { word };
    let kind = node.kind();
    if kind < Node::SIGNAL {
        return SILENT;
    }
    if kind < Node::NOT {
        return HERE;
    }
    let x = node.first() as usize;
    let a = number_at(near, far, x);
    if kind == Node::NEXT {
        return a + 1;
    }
    if kind == Node::NOT {
        return a;
    }
    let y = node.second() as usize;
    if kind < Node::NEXT {
        let b = number_at(near, far, y);
        return a.max(b);
    }
    if kind <= Node::FINALLY {
        return forever(a);
    }
    let b = number_at(near, far, y);
    forever(a.max(b))
}

// The numbers of the first nodes, so many. It asks for a table that has passed the check, and names the arrays' lengths for its proof.
fn fill_near(nodes: &[u32], near: &mut [u8], far: &[u16; FAR], count: usize)
    requires { Formed field_limit nodes.now × Sized near.old far.now × (count ≤ length nodes.now) × (count ≤ near_count) }
    ensures { Spanned nodes.now count near.new far.now }
{
    for i in 0..count {
        near[i] = narrowed(node_span(nodes[i], near, far));
    }
}

// The numbers of the nodes from one on, those before it being there. It asks for one that is not among the first, unless it is the end.
fn fill_far(nodes: &[u32], near: &[u8], far: &mut [u16; FAR], from: usize)
    requires { Formed field_limit nodes.now × Spanned nodes.now from near.now far.old × (from ≤ length nodes.now) × (from < length nodes.now → near_count ≤ from) }
    ensures { Spanned nodes.now (length nodes.now) near.now far.new }
{
    for i in from..nodes.len() {
        far[i - NEAR] = node_span(nodes[i], near, far);
    }
}

// The numbers of all nodes, the root's last. It asks for a table that has passed the check, and names the arrays' lengths for its proof.
fn fill_spans(nodes: &[u32], near: &mut [u8], far: &mut [u16; FAR])
    requires { Formed field_limit nodes.now × Sized near.old far.old }
    ensures { Spanned nodes.now (length nodes.now) near.new far.new }
{
    let count = nodes.len().min(NEAR);
    fill_near(nodes, near, far, count);
    fill_far(nodes, near, far, count);
}

// The reach that a number stands for.
fn told(s: u16) -> Reach
    ensures { looks (Ok result) ≡ told_code s }
{
    if ENDLESS <= s {
        return Reach::Unbounded;
    }
    if s < HERE {
        return Reach::Letters(0);
    }
    Reach::Letters(u32::from(s - HERE))
}

// The reach of the table's root, or the refusal of the table (19).
pub fn reach_of(nodes: &[u32]) -> Result<Reach, Refusal>
    ensures { Reaches result nodes.now }
{
    node::check_table(nodes, SIGNAL_LIMIT)?;
    let mut near: [u8; NEAR] = [0; NEAR];
    let mut far: [u16; FAR] = [SILENT; FAR];
    fill_spans(nodes, &mut near, &mut far);
    Ok(told(number_at(&near, &far, nodes.len() - 1)))
}
