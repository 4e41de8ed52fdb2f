// The node format of document 01: a word of 4 bits kind, 14 bits first operand, 14 bits second operand.
#![tactic(auto)]

pub mod refusals;

ghost use Rattle.std.specs.Prelude.{◌≡◌, ◌<◌, ◌≤◌, false, length};
ghost use Rattle.node.specs.Limits.{field_limit, max_nodes, limits as limits', kind_limit};
ghost use Rattle.node.specs.Fields.{pack, kind_of, first_of, second_of};
ghost use Rattle.node.specs.Kinds.{kind_count, kinds as kinds', has_two};
ghost use Rattle.node.specs.Table.{node_fits, scanned, checked};
ghost use Rattle.node.specs.Formed.{all_fit, counted};
ghost use Rattle.node.specs.Answer.{says};
ghost use Rattle.node.specs.Result.{Refused};

use basics::either;

// Why a call is refused, by its number in `refusals`, and at which place.
#[derive(Clone, Copy, PartialEq, Eq)]
pub struct Refusal {
    pub number: u32,
    pub place: u32,
}

// What every entry point answers: two counts, of nodes and of signals unless the function says which, or a refusal.
pub type Answer = Result<(u32, u32), Refusal>;

// A table has 1 to 8,192 nodes.
pub const MAX_NODES: usize = 8192;

// One more than a 14-bit field of a node can hold.
pub const FIELD_LIMIT: u32 = 16384;

// A text and a recording have at most 255 signals.
pub const MAX_SIGNALS: usize = 255;

// What these constants stand for.
pub fn limits() -> [usize; 3]
    ensures { result ≡ limits' }
{
    [MAX_NODES, FIELD_LIMIT as usize, MAX_SIGNALS]
}

// How many kinds there are, one more than the last, and what it stands for.
pub const KINDS: u32 = 14;

pub fn kind_count() -> u32
    ensures { result ≡ kind_count }
{
    KINDS
}

#[derive(Clone, Copy)]
pub struct Node {
    pub word: u32,
}

impl Node {
    // Numbers and no enum: a node's word holds the kind in four bits, of which a stranger's table may have all sixteen (kind_of, node_fits).
    pub const TRUE: u32 = 0;

    pub const FALSE: u32 = 1;

    pub const SIGNAL: u32 = 2;

    pub const NOT: u32 = 3;

    pub const AND: u32 = 4;

    pub const OR: u32 = 5;

    pub const IMPLIES: u32 = 6;

    pub const IFF: u32 = 7;

    pub const NEXT: u32 = 8;

    pub const GLOBALLY: u32 = 9;

    pub const FINALLY: u32 = 10;

    pub const UNTIL: u32 = 11;

    pub const RELEASE: u32 = 12;

    pub const WEAK_UNTIL: u32 = 13;

    // The kinds in document 01's order: what the constants stand for.
    pub fn kinds() -> [u32; 14]
        ensures { result ≡ kinds' }
    {
        [
            Node::TRUE,
            Node::FALSE,
            Node::SIGNAL,
            Node::NOT,
            Node::AND,
            Node::OR,
            Node::IMPLIES,
            Node::IFF,
            Node::NEXT,
            Node::GLOBALLY,
            Node::FINALLY,
            Node::UNTIL,
            Node::RELEASE,
            Node::WEAK_UNTIL,
        ]
    }

    // The constructors ask for fields that fit: a wider one would run into its neighbour, and what they yield would be the node of other fields. They are
    // no entry points: their callers have bounded the fields, and show it.

    // A node of two operands.
    pub fn binary(kind: u32, first: u32, second: u32) -> Node
        requires { (kind < kind_limit) × ((first < field_limit) × (second < field_limit)) }
        ensures { result.word ≡ pack kind first second }
    {
        Node {
            word: (kind * FIELD_LIMIT + first) * FIELD_LIMIT + second,
        }
    }

    // A node of one operand, or a signal with its number.
    pub fn unary(kind: u32, first: u32) -> Node
        requires { (kind < kind_limit) × (first < field_limit) }
        ensures { result.word ≡ pack kind first 0 }
    {
        Node::binary(kind, first, 0)
    }

    // A constant.
    pub fn leaf(kind: u32) -> Node
        requires { kind < kind_limit }
        ensures { result.word ≡ pack kind 0 0 }
    {
        Node::binary(kind, 0, 0)
    }

    // Does a kind have two operands?
    pub fn has_two(kind: u32) -> bool
        ensures { result ≡ has_two kind }
    {
        (Node::NOT < kind) & (kind < Node::NEXT) | (Node::FINALLY < kind)
    }

    // The fields of a node, of any word.
    pub fn kind(self) -> u32
        ensures { result ≡ kind_of self.word }
    {
        self.word / FIELD_LIMIT / FIELD_LIMIT
    }

    pub fn first(self) -> u32
        ensures { result ≡ first_of self.word }
    {
        self.word / FIELD_LIMIT % FIELD_LIMIT
    }

    pub fn second(self) -> u32
        ensures { result ≡ second_of self.word }
    {
        self.word % FIELD_LIMIT
    }
}

// May the word stand as node n, where signal numbers are below `limit`? By its kind each field lies below a bound.
pub fn node_fits(word: u32, n: u32, limit: u32) -> bool
    ensures { result ≡ node_fits limit n word }
{
    let node = Node { word };
    let k = node.kind();
    let a = node.first();
    let b = node.second();
    let operand = either(k < KINDS, n, 0);
    let number = either(k < Node::NOT, limit, operand);
    let first_end = either(k < Node::SIGNAL, 1, number);
    let second_end = either(Node::has_two(k), n, 1);
    (a < first_end) & (b < second_end)
}

// May each word stand where it does? It reads them all, which compiles to several nodes at a time. It asks for as many as a number of 32 bits counts.
fn all_fit(nodes: &[u32], limit: u32) -> bool
    requires { length nodes.now ≤ max_nodes }
    ensures { result ≡ all_fit limit 0 nodes.now }
{
    let mut fit = true;
    for (i, word) in nodes.iter().enumerate() {
        fit &= node_fits(*word, i as u32, limit);
    }
    fit
}

// The number of the first node against the format. Its caller knows that there is one.
fn first_misfit(nodes: &[u32], limit: u32) -> usize
    requires { (length nodes.now ≤ max_nodes) × (all_fit limit 0 nodes.now ≡ false) }
    ensures { (result ≤ max_nodes) × (scanned limit 0 nodes.now (counted limit nodes.now) ≡ Refused 19 result) }
{
    for (i, word) in nodes.iter().enumerate() {
        if !node_fits(*word, i as u32, limit) {
            return i;
        }
    }
    nodes.len()
}

// Is the table one of the format, its signal numbers below `limit`? Accepted with the number of nodes and the limit.
pub fn check_table(nodes: &[u32], limit: u32) -> Answer
    ensures { says result ≡ checked limit nodes.now }
{
    if nodes.len() == 0 {
        return Err(Refusal {
            number: refusals::BAD_TABLE,
            place: 0,
        });
    }
    if MAX_NODES < nodes.len() {
        return Err(Refusal {
            number: refusals::BAD_TABLE,
            place: MAX_NODES as u32,
        });
    }
    if all_fit(nodes, limit) {
        return Ok((nodes.len() as u32, limit));
    }
    let place = first_misfit(nodes, limit);
    Err(Refusal {
        number: refusals::BAD_TABLE,
        place: place as u32,
    })
}
