// The pieces of a written formula: what stands before, between and after a node's operands, in a table by kinds.
ghost use Rattle.std.specs.Prelude.{◌≡◌, true, ◌+◌, ◌<◌, ◌≤◌, min, length, get_or};
ghost use Rattle.node.specs.Kinds.{kind_count, shape_of, signal_kind};
ghost use Rattle.node.specs.Fields.{kind_of, first_of, second_of};
ghost use Rattle.language.specs.Limits.{max_name};
ghost use Rattle.basics.specs.Told.{max_told};
ghost use Rattle.signal_names.specs.Promise.{slot, Puts};
ghost use Rattle.layout.specs.Layout.{piece, piece_of, sized, nth};
ghost use Rattle.layout.specs.Table.{table, following, of_signal, of_operand, Measurable, Writable};

use basics::MAX_TOLD;
use language::limits::MAX_NAME;
use node::Node;
use signal_names::put_bytes;

// A row for each kind and each number of operands written: the piece's size, 1 if an operand follows it, the piece. A signal's name stands between its first two.
const ROW: usize = 12;

const ROWS: usize = 36;

const PIECES: [u8; 504] = *b"\
    \x09\x00( true ) \x00\x00\x00\x00\x00\x00\x00\x00\x00\x00\x00\x00\x00\x00\x00\x00\x00\x00\x00\x00\x00\x00\x00\x00\x00\
    \x0a\x00( false ) \x00\x00\x00\x00\x00\x00\x00\x00\x00\x00\x00\x00\x00\x00\x00\x00\x00\x00\x00\x00\x00\x00\x00\x00\
    \x02\x00( \x00\x00\x00\x00\x00\x00\x00\x00\x03\x00 ) \x00\x00\x00\x00\x00\x00\x00\x00\x00\x00\x00\x00\x00\x00\x00\x00\x00\x00\x00\
    \x04\x01( ! \x00\x00\x00\x00\x00\x00\x02\x00) \x00\x00\x00\x00\x00\x00\x00\x00\x00\x00\x00\x00\x00\x00\x00\x00\x00\x00\x00\x00\
    \x02\x01( \x00\x00\x00\x00\x00\x00\x00\x00\x03\x01&& \x00\x00\x00\x00\x00\x00\x00\x02\x00) \x00\x00\x00\x00\x00\x00\x00\x00\
    \x02\x01( \x00\x00\x00\x00\x00\x00\x00\x00\x03\x01|| \x00\x00\x00\x00\x00\x00\x00\x02\x00) \x00\x00\x00\x00\x00\x00\x00\x00\
    \x02\x01( \x00\x00\x00\x00\x00\x00\x00\x00\x03\x01-> \x00\x00\x00\x00\x00\x00\x00\x02\x00) \x00\x00\x00\x00\x00\x00\x00\x00\
    \x02\x01( \x00\x00\x00\x00\x00\x00\x00\x00\x04\x01<-> \x00\x00\x00\x00\x00\x00\x02\x00) \x00\x00\x00\x00\x00\x00\x00\x00\
    \x04\x01( X \x00\x00\x00\x00\x00\x00\x02\x00) \x00\x00\x00\x00\x00\x00\x00\x00\x00\x00\x00\x00\x00\x00\x00\x00\x00\x00\x00\x00\
    \x04\x01( G \x00\x00\x00\x00\x00\x00\x02\x00) \x00\x00\x00\x00\x00\x00\x00\x00\x00\x00\x00\x00\x00\x00\x00\x00\x00\x00\x00\x00\
    \x04\x01( F \x00\x00\x00\x00\x00\x00\x02\x00) \x00\x00\x00\x00\x00\x00\x00\x00\x00\x00\x00\x00\x00\x00\x00\x00\x00\x00\x00\x00\
    \x02\x01( \x00\x00\x00\x00\x00\x00\x00\x00\x02\x01U \x00\x00\x00\x00\x00\x00\x00\x00\x02\x00) \x00\x00\x00\x00\x00\x00\x00\x00\
    \x02\x01( \x00\x00\x00\x00\x00\x00\x00\x00\x02\x01R \x00\x00\x00\x00\x00\x00\x00\x00\x02\x00) \x00\x00\x00\x00\x00\x00\x00\x00\
    \x02\x01( \x00\x00\x00\x00\x00\x00\x00\x00\x02\x01W \x00\x00\x00\x00\x00\x00\x00\x00\x02\x00) \x00\x00\x00\x00\x00\x00\x00\x00";

pub fn pieces() -> [u8; 504]
    ensures { result ≡ table }
{
    PIECES
}

// Does an operand follow the piece?
pub fn follows(pieces: &[u8], kind: usize, done: usize) -> bool
    requires { (pieces.now ≡ table) × ((kind < kind_count) × (done < 3)) }
    ensures { result ≡ following (shape_of kind) done }
{
    pieces[ROWS * kind + ROW * done + 1] != 0
}

fn piece_size(pieces: &[u8], kind: usize, done: usize) -> usize
    requires { (pieces.now ≡ table) × ((kind < kind_count) × (done < 3)) }
    ensures { (result ≡ length (piece (shape_of kind) done)) × (result ≤ 10) }
{
    usize::from(pieces[ROWS * kind + ROW * done])
}

fn put_row(pieces: &[u8], kind: usize, done: usize, out: &mut [u8], at: usize) -> usize
    requires pieces_value { (pieces.now ≡ table) × ((kind < kind_count) × (done < 3)) }
    requires done_in_bounds { at + length (piece (shape_of kind) done) ≤ length out.old }
    ensures { Puts (piece (shape_of kind) done) out.old out.new at result }
{
    let size = piece_size(pieces, kind, done);
    put_bytes(pieces, ROWS * kind + ROW * done + 2, size, out, at)
}

// The piece of a node of this kind with so many operands written; a signal's whole text.
pub fn put_piece(
    names: &[u8],
    sizes: &[usize],
    pieces: &[u8],
    kind: usize,
    first: usize,
    done: usize,
    out: &mut [u8],
    at: usize,
) -> usize
    requires pieces_value { (pieces.now ≡ table) × ((kind < kind_count) × (done < 3)) }
    requires writable { Writable names.now sizes.now kind first done × (at + length (piece_of (slot names.now sizes.now) (shape_of kind) done first) ≤ length out.old) }
    ensures { Puts (piece_of (slot names.now sizes.now) (shape_of kind) done first) out.old out.new at result }
{
    let name = put_row(pieces, kind, done, out, at);
    if kind as u32 != Node::SIGNAL {
        return name;
    }
    let end = put_bytes(names, MAX_NAME * first, sizes[first], out, name);
    put_row(pieces, kind, 1, out, end)
}

// The size of a signal's name, or 0 for another kind.
fn name_size(kind: u32, sizes: &[usize], first: usize) -> usize
    requires { kind ≡ signal_kind → (first < length sizes.now) × (get_or sizes.now first 0 ≤ max_name) }
    ensures { (result ≡ of_signal kind (get_or sizes.now first 0)) × (result ≤ max_name) }
{
    if kind != Node::SIGNAL {
        return 0;
    }
    sizes[first]
}

// The size of an operand's text, if there is the operand.
fn operand_size(follows: bool, lens: &[u32], i: usize) -> usize
    requires { follows ≡ true → i < length lens.now }
    ensures { (result ≡ of_operand follows (get_or lens.now i 0)) × (result ≤ max_told) }
{
    if !follows {
        return 0;
    }
    lens[i] as usize
}

// The size of a node's text, of its operands' sizes; as far as an answer can tell it.
pub fn node_size(word: u32, sizes: &[usize], lens: &[u32], pieces: &[u8]) -> u32
    requires { (pieces.now ≡ table) × Measurable sizes.now (length lens.now) word }
    ensures { result ≡ min max_told (sized (shape_of (kind_of word)) (nth sizes.now) (nth lens.now) (first_of word) (second_of word)) }
{
    let node = Node { word };
    let k = node.kind();
    let kind = k as usize;
    let first = node.first() as usize;
    let second = node.second() as usize;
    let own = piece_size(pieces, kind, 0)
        + piece_size(pieces, kind, 1)
        + piece_size(pieces, kind, 2);
    let name = name_size(k, sizes, first);
    let left = operand_size(follows(pieces, kind, 0), lens, first);
    let right = operand_size(follows(pieces, kind, 1), lens, second);
    (own + name + left + right).min(MAX_TOLD) as u32
}
