// The evaluator: a row of bits for every node of a table over a recorded lasso word, and the verdict (document 01, 'Recordings').
// The public entry points `evaluate` and `judge` ask nothing; the functions of `rows` and `recordings` ask for what `examine` has tested before any is called.
#![tactic(auto)]

ghost use Rattle.std.specs.Prelude.{◌≡◌, ◌≤◌, length};
ghost use Rattle.node.specs.Answer.{says};
ghost use Rattle.node.specs.Limits.{max_signals};
ghost use Rattle.evaluator.specs.Evaluated.{Evaluated, RowDone, Turn, Table};
ghost use Rattle.evaluator.specs.Evaluation.{evaluation};
ghost use Rattle.evaluator.specs.Promise.{Evaluates, Judges};

use bits::get_bit;
use node::{Answer, Node, Refusal, refusals};
use recordings::{Lasso, MAX_SIGNALS, check_recording, read_lasso};
use rows::{Op, copy_row, fill_row};

// The root at position 0.
#[derive(Clone, Copy, PartialEq, Eq)]
pub enum Verdict {
    Holds,
    Fails,
}

// The row of node i, from the rows of the nodes before it.
fn node_row(nodes: &[u32], recording: &[u8], lasso: Lasso, i: usize, rows: &mut [u8])
    requires { Turn nodes.now recording.now lasso i rows.old }
    ensures { RowDone recording.now lasso nodes.now i rows.old rows.new }
{
    let node = Node { word: nodes[i] };
    let kind = node.kind();
    let x = node.first() as usize;
    let y = node.second() as usize;
    let w = (lasso.n + 7) / 8;
    let base = w * i;
    let op = Op {
        kind,
        signal: x,
        first: w * x,
        second: w * y,
    };
    fill_row(recording, lasso, op, base, rows);
}

// The row of node i: a copy where node j is an earlier one of the same word.
fn row_like(nodes: &[u32], recording: &[u8], lasso: Lasso, i: usize, j: usize, rows: &mut [u8])
    requires { Turn nodes.now recording.now lasso i rows.old }
    ensures { RowDone recording.now lasso nodes.now i rows.old rows.new }
{
    if j < i {
        if nodes[j] == nodes[i] {
            let w = (lasso.n + 7) / 8;
            copy_row(rows, w * j, w * i, w);
            return;
        }
    }
    node_row(nodes, recording, lasso, i, rows);
}

// Where the last node of each signal is noted; all others share the last place.
const SLOTS: usize = node::MAX_SIGNALS + 1;

fn slot(word: u32) -> usize
    ensures { result ≤ max_signals }
{
    let node = Node { word };
    if node.kind() == Node::SIGNAL {
        return (node.first() % MAX_SIGNALS) as usize;
    }
    node::MAX_SIGNALS
}

// The rows of all nodes, the root's last.
fn fill(nodes: &[u32], recording: &[u8], lasso: Lasso, rows: &mut [u8])
    requires { Table nodes.now recording.now lasso rows.old }
    ensures { Evaluated recording.now lasso nodes.now (length nodes.now) rows.old rows.new }
{
    let mut seen: [usize; SLOTS] = [0; SLOTS];
    for i in 0..nodes.len() {
        let s = slot(nodes[i]);
        let j = seen[s];
        row_like(nodes, recording, lasso, i, j, rows);
        seen[s] = i;
    }
}

// The answer, before anything is written: 15, 19, 20, 23, 18.
fn examine(nodes: &[u32], signals: u32, recording: &[u8], room: usize) -> Answer
    ensures { says result ≡ evaluation nodes.now signals recording.now room }
{
    if MAX_SIGNALS < signals {
        return Err(Refusal {
            number: refusals::TOO_MANY_SIGNALS,
            place: 0,
        });
    }
    let (count, limit) = node::check_table(nodes, signals)?;
    let (n, k) = check_recording(recording, signals)?;
    if k < signals {
        return Err(Refusal {
            number: refusals::UNRECORDED_SIGNALS,
            place: 0,
        });
    }
    let w = (n as usize + 7) / 8;
    if room < w * (count as usize) {
        return Err(Refusal {
            number: refusals::SHORT_RESULT,
            place: 0,
        });
    }
    Ok((count, limit))
}

// Fills a row for each node, or refuses and writes nothing.
pub fn evaluate(nodes: &[u32], signals: u32, recording: &[u8], rows: &mut [u8]) -> Answer
    ensures { Evaluates result nodes.now signals recording.now rows.old rows.new }
{
    let counts = examine(nodes, signals, recording, rows.len())?;
    let lasso = read_lasso(recording);
    fill(nodes, recording, lasso, rows);
    Ok(counts)
}

// Fills the rows and tells whether the root holds at position 0.
pub fn judge(
    nodes: &[u32],
    signals: u32,
    recording: &[u8],
    rows: &mut [u8],
) -> Result<Verdict, Refusal>
    ensures { Judges result nodes.now signals recording.now rows.old rows.new }
{
    evaluate(nodes, signals, recording, rows)?;
    let lasso = read_lasso(recording);
    let w = (lasso.n + 7) / 8;
    let last = nodes.len() - 1;
    if get_bit(rows, 8 * (w * last)) {
        return Ok(Verdict::Holds);
    }
    Ok(Verdict::Fails)
}
