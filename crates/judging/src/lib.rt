// From a text and a recording to the verdict: the reader, then the evaluator on the text's nodes.
#![tactic(auto)]

ghost use Rattle.std.specs.Prelude.{◌≡◌, length};
ghost use Rattle.evaluator.specs.Evaluation.{rows_size, verdict_of, finds};
ghost use Rattle.judging.specs.Promise.{JudgesStart, JudgesText};
ghost use Rattle.judging.specs.Room.{rows_room};
ghost use Rattle.judging.specs.Longer.{place_told, moved as moved'};

use evaluator::Verdict;
use node::refusals::BAD_RECORDING;
use node::{MAX_NODES, MAX_SIGNALS, Refusal};
use recordings::{LONGEST, MAX_POSITIONS};

// The longest row for each of the most nodes: 2 MB.
pub const ROWS: usize = (MAX_POSITIONS + 7) / 8 * MAX_NODES;

// Room for the rows. A function of its own, so that the callers' proofs do not write the array out.
fn room() -> [u8; ROWS]
    ensures { rows_room ≡ length result }
{
    [0; ROWS]
}

// The verdict on a table. The rows take 2 MB of stack; compiled into its caller, also while the text is read.
fn verdict(nodes: &[u32], signals: u32, recording: &[u8]) -> Result<Verdict, Refusal>
    ensures { finds result ≡ verdict_of nodes.now signals recording.now (rows_size nodes.now recording.now) }
{
    let mut rows = room();
    evaluator::judge(nodes, signals, recording, &mut rows)
}

// Does the text hold at position 0 of the recording's infinite word? A refusal of the reader comes before those of the evaluator. The first 65,536 bytes of `work` are
// zero afterwards, unless it is shorter.
pub fn judge_text(text: &[u8], recording: &[u8], work: &mut [u8]) -> Result<Verdict, Refusal>
    ensures { JudgesText text.now recording.now work.old work.new result }
{
    let mut table: [u32; MAX_NODES] = [0; MAX_NODES];
    let mut list: [u32; MAX_SIGNALS] = [0; MAX_SIGNALS];
    let (count, listed) = reader::read(text, work, &mut table, &mut list)?;
    let n = count as usize;
    verdict(&table[..n], listed, recording)
}

// A refusal's place, or a length in its stead if that is what it tells: 20 at any place but the header's.
fn place_told(number: u32, place: u32, size: u32) -> u32
    ensures { result ≡ place_told size number place }
{
    if number != BAD_RECORDING {
        return place;
    }
    if place == 0 {
        return place;
    }
    size
}

// What was found with another length in it, if it tells one.
fn moved(found: Result<Verdict, Refusal>, size: u32) -> Result<Verdict, Refusal>
    ensures { finds result ≡ moved' size (finds found) }
{
    found.map_err(|refusal| Refusal {
        number: refusal.number,
        place: place_told(refusal.number, refusal.place, size),
    })
}

// The verdict on a recording of `size` bytes, of which `start` has all, or more than the longest recording has.
pub fn judge_start(
    text: &[u8],
    start: &[u8],
    size: u32,
    work: &mut [u8],
) -> Result<Verdict, Refusal>
    ensures { JudgesStart text.now start.now size work.old work.new result }
{
    let found = judge_text(text, start, work);
    if start.len() <= LONGEST {
        return found;
    }
    moved(found, size)
}
