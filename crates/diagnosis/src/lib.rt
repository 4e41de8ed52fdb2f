// Which line of a text failed on a recording (document 02, F-7): the line is found from a table's root by operands, and the bits of its row tell where it is false.
#![tactic(auto)]

ghost use Rattle.std.specs.Prelude.{◌≡◌, ◌≤◌, ◌<◌, length, Ok};
ghost use Rattle.recordings.specs.Limits.{max_positions};
ghost use Rattle.line_search.specs.Walking.{line_found};
ghost use Rattle.diagnosis.specs.Promise.{tells, Diagnoses};
ghost use Rattle.diagnosis.specs.Tables.{DiagnosesTable};
ghost use Rattle.node.specs.Result.{Done};
ghost use Rattle.node.specs.Limits.{max_nodes};

use basics::either;
use evaluator::Verdict;
use line_counts::LineCounts;
use line_search::{broken, first_false, walk};
use node::{MAX_NODES, MAX_SIGNALS, Refusal};
use reader::read_told;
use recordings::read_lasso;

// The recording holds, or a line of PRESET, ASSERT or GUARANTEE by its number.
#[derive(Clone, Copy, PartialEq, Eq)]
pub enum Diagnosis {
    Holds,
    Preset(u32),
    Assert(u32),
    Guarantee(u32),
}

// The line that is named of a table that fails, from its root and its rows over n positions.
fn name_line(nodes: &[u32], rows: &[u8], n: usize, strict: bool, lines: LineCounts) -> Diagnosis
    requires { (0 < length nodes.now) × ((length nodes.now ≤ max_nodes) × (n ≤ max_positions)) }
    ensures { tells (Ok result) ≡ Done (line_found nodes.now rows.now strict lines n) }
{
    let width = (n + 7) / 8;
    let root = (nodes.len() - 1) as u32;
    let preset = walk(nodes, root, 1, either(strict, 3, 2));
    let line = first_false(nodes, rows, width, preset, lines.preset, 0);
    if 0 < line {
        return Diagnosis::Preset(line);
    }
    let require = walk(nodes, root, 3, 5);
    let assert = walk(nodes, root, either(strict, 5, 7), either(strict, 4, 5));
    let p = broken(rows, width, strict, require, assert, n);
    if p < n {
        return Diagnosis::Assert(first_false(nodes, rows, width, assert, lines.assert, p));
    }
    let guarantee = walk(nodes, root, either(strict, 7, 15), either(strict, 3, 4));
    Diagnosis::Guarantee(first_false(nodes, rows, width, guarantee, lines.guarantee, 0))
}

// The verdict on a table, and the line that is named where it fails.
fn diagnose_table(
    nodes: &[u32],
    signals: u32,
    recording: &[u8],
    strict: bool,
    lines: LineCounts,
    rows: &mut [u8],
) -> Result<Diagnosis, Refusal>
    ensures { DiagnosesTable nodes.now signals recording.now strict lines rows.old rows.new result }
{
    match evaluator::judge(nodes, signals, recording, rows)? {
        Verdict::Holds => Ok(Diagnosis::Holds),
        Verdict::Fails => {
            let lasso = read_lasso(recording);
            Ok(name_line(nodes, rows, lasso.n, strict, lines))
        }
    }
}

// Which line of a text failed on a recording? Refused by 17, then 1 to 16 for the text, then 20, 23 and 18 for the recording and the rows. `rows` has a row for every node
// of the text afterwards, unless the call is refused: then it is as it was. The first 65,536 bytes of `work` are zero afterwards, unless it is shorter.
pub fn diagnose(
    text: &[u8],
    recording: &[u8],
    work: &mut [u8],
    rows: &mut [u8],
) -> Result<Diagnosis, Refusal>
    ensures { Diagnoses text.now recording.now work.old rows.old work.new rows.new result }
{
    let mut table: [u32; MAX_NODES] = [0; MAX_NODES];
    let mut list: [u32; MAX_SIGNALS] = [0; MAX_SIGNALS];
    let told = read_told(text, work, &mut table, &mut list);
    let (count, listed) = told.answer?;
    let n = count as usize;
    diagnose_table(
        &table[..n],
        listed,
        recording,
        told.facts.strict,
        told.lines,
        rows,
    )
}
