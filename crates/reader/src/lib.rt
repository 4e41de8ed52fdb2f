// The reader: from a text's bytes to its nodes and its signal list in the lent buffers (document 01, 'Reader order').
#![tactic(auto)]

mod expansion;
mod memories;
mod weight;

ghost use Rattle.std.specs.Prelude.{◌≡◌, ◌≤◌, Err, length};
ghost use Rattle.language.specs.Limits.{work_bytes};
ghost use Rattle.claim.specs.Reads.{Reads};
ghost use Rattle.reader.specs.Promise.{ReadsTold};
ghost use Rattle.reader.specs.Telling.{Tells};

use crate::expansion::CheckedTree;
use crate::memories::expand_checked;
use checked::check;
use language::limits;
use line_counts::{LineCounts, no_lines};
use node::{Answer, Refusal, refusals};
use operands::Source;
use parser::Facts;
use words::clear;

// A text's answer, what its INFO says, and how many lines the sections have that promise something.
#[derive(Clone, Copy)]
pub struct Told {
    pub answer: Answer,
    pub facts: Facts,
    pub lines: LineCounts,
}

// A refusal where INFO may not be read: facts and counts mean nothing.
fn untold(refusal: Refusal) -> Told
    ensures { result.answer ≡ Err refusal }
{
    Told {
        answer: Err(refusal),
        facts: Facts {
            semantics: 0,
            strict: false,
            target: 0,
            place: 0,
        },
        lines: no_lines(),
    }
}

// The answer on a text, with a work buffer that is long enough; what is left in its first 65,536 bytes is for the caller to clear.
fn answer(text: &[u8], work: &mut [u8], nodes: &mut [u32], signals: &mut [u32]) -> Told
    requires { work_bytes ≤ length work.old }
    ensures { Tells text.now work.old nodes.old signals.old work.new nodes.new signals.new result }
{
    let mut refs = [0u16; limits::MAX_TOKENS];
    let mut found = [0u16; limits::MAX_NAMES];
    let checked = check(text, work, &mut refs, &mut found);
    let passed = match checked {
        Ok(passed) => passed,
        Err(refusal) => return untold(refusal),
    };
    let facts = passed.facts;
    let tree = CheckedTree {
        entries: passed.counts.entries,
        names: passed.counts.names,
        facts,
    };
    let source = Source {
        text,
        work,
        refs: &refs,
    };
    let counted = expand_checked(&source, &found, tree, nodes, signals);
    Told {
        answer: counted.answer,
        facts: facts,
        lines: counted.lines,
    }
}

// `read`, which hands back what INFO says as well, of each text that 1 to 10 do not refuse, and how many lines the sections have, of each that is accepted.
pub fn read_told(text: &[u8], work: &mut [u8], nodes: &mut [u32], signals: &mut [u32]) -> Told
    ensures { ReadsTold text.now work.old nodes.old signals.old work.new nodes.new signals.new result }
{
    if work.len() < limits::WORK_BYTES {
        return untold(Refusal {
            number: refusals::SHORT_WORK,
            place: 0,
        });
    }
    let told = answer(text, work, nodes, signals);
    clear(work, limits::WORK_BYTES);
    told
}

// Reads a text: its nodes and its signal list in front of the lent buffers, or a refusal. The first 65,536 bytes of the work buffer are zero after it, unless there are
// fewer: then nothing is touched.
pub fn read(text: &[u8], work: &mut [u8], nodes: &mut [u32], signals: &mut [u32]) -> Answer
    ensures { Reads text.now work.old nodes.old signals.old work.new nodes.new signals.new result }
{
    let told = read_told(text, work, nodes, signals);
    told.answer
}
