// The library for callers in C and Rust: a slice is a pointer and a length, the answer one 64-bit word. include/tlsf.h declares it, and says what the caller of a
// pointer owes.
#![tactic(auto)]

ghost use Rattle.std.specs.Prelude.{◌≡◌};
ghost use Rattle.node.specs.Answer.{says};
ghost use Rattle.rewriter.specs.Promise.{Rewrites};
ghost use Rattle.claim.specs.Reads.{Reads};
ghost use Rattle.claim.specs.Converts.{Converts};
ghost use Rattle.tlsf_c.specs.Packed.{packed, Fits};
ghost use Rattle.basic.specs.Answer.{tells};
ghost use Rattle.writer.specs.Promise.{Writes};
ghost use Rattle.diagnosis.specs.Promise.{valued, Diagnoses};
ghost use Rattle.tlsf_c.specs.Promise.{Packs, EvaluatesTo, ReachesTo, counted as counted', PacksBytes, paired, PacksLine};

use diagnosis::Diagnosis;
use node::{Answer, Refusal};

const HIGH: u64 = 4294967296;

const REFUSED: u64 = 9223372036854775808;

// An answer in one word: accepted = nodes * 2^32 + signals; refused = 2^63 + number * 2^32 + place.
fn pack(answer: Answer) -> u64
    requires { Fits (says answer) }
    ensures { result ≡ packed (says answer) }
{
    match answer {
        Ok((nodes, signals)) => u64::from(nodes) * HIGH + u64::from(signals),
        Err(Refusal { number, place }) => REFUSED + (u64::from(number) * HIGH + u64::from(place)),
    }
}

// reader::read
#[unsafe(no_mangle)]
pub extern "C" fn tlsf_read(
    text: &[u8],
    work: &mut [u8],
    nodes: &mut [u32],
    signals: &mut [u32],
) -> u64
    ensures { Packs result (Reads text.now work.old nodes.old signals.old work.new nodes.new signals.new) }
{
    pack(reader::read(text, work, nodes, signals))
}

// converter::convert
#[unsafe(no_mangle)]
pub extern "C" fn tlsf_convert(
    text: &[u8],
    form: u32,
    work: &mut [u8],
    nodes: &mut [u32],
    signals: &mut [u32],
) -> u64
    ensures { Packs result (Converts text.now form work.old nodes.old signals.old work.new nodes.new signals.new) }
{
    pack(converter::convert(text, form, work, nodes, signals))
}

// rewriter::rewrite
#[unsafe(no_mangle)]
pub extern "C" fn tlsf_rewrite(nodes: &[u32], form: u32, out: &mut [u32]) -> u64
    ensures { Packs result (Rewrites form nodes.now out.old out.new) }
{
    pack(rewriter::rewrite(nodes, form, out))
}

// evaluator::evaluate
#[unsafe(no_mangle)]
pub extern "C" fn tlsf_evaluate(
    nodes: &[u32],
    signals: u32,
    recording: &[u8],
    rows: &mut [u8],
) -> u64
    ensures { Packs result (EvaluatesTo nodes.now signals recording.now rows.old rows.new) }
{
    pack(evaluator::evaluate(nodes, signals, recording, rows))
}

// lookahead::reach_of, a bounded reach n as (n, 0), unbounded as (0, 1)
#[unsafe(no_mangle)]
pub extern "C" fn tlsf_reach(nodes: &[u32]) -> u64
    ensures { Packs result (ReachesTo nodes.now) }
{
    let reach = lookahead::reach_of(nodes);
    pack(lookahead::answer(reach))
}

// The writer's answer with its bytes in the place of nodes.
fn counted(written: Result<u32, Refusal>) -> Answer
    ensures { says result ≡ counted' (tells written) }
{
    Ok((written?, 0))
}

// writer::write_basic: accepted = bytes * 2^32
#[unsafe(no_mangle)]
pub extern "C" fn tlsf_write_basic(text: &[u8], work: &mut [u8], out: &mut [u8]) -> u64
    ensures { PacksBytes result (Writes text.now work.old out.old work.new out.new) }
{
    pack(counted(writer::write_basic(text, work, out)))
}

// A diagnosis with its section and line in the place of nodes and signals.
fn named(found: Result<Diagnosis, Refusal>) -> Answer
    ensures { says result ≡ paired (valued found) }
{
    match found? {
        Diagnosis::Holds => Ok((0, 0)),
        Diagnosis::Preset(line) => Ok((1, line)),
        Diagnosis::Assert(line) => Ok((2, line)),
        Diagnosis::Guarantee(line) => Ok((3, line)),
    }
}

// diagnosis::diagnose: accepted = section * 2^32 + line, 0 where the recording holds
#[unsafe(no_mangle)]
pub extern "C" fn tlsf_diagnose(
    text: &[u8],
    recording: &[u8],
    work: &mut [u8],
    rows: &mut [u8],
) -> u64
    ensures { PacksLine result (Diagnoses text.now recording.now work.old rows.old work.new rows.new) }
{
    pack(named(diagnosis::diagnose(text, recording, work, rows)))
}
