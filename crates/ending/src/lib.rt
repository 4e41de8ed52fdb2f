// The end of the reading: the conversion of a text that targets the other model, 15, 16, 18, and what is handed over.
// `finish` asks for the lines of a text with their nodes in the table and for the signal list, which `read`, its only caller, has at hand.
#![tactic(auto)]

ghost use Rattle.std.specs.Prelude.{◌≤◌, length};
ghost use Rattle.language.specs.Limits.{max_signals};
ghost use Rattle.language.specs.Tree.{Spec};
ghost use Rattle.language.specs.DeclaredNames.{Declarations};
ghost use Rattle.ending.specs.Handing.{Assemblable, Delivers, as_expanded, as_shifted, HandsOver};
ghost use Rattle.ending.specs.Finishing.{Complete, SomeComplete, Finishes};

use assembly::assemble;
use assembly::implied::Ends;
use basics::copy_words;
use language::models;
use node::{Answer, MAX_NODES, Refusal, refusals};
use parser::Facts;
use ports::TooMany;
use shifting::shift;
use writing::copies::copy_out;

// 16 and 18, or a formula's nodes, which were written to a table up to m, and the signal list.
fn deliver(
    whole: &[u32; MAX_NODES],
    m: usize,
    list: &[u32],
    nodes: &mut [u32],
    signals: &mut [u32],
) -> Answer
    requires { length list.now ≤ max_signals }
    ensures { Delivers whole.now m list.now nodes.old signals.old nodes.new signals.new result }
{
    let n = list.len();
    // A count that went on where the table was full (head of crate writing) is refused here.
    if MAX_NODES < m {
        return Err(Refusal {
            number: refusals::TOO_MANY_NODES,
            place: 0,
        });
    }
    if nodes.len() < m {
        return Err(Refusal {
            number: refusals::SHORT_RESULT,
            place: 0,
        });
    }
    if signals.len() < n {
        return Err(Refusal {
            number: refusals::SHORT_RESULT,
            place: 0,
        });
    }
    copy_out(whole, 0, m, nodes, 0);
    copy_words(list, n, signals);
    Ok((m as u32, n as u32))
}

// The whole formula of the lines, handed over with the signal list. Lines that fit their table may make a formula that does not. These two are not made part of their caller,
// whose frame would hold their tables while the text is expanded.
#[inline(never)]
fn hand_over(
    strict: bool,
    lines: &[u32],
    ends: Ends,
    table: &[u32; MAX_NODES],
    list: &[u32],
    nodes: &mut [u32],
    signals: &mut [u32],
) -> Answer
    requires { Assemblable lines.now ends.count table.now ends.at list.now }
    ensures { HandsOver as_expanded strict lines.now ends.count table.now ends.at list.now nodes.old signals.old
        nodes.new signals.new result }
{
    let mut whole = [0u32; MAX_NODES];
    let m = assemble(strict, lines, ends.count, table, ends.at, &mut whole);
    deliver(&whole, m, list, nodes, signals)
}

// The same with an X above each output, or above each input.
#[inline(never)]
fn hand_over_shifted(
    outputs: bool,
    strict: bool,
    lines: &[u32],
    ends: Ends,
    table: &[u32; MAX_NODES],
    list: &[u32],
    nodes: &mut [u32],
    signals: &mut [u32],
) -> Answer
    requires { Assemblable lines.now ends.count table.now ends.at list.now }
    ensures { HandsOver (as_shifted outputs) strict lines.now ends.count table.now ends.at list.now nodes.old signals.old
        nodes.new signals.new result }
{
    let mut whole = [0u32; MAX_NODES];
    let m = assemble(strict, lines, ends.count, table, ends.at, &mut whole);
    let mut shifted = [0u32; MAX_NODES];
    let k = shift(&whole, m, list, outputs, &mut shifted);
    deliver(&shifted, k, list, nodes, signals)
}

// 15, which comes behind the refusals of all lines, and what follows it.
pub fn finish(
    facts: Facts,
    listed: Result<usize, TooMany>,
    lines: &[u32],
    ends: Ends,
    table: &[u32; MAX_NODES],
    list: &[u32],
    nodes: &mut [u32],
    signals: &mut [u32],
) -> Answer
    requires { SomeComplete facts listed lines.now ends.count table.now ends.at list.now }
    ensures { (x : Spec) (d : Declarations) → Complete facts listed lines.now ends.count table.now ends.at list.now x d
        → Finishes x d nodes.old signals.old nodes.new signals.new result }
{
    let n = listed?;
    if facts.semantics == facts.target {
        return hand_over(facts.strict, lines, ends, table, &list[..n], nodes, signals);
    }
    let outputs = facts.target == models::MOORE;
    hand_over_shifted(
        outputs,
        facts.strict,
        lines,
        ends,
        table,
        &list[..n],
        nodes,
        signals,
    )
}
