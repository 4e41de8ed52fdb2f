// Refusal 5 over the stored tree: 'tree too deep', at the outermost expression's first token. One pass, with a stack of the operands' levels and starts.
// An inner stage: `too_deep` asks for a work buffer of full length, which the reader has tested (17), and for as many entries as the parser counted.
#![tactic(auto)]

ghost use Rattle.std.specs.Prelude.{◌≡◌, ◌+◌, ◌≤◌, ◌<◌, length};
ghost use Rattle.std.proofs.Math.Seq.{slice};
ghost use Rattle.language.specs.Limits.{max_tokens, work_bytes};
ghost use Rattle.entries.specs.Kinds as Kind;
ghost use Rattle.traversal.specs.Places.{placed};
ghost use Rattle.depth.specs.Progress.{Reached};
ghost use Rattle.depth.specs.Promise.{TooDeep};
ghost use Rattle.depth.specs.Depth.{capped, highest as highest', level_of, fault_of};

use entries::kinds;
use language::limits;
use lexer::fields::{LENGTHS, OFFSETS};
use traversal::{Progress, cell_at, first, first_of, operand_count, start_of};

// The functions below are the pass's own: it has bounded what they ask for.
fn highest(levels: &[u32], from: usize, to: usize) -> u32
    requires { to ≤ length levels.now }
    ensures { result ≡ highest' (slice from to levels.now) }
{
    let mut most: u32 = 0;
    for i in from..to {
        most = most.max(levels[i]);
    }
    most
}

// One level more, up to one more than are allowed.
fn raised(n: u32) -> u32
    ensures { result ≡ capped (n + 1) }
{
    if n < limits::MAX_LEVELS {
        n + 1
    } else {
        limits::MAX_LEVELS + 1
    }
}

// One more than its operands' for an expression; a big operator is one level however many names it has, which its first name's entry counts.
fn level_of(kind: u32, most: u32, start: u32) -> u32
    requires { kind < Kind.limit }
    ensures { result ≡ level_of kind most start }
{
    if kind < kinds::BIG_NUMBERS {
        raised(most)
    } else if kind < kinds::BINDER {
        if start == kinds::BINDER {
            raised(most)
        } else {
            most
        }
    } else if kind < kinds::LISTED {
        most
    } else if kind < kinds::ELEMENT {
        raised(most)
    } else if kind < kinds::RANGE {
        most
    } else if kind < kinds::LINES {
        raised(most)
    } else {
        most
    }
}

// Too deep, if the entry is a line's.
fn fault_of(kind: u32, level: u32, start: u32) -> Option<u32>
    ensures { result ≡ placed (fault_of kind level start) }
{
    if kind < kinds::LINES {
        return None;
    }
    if level <= limits::MAX_LEVELS {
        return None;
    }
    Some(start)
}

// One entry.
fn pass(work: &[u8], i: usize, p: Progress, levels: &mut [u32], starts: &mut [u32]) -> Progress
    requires { Reached work.now i p levels.old starts.old × (i < max_tokens) }
    ensures { Reached work.now (i + 1) result levels.new starts.new }
{
    let c = cell_at(work, i);
    let kind = c.kind;
    let top = p.top;
    let below = top.saturating_sub(operand_count(p.before, c));
    let start = first_of(starts, below, top);
    let fault = fault_of(kind, first_of(levels, below, top), start);
    let found = first(p.found, fault);
    if kind < kinds::LINES {
        levels[below] = level_of(kind, highest(levels, below, top), start);
        starts[below] = start_of(kind, c.token / LENGTHS % OFFSETS, start);
        return Progress {
            before: kind,
            top: below + 1,
            found,
        };
    }
    Progress {
        before: kind,
        top: below,
        found,
    }
}

// The first place of refusal 5, if there is one.
pub fn too_deep(work: &[u8], entries: usize) -> Option<u32>
    requires { (work_bytes ≤ length work.now) × (entries ≤ max_tokens) }
    ensures { TooDeep work.now entries result }
{
    let mut levels = [0u32; limits::MAX_TOKENS];
    let mut starts = [0u32; limits::MAX_TOKENS];
    let mut p = Progress {
        before: 0,
        top: 0,
        found: None,
    };
    for i in 0..entries {
        p = pass(work, i, p, &mut levels, &mut starts);
    }
    p.found
}
