// What a text's entries ask of the memory. The counts only tell how large a memory is taken: no answer depends on them.
ghost use Rattle.std.specs.Prelude.{◌≤◌, length};
ghost use Rattle.language.specs.Limits.{max_tokens, work_bytes};
ghost use Rattle.reader.specs.Memories.{Counts};

use entries::kinds;
use operands::entry::kind_at;

// How many entries may hold sets while another one is worked out, and how many are definitions, whose sets are kept.
#[derive(Clone, Copy)]
pub struct Weight {
    pub holders: usize,
    pub definitions: usize,
}

// 1 for an operator of sets, which holds one set, and for a big one, which holds two at most; 0 for others.
fn holds(kind: u32) -> usize
    ensures { result ≤ 1 }
{
    if kind < kinds::COMBINATION {
        return 0;
    }
    if kind < kinds::EQUALITY {
        return 1;
    }
    if kind < kinds::BIG_NUMBERS {
        return 0;
    }
    if kind < kinds::BINDER {
        return 1;
    }
    0
}

// 1 for a definition's line, 0 for others.
fn defines(kind: u32) -> usize
    ensures { result ≤ 1 }
{
    usize::from(kind == kinds::DEFINITION)
}

pub fn weigh(work: &[u8], entries: usize) -> Weight
    requires { (entries ≤ max_tokens) × (work_bytes ≤ length work.now) }
    ensures { Counts result entries }
{
    let mut holders: usize = 0;
    let mut definitions: usize = 0;
    for k in 0..entries {
        let kind = kind_at(work, k);
        holders += holds(kind);
        definitions += defines(kind);
    }
    Weight {
        holders,
        definitions,
    }
}
