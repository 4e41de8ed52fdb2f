// The notes of declared names laid into the machine's memory.
// `lay` is called with what crate notes and crate ports make, and a memory that has room for the notes: `declarations` has both.
#![tactic(auto)]

ghost use Rattle.std.specs.Prelude.{◌≡◌, suc, ◌+◌, ◌≤◌, ◌<◌, ◌^◌, length};
ghost use Rattle.language.specs.Limits.{max_names, max_elements};
ghost use Rattle.machine.specs.Memory.{first_kept};
ghost use Rattle.memory_notes.specs.Laid.{last_slots, Laid};

use language::limits;
use machine::{FREE_WORD, NOTE, SLOTS_WORD};
use name_values::sorts;

// The first word of kept sets.
const FIRST_KEPT: usize = SLOTS_WORD + 1;

// Kept sets have at most this part of the memory, and end before this word.
const SHARE: usize = 2;

const MOST_SLOTS: usize = 65_536;

// Where kept sets end if a name of that sort comes too: a definition may be a set.
fn behind(kept: usize, sort: u8) -> usize
    requires { kept < 2 ^ 32 }
    ensures { (kept ≤ result) × (result ≤ kept + suc max_elements) }
{
    if sort == sorts::BODY {
        return kept + limits::SET_ROOM;
    }
    kept
}

// By number, each name's sort, number and first signal (three tables, as `declarations` fills two and `ports` the third); nothing is kept and no formula marked.
pub fn lay(sorts: &[u8], numbers: &[u32], firsts: &[u32], memory: &mut [u32])
    requires max_names_in_bounds { (max_names ≤ length sorts.now) × ((max_names ≤ length numbers.now) × (max_names ≤ length firsts.now)) }
    requires first_kept_bound { (first_kept ≤ last_slots (length memory.old)) × (length memory.old < 2 ^ 32) }
    ensures { (length memory.new ≡ length memory.old) × Laid memory.new sorts.now numbers.now firsts.now }
{
    let mut kept = FIRST_KEPT;
    for r in 0..limits::MAX_NAMES {
        let at = NOTE * r;
        memory[at] = u32::from(sorts[r]);
        memory[at + 1] = numbers[r];
        memory[at + 2] = firsts[r];
        memory[at + 3] = 0;
        kept = behind(kept, sorts[r]);
    }
    let last = (memory.len() / SHARE).min(MOST_SLOTS);
    let slots = kept.min(last);
    memory[FREE_WORD] = FIRST_KEPT as u32;
    memory[SLOTS_WORD] = slots as u32;
}
