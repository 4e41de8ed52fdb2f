// A memory of its own for an entry that finds no room, and what is brought back from there.
ghost use Rattle.std.specs.Prelude.{◌≡◌, ◌+◌, ◌≤◌, ◌<◌, ◌^◌, length};
ghost use Rattle.language.specs.Limits.{max_names};
ghost use Rattle.machine.specs.Memory.{free_word};
ghost use Rattle.machine_run.specs.Running.{apart_memory};
ghost use Rattle.machine_run.specs.Bringing.{Renoted, NoteBrought, Bringable, Brought, returned as returned', outset as outset'};

use language::limits;
use machine::{FREE_WORD, Machine, NOTE, SLOTS_WORD, modes};
use memory_sets::moving::copy;
use name_values::sorts;

// The words of such a memory.
pub const WORDS: usize = 131072;

pub fn room() -> [u32; WORDS]
    ensures { apart_memory ≡ length result }
{
    [0; WORDS]
}

// The note of a definition, if there was none.
fn note(source: &[u32], memory: &mut [u32], r: usize)
    requires { (free_word ≤ length source.now) × ((free_word ≤ length memory.old) × (r < max_names)) }
    ensures { NoteBrought source.now memory.old memory.new r }
{
    let at = NOTE * r;
    if memory[at] != sorts::BODY as u32 {
        return;
    }
    copy(source, at, memory, at, NOTE);
}

// The notes of definitions that were worked out apart. Those of other names stay: of signals the numbers, which are known to be right only while the table has room.
fn notes(source: &[u32], memory: &mut [u32])
    requires { (free_word ≤ length source.now) × (free_word ≤ length memory.old) }
    ensures { Renoted source.now memory.old memory.new max_names }
{
    for r in 0..limits::MAX_NAMES {
        note(source, memory, r);
    }
}

// Notes and kept sets are brought back, and a set that has come, to the top of the values; n is the state where it came, m that in which the entry found no room.
pub fn bring(source: &[u32], memory: &mut [u32], m: Machine, n: Machine) -> Machine
    requires { Bringable source.now memory.old m n }
    ensures { Brought source.now memory.old memory.new m n result }
{
    let slots = memory[SLOTS_WORD] as usize;
    let top = m.top;
    notes(source, memory);
    copy(source, FREE_WORD, memory, FREE_WORD, slots - FREE_WORD);
    if n.mode == modes::SET {
        copy(source, n.from, memory, top, n.value as usize);
        return returned(m, n, top);
    }
    returned(m, n, n.from)
}

// What has come in the state n, in the memory of m.
fn returned(m: Machine, n: Machine, from: usize) -> Machine
    ensures { result ≡ returned' m n from }
{
    Machine {
        mode: n.mode,
        value: n.value,
        from,
        nodes: n.nodes,
        ..m
    }
}

// The entry of m at the start of such a memory: there is a slot for each entry up to its own.
pub fn outset(m: Machine) -> Machine
    requires { m.depth + m.value < 2 ^ 33 }
    ensures { result ≡ outset' m apart_memory }
{
    Machine {
        from: 0,
        top: m.depth + m.value as usize + 1,
        frames: WORDS,
        ..m
    }
}
