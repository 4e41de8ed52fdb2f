// Signals by the number of their declared name.
ghost use Rattle.std.specs.Prelude.{◌+◌, ◌*◌, ◌≤◌, ◌<◌, length};
ghost use Rattle.node.specs.Limits.{field_limit, max_nodes};
ghost use Rattle.machine.specs.Memory.{note_words, note_at};
ghost use Rattle.atom_steps.specs.Signals.{Signalled};
ghost use Rattle.machine.specs.Fields.{note_address};

use machine::{NOTE, fields};
use node::MAX_NODES;
use writing::{TOO_MANY, signal};

// Signal i of the name r. Past the last node nothing is asked of its number.
pub fn signal_at(memory: &[u32], r: usize, i: u32, table: &mut [u32; MAX_NODES], at: usize) -> usize
    requires { (note_words * r + note_address < length memory.now) × (at ≤ max_nodes → note_at memory.now r note_address + i < field_limit) }
    ensures { Signalled (note_at memory.now r note_address) i table.old table.new at result }
{
    // A count that goes on where the table is full (head of crate writing).
    if MAX_NODES < at {
        return TOO_MANY;
    }
    signal(memory[NOTE * r + fields::NOTE_ADDRESS] + i, table, at)
}
