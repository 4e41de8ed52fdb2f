// Where a definition's nodes stand, in one number.
ghost use Rattle.std.specs.Prelude.{◌≤◌, ◌<◌};
ghost use Rattle.node.specs.Limits.{max_nodes};
ghost use Rattle.name_steps.specs.Marks.{Marked, Copyable, Again};

use node::{FIELD_LIMIT, MAX_NODES};
use writing::TOO_MANY;
use writing::copies::copy;

// Past the last node any number but 0 serves: nothing is copied there.
// The state's number of nodes is a count that goes on where the table is full (head of crate writing).
const BEYOND: u32 = 1;

// The nodes [at, m), at least one.
pub fn mark(at: usize, m: usize) -> u32
    requires { m ≤ max_nodes → at < m }
    ensures { Marked at m result }
{
    if MAX_NODES < m {
        return BEYOND;
    }
    at as u32 * FIELD_LIMIT + (m - at) as u32
}

// The nodes that are noted by v once more, from `at` on.
pub fn again(v: u32, table: &mut [u32; MAX_NODES], at: usize) -> usize
    requires { Copyable v at }
    ensures { Again v table.old table.new at result }
{
    if MAX_NODES < at {
        return TOO_MANY;
    }
    let from = (v / FIELD_LIMIT) as usize;
    let size = (v % FIELD_LIMIT) as usize;
    copy(from, size, at, table)
}
