// The walk over the entries: refusals 6 and 7, and what each name refers to. Two tables hold, for each spelling, the smallest place of a visible name and what the
// spelling refers to; a stack holds, for each open name of a big operator, what the tables held before it.
ghost use Rattle.std.specs.Prelude.{◌≡◌, true, ◌+◌};
ghost use Rattle.words.specs.Words.{word_at};
ghost use Rattle.entries.specs.Kinds as Kind;
ghost use Rattle.entries.specs.Stored.{first_entry, kind_of};
ghost use Rattle.names.specs.Roles as Roles;
ghost use Rattle.names.specs.Tables.{hidden_place};
ghost use Rattle.names.specs.States.{Stands, GoesOn, Begins, WalksAll};

use crate::declare::NOWHERE;
use crate::entry::{Name, binds, declares, ends, name_at, uses};
use entries::fields::kind_at;
use entries::kinds;
use language::limits;

// The entry that is next, how many names of big operators are open, and the first places that 6 and 7 have found.
#[derive(Clone, Copy)]
pub struct Walk {
    pub next: usize,
    pub depth: usize,
    pub hidden: u32,
    pub again: u32,
}

fn hidden_place(seen: u32, at: u32) -> u32
    ensures { result ≡ hidden_place seen at }
{
    if seen < NOWHERE { NOWHERE } else { at }
}

// The functions below take the entry that is next, and are called by `visit` alone, in a state that the walk has reached; each goes on behind the entry.
fn use_name(
    work: &[u8],
    ids: &[u16],
    entries: usize,
    walk: Walk,
    seen: &mut [u16],
    table: &mut [u16],
    stack: &mut [u16],
    refs: &mut [u16],
) -> Walk
    requires { Stands work.now ids.now entries seen.old table.old stack.old refs.old walk × (Roles.uses (kind_of (word_at work.now (first_entry + walk.next))) ≡ true) }
    ensures { GoesOn work.now ids.now entries seen.old table.old stack.old refs.old walk seen.new
        table.new stack.new refs.new result }
{
    let k = walk.next;
    let Name { at, id } = name_at(work, ids, k);
    let hidden = hidden_place(u32::from(seen[id]), at);
    refs[k] = table[id];
    Walk {
        next: k + 1,
        hidden: walk.hidden.min(hidden),
        ..walk
    }
}

fn declare_name(
    work: &[u8],
    ids: &[u16],
    entries: usize,
    walk: Walk,
    seen: &mut [u16],
    table: &mut [u16],
    stack: &mut [u16],
    refs: &mut [u16],
) -> Walk
    requires { Stands work.now ids.now entries seen.old table.old stack.old refs.old walk × (Roles.declares Kind.parameter (kind_of (word_at work.now (first_entry + walk.next))) ≡ true) }
    ensures { GoesOn work.now ids.now entries seen.old table.old stack.old refs.old walk seen.new
        table.new stack.new refs.new result }
{
    let k = walk.next;
    let Name { at, id } = name_at(work, ids, k);
    refs[k] = table[id];
    seen[id] = u32::from(seen[id]).min(at) as u16;
    Walk {
        next: k + 1,
        ..walk
    }
}

fn bind_name(
    work: &[u8],
    ids: &[u16],
    entries: usize,
    walk: Walk,
    seen: &mut [u16],
    table: &mut [u16],
    stack: &mut [u16],
    refs: &mut [u16],
) -> Walk
    requires { Stands work.now ids.now entries seen.old table.old stack.old refs.old walk × (Roles.binds (kind_of (word_at work.now (first_entry + walk.next))) ≡ true) }
    ensures { GoesOn work.now ids.now entries seen.old table.old stack.old refs.old walk seen.new
        table.new stack.new refs.new result }
{
    let k = walk.next;
    let Name { at, id } = name_at(work, ids, k);
    let depth = walk.depth;
    let place = u32::from(seen[id]);
    let top = 3 * depth;
    let slot = (limits::MAX_NAMES + depth) as u16;
    stack[top] = id as u16;
    stack[top + 1] = seen[id];
    stack[top + 2] = table[id];
    seen[id] = place.min(at) as u16;
    table[id] = slot;
    refs[k] = slot;
    Walk {
        next: k + 1,
        depth: depth + 1,
        again: walk.again.min(place.max(at)),
        ..walk
    }
}

fn end_name(
    work: &[u8],
    ids: &[u16],
    entries: usize,
    walk: Walk,
    seen: &mut [u16],
    table: &mut [u16],
    stack: &mut [u16],
    refs: &mut [u16],
) -> Walk
    requires { Stands work.now ids.now entries seen.old table.old stack.old refs.old walk × (Roles.ends (kind_of (word_at work.now (first_entry + walk.next))) ≡ true) }
    ensures { GoesOn work.now ids.now entries seen.old table.old stack.old refs.old walk seen.new
        table.new stack.new refs.new result }
{
    let depth = walk.depth - 1;
    let top = 3 * depth;
    let id = usize::from(stack[top]);
    seen[id] = stack[top + 1];
    table[id] = stack[top + 2];
    Walk {
        next: walk.next + 1,
        depth,
        ..walk
    }
}

// The entry that is next, whatever it does to names.
fn visit(
    work: &[u8],
    ids: &[u16],
    entries: usize,
    walk: Walk,
    seen: &mut [u16],
    table: &mut [u16],
    stack: &mut [u16],
    refs: &mut [u16],
) -> Walk
    requires { Stands work.now ids.now entries seen.old table.old stack.old refs.old walk }
    ensures { GoesOn work.now ids.now entries seen.old table.old stack.old refs.old walk seen.new
        table.new stack.new refs.new result }
{
    let kind = kind_at(work, walk.next);
    if uses(kind) {
        return use_name(work, ids, entries, walk, seen, table, stack, refs);
    }
    if binds(kind) {
        return bind_name(work, ids, entries, walk, seen, table, stack, refs);
    }
    if ends(kind) {
        return end_name(work, ids, entries, walk, seen, table, stack, refs);
    }
    if declares(kinds::PARAMETER, kind) {
        return declare_name(work, ids, entries, walk, seen, table, stack, refs);
    }
    Walk {
        next: walk.next + 1,
        ..walk
    }
}

// The whole walk. It is called by `resolve` alone: `seen` holds the signals and buses, `table` what declared names refer to.
pub fn walk_all(
    work: &[u8],
    ids: &[u16],
    entries: usize,
    seen: &mut [u16],
    table: &mut [u16],
    stack: &mut [u16],
    refs: &mut [u16],
) -> Walk
    requires { Begins work.now ids.now entries seen.old table.old stack.old refs.old }
    ensures { WalksAll work.now ids.now entries seen.old table.old stack.old refs.old seen.new
        table.new stack.new refs.new result }
{
    let mut walk = Walk {
        next: 0,
        depth: 0,
        hidden: NOWHERE,
        again: NOWHERE,
    };
    // The entry that is next stands in the state: what each step asks for and leaves is said of it (specs/States).
    while walk.next < entries {
        walk = visit(work, ids, entries, walk, seen, table, stack, refs);
    }
    walk
}
