// Declared names and those of their spelling: refusal 7 among them.
ghost use Rattle.std.specs.Prelude.{◌+◌, ◌≤◌, ◌<◌, length};
ghost use Rattle.entries.specs.Kinds as Kind;
ghost use Rattle.spellings.specs.Interned.{top};
ghost use Rattle.names.specs.Tables.{no_place};
ghost use Rattle.names.specs.Walkable.{Walkable, Table};
ghost use Rattle.names.specs.Meeting.{Met};

use crate::entry::{Name, declares, name_at};
use entries::fields::kind_at;

// Above every place: no place (specs/Tables), as tables hold it where no name is, and as a number of its own. A number and no Option: over what tables hold the first
// place and the later of two are a minimum and a maximum; `hidden_place` and `answer` alone ask whether there is one.
pub const NO_PLACE: u16 = 65535;

pub const NOWHERE: u32 = NO_PLACE as u32;

// Entry k before those behind it, of which `place` is the first place where two names meet: the first place with it. It asks for what `declare` was given, and is
// called by nobody else.
fn declare_one(
    work: &[u8],
    ids: &[u16],
    entries: usize,
    low: u32,
    k: usize,
    place: u32,
    table: &mut [u16],
) -> u32
    requires { Walkable work.now ids.now entries × (k < entries) × (Kind.parameter ≤ low) × (top ids.now ≤ length table.old) }
    ensures { (h : Walkable work.now ids.now entries) → Met h low (k + 1) table.old place → Met h low k table.new result }
{
    let kind = kind_at(work, k);
    if !declares(low, kind) {
        return place;
    }
    let Name { at, id } = name_at(work, ids, k);
    let seen = u32::from(table[id]);
    table[id] = seen.min(at) as u16;
    place.min(seen.max(at))
}

// The first place where two declared names of the kinds from `low` on meet; the table then holds their smallest places. `low` is that of parameters, for all
// names, or that of signals, for signals and buses. It asks for the entries that `resolve` was given, and for a table that holds no place.
pub fn declare(work: &[u8], ids: &[u16], entries: usize, low: u32, table: &mut [u16]) -> u32
    requires { Walkable work.now ids.now entries × (Kind.parameter ≤ low) × (top ids.now ≤ length table.old) }
    ensures { (h : Walkable work.now ids.now entries) → Table h table.old (λ t. no_place) → Met h low 0 table.new result }
{
    let mut place = NOWHERE;
    for k in (0..entries).rev() {
        place = declare_one(work, ids, entries, low, k, place, table);
    }
    place
}
