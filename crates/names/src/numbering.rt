// Declared names by their numbers in the text's order: refusal 8.
ghost use Rattle.std.specs.Prelude.{◌≡◌, ◌+◌, ◌≤◌, ◌<◌, length, is_some, unwrap_or, nat_lt};
ghost use Rattle.language.specs.Limits.{max_names};
ghost use Rattle.spellings.specs.Interned.{top};
ghost use Rattle.names.specs.Tables.{no_place};
ghost use Rattle.names.specs.Walkable.{Walkable, Table};
ghost use Rattle.names.specs.Numbering.{Numbered};

use crate::entry::{Name, declares, name_at};
use entries::fields::kind_at;
use entries::kinds;
use language::limits;

// How many names are declared, and where the 257th stands, if there is one.
#[derive(Clone, Copy)]
pub struct Tally {
    pub count: usize,
    pub place: Option<u32>,
    pub ghost told: { is_some place ≡ nat_lt max_names count },
}

// One entry more, k: a name that it declares gets the next number, and `found` holds the entry at that number. Only `number_declared` calls it, with what it was given itself.
fn number_one(
    work: &[u8],
    ids: &[u16],
    entries: usize,
    k: usize,
    before: Tally,
    table: &mut [u16],
    found: &mut [u16],
) -> Tally
    requires { Walkable work.now ids.now entries × (k < entries) × (before.count ≤ k) × (top ids.now ≤ length table.old) × (max_names ≤ length found.old) }
    ensures { ((h : Walkable work.now ids.now entries) → Numbered h k table.old found.old before.count (unwrap_or before.place 0)
        → Numbered h (k + 1) table.new found.new result.count (unwrap_or result.place 0)) × (result.count ≤ k + 1) }
{
    let kind = kind_at(work, k);
    if !declares(kinds::PARAMETER, kind) {
        return before;
    }
    let Name { at, id } = name_at(work, ids, k);
    let count = before.count;
    let place = before.place;
    table[id] = count as u16;
    if count < limits::MAX_NAMES {
        found[count] = k as u16;
        return Tally {
            count: count + 1,
            place,
        };
    }
    if count == limits::MAX_NAMES {
        return Tally {
            count: count + 1,
            place: Some(at),
        };
    }
    Tally {
        count: count + 1,
        place,
    }
}

// The numbers of all declared names in a table that held none, and their entries. It asks for the entries that `resolve` was given.
pub fn number_declared(
    work: &[u8],
    ids: &[u16],
    entries: usize,
    table: &mut [u16],
    found: &mut [u16],
) -> Tally
    requires { Walkable work.now ids.now entries × (top ids.now ≤ length table.old) × (max_names ≤ length found.old) }
    ensures { (h : Walkable work.now ids.now entries) → Table h table.old (λ t. no_place)
        → Numbered h entries table.new found.new result.count (unwrap_or result.place 0) }
{
    let mut tally = Tally {
        count: 0,
        place: None,
    };
    for k in 0..entries {
        tally = number_one(work, ids, entries, k, tally, table, found);
    }
    tally
}
