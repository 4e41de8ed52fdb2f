// The declared names of a text: which are visible everywhere, what number each has, and what refusals 7 and 8 say of them.
ghost use Rattle.names.specs.Walkable.{Walkable};
ghost use Rattle.names.specs.Census.{Blanks, Undeclared, Declared};

use crate::declare::declare;
use crate::numbering::{Tally, number_declared};
use entries::kinds;

// The first place where two of them meet, and how many they are.
#[derive(Clone, Copy)]
pub struct Census {
    pub again: u32,
    pub tally: Tally,
}

// The smallest places of all declared names in `met`, and of signals and buses in `seen`; the numbers of all in `table`, and their entries in `found`. It asks for
// the entries that `resolve` was given, and for tables that hold no place.
pub fn declare_all(
    work: &[u8],
    ids: &[u16],
    entries: usize,
    met: &mut [u16],
    seen: &mut [u16],
    table: &mut [u16],
    found: &mut [u16],
) -> Census
    requires { Undeclared work.now ids.now entries met.old seen.old table.old found.old }
    ensures { (h : Walkable work.now ids.now entries) → Blanks h met.old seen.old table.old
        → Declared h seen.new table.new found.new result }
{
    let again = declare(work, ids, entries, kinds::PARAMETER, met);
    declare(work, ids, entries, kinds::SIGNAL, seen);
    let tally = number_declared(work, ids, entries, table, found);
    Census { again, tally }
}
