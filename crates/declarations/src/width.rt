// The width of a signal or a bus.
ghost use Rattle.std.specs.Prelude.{List, ◌≡◌, ℕ};
ghost use Rattle.language.specs.Tree.{Spec, Declaration};
ghost use Rattle.language.specs.DeclaredNames.{Table};
ghost use Rattle.declarations.specs.Expressions.{LengthKept};
ghost use Rattle.declarations.specs.Widths.{Sizing, Sizable, Sizes, IsSized, sort_of};

use crate::constants::before;
use crate::enumeration::{NO_ENTRY, word_width};
use crate::evaluate::{Names, number_of};
use entries::kinds;
use language::limits;
use name_values::sorts;
use node::{MAX_NODES, Refusal, refusals};
use operands::Source;
use operands::entry::{kind_at, place_at};

pub fn sort_of(width: u32) -> u8
    ensures { result ≡ sort_of width }
{
    if width == 0 {
        sorts::SIGNAL
    } else {
        sorts::BUS
    }
}

fn sized(n: u32, place: u32) -> Result<u32, Refusal>
    ensures { IsSized n place result }
{
    if n < 1 {
        return Err(Refusal {
            number: refusals::WRONG_WIDTH,
            place,
        });
    }
    if n > limits::MAX_WIDTH {
        return Err(Refusal {
            number: refusals::WRONG_WIDTH,
            place,
        });
    }
    Ok(n)
}

// A port's own entry, and that of the enumeration that it is declared by.
#[derive(Clone, Copy)]
pub struct Place {
    pub own: usize,
    pub enumeration: usize,
}

// The width of the signal or bus there, 0 for a single signal.
pub fn width_of(
    source: &Source,
    names: Names,
    memory: &mut [u32],
    table: &mut [u32; MAX_NODES],
    entries: usize,
    place: Place,
) -> Result<u32, Refusal>
    requires { Sizable source.now.text.now source.now.work.now source.now.refs.now names.sorts names.numbers memory.old table.old entries place.own place.enumeration }
    ensures { ((found : List ℕ) (n m : ℕ) (x : Spec) (d : Table) (y : Declaration) → Sizing source.now.text.now source.now.work.now source.now.refs.now found n m names.sorts
        names.numbers place.own place.enumeration x d y → Sizes x.definitions d y result) × LengthKept table.old table.new result }
{
    let k = place.own;
    let kind = kind_at(source.work, k);
    if kind == kinds::SIGNAL {
        return Ok(0);
    }
    let at = place_at(source.work, k);
    if kind == kinds::TYPED {
        let e = place.enumeration;
        if e == NO_ENTRY {
            return sized(0, at);
        }
        return sized(word_width(source.work, e), at);
    }
    let n = number_of(source, names, memory, table, entries, before(k))?;
    sized(n, at)
}
