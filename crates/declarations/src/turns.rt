// Signals and buses, each sized at its own turn.
ghost use Rattle.std.specs.Prelude.{Bool, List, ℕ};
ghost use Rattle.language.specs.Tree.{Spec, Declaration};
ghost use Rattle.language.specs.DeclaredNames.{Table};
ghost use Rattle.declarations.specs.Turns.{Declared, TurnsGiven, TurnsTold, StayBefore, SizedLengths};

use crate::evaluate::Names;
use crate::width::{Place, sort_of, width_of};
use language::limits;
use node::{MAX_NODES, Refusal};
use operands::Source;

// The declarations of one heading, at the positions from `from` to `to`: by position, the own entry, the enumeration's, and the widths known so far.
#[derive(Clone, Copy)]
pub struct Heading {
    pub places: [u16; limits::MAX_NAMES],
    pub enumerations: [u16; limits::MAX_NAMES],
    pub widths: [u32; limits::MAX_NAMES],
    pub from: usize,
    pub to: usize,
}

// What is noted, and the widths by position, when they are sized.
#[derive(Clone, Copy)]
pub struct Sized {
    pub names: Names,
    pub widths: [u32; limits::MAX_NAMES],
}

// Each of the declarations is sized, its width stored at its position, and noted; or the first refusal.
pub fn turns(
    source: &Source,
    heading: Heading,
    names: Names,
    memory: &mut [u32],
    table: &mut [u32; MAX_NODES],
    entries: usize,
) -> Result<Sized, Refusal>
    requires { TurnsGiven source.now.text.now source.now.work.now source.now.refs.now heading.places heading.enumerations heading.from heading.to names.sorts names.numbers heading.widths
        memory.old table.old entries }
    ensures { ((found : List ℕ) (m : ℕ) (x : Spec) (output : Bool) (ds : List Declaration) (d : Table)
        → Declared source.now.text.now source.now.work.now source.now.refs.now found entries m heading.places heading.enumerations heading.from heading.to names.sorts
        names.numbers x ds d → TurnsTold source.now.text.now source.now.work.now x output ds d heading.from result)
        × (StayBefore heading.from heading.widths result × SizedLengths table.old table.new result) }
{
    let places = heading.places;
    let enumerations = heading.enumerations;
    let to = heading.to;
    let mut widths = heading.widths;
    let mut sorts = names.sorts;
    let mut numbers = names.numbers;
    for j in heading.from..to {
        let own = usize::from(places[j]);
        let enumeration = usize::from(enumerations[j]);
        let r = usize::from(source.refs[own]);
        let n = width_of(
            source,
            Names { sorts, numbers },
            memory,
            table,
            entries,
            Place { own, enumeration },
        )?;
        sorts[r] = sort_of(n);
        numbers[r] = n;
        widths[j] = n;
    }
    Ok(Sized {
        names: Names { sorts, numbers },
        widths,
    })
}
