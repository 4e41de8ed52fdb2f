// Inputs are sized, then outputs.
ghost use Rattle.std.specs.Prelude.{List, ℕ};
ghost use Rattle.language.specs.Tree.{Spec};
ghost use Rattle.language.specs.DeclaredNames.{Table};
ghost use Rattle.declarations.specs.Turns.{SizedLengths};
ghost use Rattle.declarations.specs.Sizes.{Sizings, SizesGiven, SizesTold};

use crate::evaluate::Names;
use crate::stages::Ports;
use crate::turns::{Heading, Sized, turns};
use language::limits;
use node::{MAX_NODES, Refusal};
use operands::Source;

pub fn sizes(
    source: &Source,
    ports: Ports,
    names: Names,
    memory: &mut [u32],
    table: &mut [u32; MAX_NODES],
    entries: usize,
) -> Result<Sized, Refusal>
    requires { SizesGiven source.now.text.now source.now.work.now source.now.refs.now ports.places ports.enumerations ports.ins ports.count names.sorts names.numbers memory.old table.old entries }
    ensures { ((found : List ℕ) (m : ℕ) (x : Spec) (d : Table)
        → Sizings source.now.text.now source.now.work.now source.now.refs.now found entries m ports.places ports.enumerations ports.ins ports.count names.sorts
        names.numbers x d → SizesTold source.now.text.now source.now.work.now x d ports.ins result)
        × SizedLengths table.old table.new result }
{
    let places = ports.places;
    let enumerations = ports.enumerations;
    let ins = ports.ins;
    let waiting = [0u32; limits::MAX_NAMES];
    let inputs = turns(
        source,
        Heading {
            places,
            enumerations,
            widths: waiting,
            from: 0,
            to: ins,
        },
        names,
        memory,
        table,
        entries,
    )?;
    let noted = inputs.names;
    let widths = inputs.widths;
    turns(
        source,
        Heading {
            places,
            enumerations,
            widths,
            from: ins,
            to: ports.count,
        },
        noted,
        memory,
        table,
        entries,
    )
}
