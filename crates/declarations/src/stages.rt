// The stages before any bus is sized: notes and parameters, then the ports' entries.
ghost use Rattle.std.specs.Prelude.{◌≡◌, length};
ghost use Rattle.language.specs.Limits.{max_names};
ghost use Rattle.language.specs.Tree.{Spec};
ghost use Rattle.notes.specs.FirstTable.{first_table};
ghost use Rattle.declarations.specs.Trees.{Tree};
ghost use Rattle.declarations.specs.Expressions.{MemoryRoom, Lengths};
ghost use Rattle.declarations.specs.Constants.{ConstantsTold};
ghost use Rattle.declarations.specs.Describing.{Described};
ghost use Rattle.declarations.specs.Placing.{PortsPlaced};
ghost use Rattle.declarations.specs.Promise.{Checked, Given};

use crate::Counts;
use crate::constants::{Chosen, parameters};
use crate::describe::describe;
use crate::evaluate::Names;
use entries::{headings, kinds};
use language::limits;
use node::{MAX_NODES, Refusal};
use notes::choose::choose;
use notes::first::note_names;
use operands::Source;

// How many ports there are, and how many of them are inputs; by port, the own entry, the number of the name, the enumeration's entry, the name's offset.
#[derive(Clone, Copy)]
pub struct Ports {
    pub ins: usize,
    pub count: usize,
    pub places: [u16; limits::MAX_NAMES],
    pub order: [u16; limits::MAX_NAMES],
    pub enumerations: [u16; limits::MAX_NAMES],
    pub offsets: [u32; limits::MAX_NAMES],
}

// Every declared name is noted, then parameters are worked out in order: what is noted then, or the first refusal.
pub fn globals(
    source: &Source,
    found: &[u16],
    counts: Counts,
    memory: &mut [u32],
    table: &mut [u32; MAX_NODES],
) -> Result<Names, Refusal>
    requires { Given source.now.text.now source.now.work.now source.now.refs.now found.now counts.entries counts.names × MemoryRoom memory.old table.old counts.entries }
    ensures { ((x : Spec) → Checked source.now.text.now source.now.work.now source.now.refs.now found.now counts.entries counts.names x
        → ConstantsTold source.now.text.now source.now.work.now x (first_table x) result)
        × Lengths table.old table.new result }
{
    let entries = counts.entries;
    let mut sorts = [0u8; limits::MAX_NAMES];
    let mut numbers = [0u32; limits::MAX_NAMES];
    note_names(source.work, found, counts.names, &mut sorts, &mut numbers);
    let mut places = [0u16; limits::MAX_NAMES];
    let count = choose(
        source.work,
        entries,
        headings::NO_HEADING,
        kinds::PARAMETER,
        kinds::PARAMETER,
        &mut places,
        0,
    );
    parameters(
        source,
        Chosen { places, count },
        Names { sorts, numbers },
        memory,
        table,
        entries,
    )
}

// The ports: inputs, then outputs, and what is known of each before any is sized.
pub fn find_ports(source: &Source, found: &[u16], counts: Counts) -> Ports
    requires { Given source.now.text.now source.now.work.now source.now.refs.now found.now counts.entries counts.names }
    ensures { ((x : Spec) (t : Tree source.now.text.now source.now.work.now source.now.refs.now found.now counts.entries counts.names x)
        → PortsPlaced t result.places result.ins result.count)
        × (Described source.now.work.now source.now.refs.now found.now result.places result.count result.order result.enumerations result.offsets
        × ((length result.order ≡ max_names) × (length result.offsets ≡ max_names))) }
{
    let entries = counts.entries;
    let mut places = [0u16; limits::MAX_NAMES];
    let ins = choose(
        source.work,
        entries,
        headings::INPUTS,
        kinds::SIGNAL,
        kinds::TYPED,
        &mut places,
        0,
    );
    let count = choose(
        source.work,
        entries,
        headings::OUTPUTS,
        kinds::SIGNAL,
        kinds::TYPED,
        &mut places,
        ins,
    );
    let mut order = [0u16; limits::MAX_NAMES];
    let mut enumerations = [0u16; limits::MAX_NAMES];
    let mut offsets = [0u32; limits::MAX_NAMES];
    describe(
        source.work,
        source.refs,
        found,
        &places,
        count,
        &mut order,
        &mut enumerations,
        &mut offsets,
    );
    Ports {
        ins,
        count,
        places,
        order,
        enumerations,
        offsets,
    }
}
