// From a checked tree to its answer: declarations, lines and what follows them (refusals 11 to 18), with a memory that is lent.
ghost use Rattle.std.specs.Prelude.{◌≡◌, Err};
ghost use Rattle.language.specs.Tree.{Spec};
ghost use Rattle.language.specs.DeclaredNames.{Declarations};
ghost use Rattle.ending.specs.Listing.{start_of};
ghost use Rattle.reader.specs.Counting.{Finishes};
ghost use Rattle.reader.specs.Lining.{Ready, SomeReady, Sized};
ghost use Rattle.reader.specs.Naming.{Roomy, SomeParsed, Expands};

use assembly::implied::Ports;
use declarations::Counts;
use declarations::declare::declare;
use ending::finish;
use line_counts::{LineCounts, count_lines, no_lines};
use lines::{Plan, gather};
use node::{Answer, MAX_NODES, MAX_SIGNALS, Refusal};
use operands::Source;
use parser::Facts;
use ports::TooMany;
use writing::TOO_MANY;

// Where the lines' nodes start: with too many signals nothing is written, and lines are worked through for their refusals alone.
fn start(listed: Result<usize, TooMany>) -> usize
    ensures { result ≡ start_of listed }
{
    match listed {
        Ok(_) => 0,
        Err(_) => TOO_MANY,
    }
}

// An answer, and how many lines the sections have that promise something; what is said of a refused text means nothing.
#[derive(Clone, Copy)]
pub struct Counted {
    pub answer: Answer,
    pub lines: LineCounts,
}

fn uncounted(refusal: Refusal) -> Counted
    ensures { result.answer ≡ Err refusal }
{
    Counted {
        answer: Err(refusal),
        lines: no_lines(),
    }
}

// A text whose names are worked out: how many entries it has, what INFO says, its ports, how many they are and how many of them inputs, and its signals, in a list
// unless there are too many.
#[derive(Clone, Copy)]
struct Named {
    entries: usize,
    facts: Facts,
    ports: Ports,
    count: usize,
    ins: usize,
    listed: Result<usize, TooMany>,
    list: [u32; MAX_SIGNALS],
}

// The lines of a text whose names are worked out, and what follows them.
fn expand_declared(
    source: &Source,
    memory: &mut [u32],
    table: &mut [u32; MAX_NODES],
    named: Named,
    nodes: &mut [u32],
    signals: &mut [u32],
) -> Counted
    requires some_ready { SomeReady source.now.text.now source.now.work.now source.now.refs.now memory.old table.old named }
    requires sized { Sized source.now.work.now source.now.refs.now memory.old named }
    ensures { (x : Spec) (d : Declarations) → Ready source.now.text.now source.now.work.now source.now.refs.now memory.old table.old named x d
        → Finishes x d nodes.old signals.old nodes.new signals.new result }
{
    let mut lines = [0u32; MAX_NODES];
    let listed = named.listed;
    let from = start(listed);
    let plan = Plan {
        entries: named.entries,
        ins: named.ins,
        count: named.count,
        start: from,
    };
    let ports = named.ports;
    let gathering = gather(source, memory, table, &mut lines, ports, plan);
    let ends = match gathering {
        Ok(ends) => ends,
        Err(refusal) => return uncounted(refusal),
    };
    let counts = count_lines(&lines, ends.count);
    let list = named.list;
    let a = finish(
        named.facts,
        listed,
        &lines,
        ends,
        table,
        &list,
        nodes,
        signals,
    );
    Counted {
        answer: a,
        lines: counts,
    }
}

// A checked tree: how many entries and names it has, and what INFO says.
#[derive(Clone, Copy)]
pub struct CheckedTree {
    pub entries: usize,
    pub names: usize,
    pub facts: Facts,
}

// The declarations of a checked tree, and what follows them: refusals 11 to 18.
pub fn expand_checked_in(
    source: &Source,
    found: &[u16],
    memory: &mut [u32],
    tree: CheckedTree,
    nodes: &mut [u32],
    signals: &mut [u32],
) -> Counted
    requires some_parsed { SomeParsed source.now.text.now source.now.work.now source.now.refs.now found.now tree }
    requires roomy { Roomy memory.old tree.entries }
    ensures { Expands source.now.text.now source.now.work.now source.now.refs.now found.now tree nodes.old signals.old nodes.new signals.new result }
{
    let mut table = [0u32; MAX_NODES];
    let mut list = [0u32; MAX_SIGNALS];
    let counts = Counts {
        entries: tree.entries,
        names: tree.names,
    };
    let declared = declare(source, found, counts, memory, &mut table, &mut list);
    let d = match declared {
        Ok(d) => d,
        Err(refusal) => return uncounted(refusal),
    };
    let order = d.order;
    let enumerations = d.enumerations;
    let firsts = d.firsts;
    let ports = Ports {
        order,
        enumerations,
        firsts,
    };
    let named = Named {
        entries: tree.entries,
        facts: tree.facts,
        ports,
        count: d.count,
        ins: d.ins,
        listed: d.listed,
        list,
    };
    expand_declared(source, memory, &mut table, named, nodes, signals)
}
