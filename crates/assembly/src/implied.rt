// The implied lines: 'A bus declared by an enumeration that leaves some word unnamed adds ..' (document 01, 'Expansion').
ghost use Rattle.std.specs.Prelude.{List, ◌∷◌, []};
ghost use Rattle.language.specs.DeclaredNames.{Port};
ghost use Rattle.assembly.specs.Implied.{Bus, Buses, BusReady, Ready, AddsAll, implied_formulas};

use crate::add_line;
use choices::coverage::leaves_unnamed;
use choices::{identifiers_end, one_of};
use language::limits;
use node::MAX_NODES;

// Where the table's next node goes, and how many lines there are.
#[derive(Clone, Copy)]
pub struct Ends {
    pub at: usize,
    pub count: usize,
}

// The line of one bus, if it adds one: the entry of its enumeration, and the number of its first signal.
fn imply(
    part: u32,
    text: &[u8],
    work: &[u8],
    enumeration: usize,
    first: u32,
    e: Ends,
    table: &mut [u32; MAX_NODES],
    lines: &mut [u32],
) -> Ends
    requires { BusReady part text.now work.now enumeration first e table.old lines.old }
    ensures { (ps : List Port) (q : Port) → Bus text.now work.now enumeration first e.at ps q
        → AddsAll part e table.old lines.old table.new lines.new result (implied_formulas ps (q ∷ [])) }
{
    let from = enumeration + 1;
    let to = identifiers_end(work, enumeration);
    if !leaves_unnamed(text, work, from, to) {
        return e;
    }
    let at = e.at;
    let next = one_of(text, work, from, to, first, table, at);
    let count = add_line(part, at, next, lines, e.count);
    Ends { at: next, count }
}

// The ports by their positions in signal order: the numbers of their names, and the entries of their enumerations, no entry for a port that has none. By the number of
// a name, that of its first signal.
#[derive(Clone, Copy)]
pub struct Ports {
    pub order: [u16; limits::MAX_NAMES],
    pub enumerations: [u16; limits::MAX_NAMES],
    pub firsts: [u32; limits::MAX_NAMES],
}

// The ports at the positions [from, to), whose lines go to one part.
#[derive(Clone, Copy)]
pub struct Span {
    pub part: u32,
    pub from: usize,
    pub to: usize,
}

// The lines of the ports of a span.
pub fn implied(
    text: &[u8],
    work: &[u8],
    ports: Ports,
    span: Span,
    e: Ends,
    table: &mut [u32; MAX_NODES],
    lines: &mut [u32],
) -> Ends
    requires { Ready text.now work.now ports span e table.old lines.old }
    ensures { (ps qs : List Port) → Buses text.now work.now ports ps e.at span.from span.to qs
        → AddsAll span.part e table.old lines.old table.new lines.new result (implied_formulas ps qs) }
{
    let mut r = e;
    for j in span.from..span.to {
        let enumeration = usize::from(ports.enumerations[j]);
        if enumeration < limits::MAX_TOKENS {
            let name = usize::from(ports.order[j]);
            let first = ports.firsts[name];
            r = imply(span.part, text, work, enumeration, first, r, table, lines);
        }
    }
    r
}
