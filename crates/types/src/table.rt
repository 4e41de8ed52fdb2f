// The types of declared names by their references. The functions are the pass's own: it has bounded what they ask for.
ghost use Rattle.std.specs.Prelude.{◌≡◌, ◌≤◌, ◌<◌, length, get_or};
ghost use Rattle.language.specs.Limits.{max_tokens, max_names, work_bytes};
ghost use Rattle.entries.specs.Kinds as Kind;
ghost use Rattle.traversal.specs.Passed.{passed};
ghost use Rattle.types.specs.Cells.{named_cell};
ghost use Rattle.types.specs.Kinds.{reference_of, type_at};
ghost use Rattle.types.specs.Pass.{table_of};
ghost use Rattle.types.specs.Declaring.{declaring, declare as declare'};

use crate::codes::{BUS, ENUMERATION, FORMULA, NUMBER, UNDECLARED, VALUE};
use entries::kinds;
use language::limits;
use lexer::fields::{LENGTHS, OFFSETS};
use traversal::{Cell, cell_at};

// The type of the name that an entry declares, by its kind.
fn declared(kind: u32) -> u32
    requires { kind < Kind.limit }
    ensures { result ≡ get_or declaring kind 0 }
{
    if kind < kinds::PARAMETER {
        UNDECLARED
    } else if kind < kinds::DEFINITION {
        NUMBER
    } else if kind < kinds::ENUMERATION {
        UNDECLARED
    } else if kind < kinds::IDENTIFIER {
        ENUMERATION
    } else if kind < kinds::WORD {
        VALUE
    } else if kind < kinds::SIGNAL {
        UNDECLARED
    } else if kind < kinds::BUS {
        FORMULA
    } else if kind < kinds::LINE {
        BUS
    } else {
        UNDECLARED
    }
}

// An entry with the reference of its name above the place of its token.
pub fn named_cell(work: &[u8], refs: &[u16], i: usize) -> Cell
    requires { (work_bytes ≤ length work.now) × (i < max_tokens) × (max_tokens ≤ length refs.now) }
    ensures { (result ≡ named_cell refs.now work.now i) × (result.kind < Kind.limit) }
{
    let c = cell_at(work, i);
    let reference = u32::from(refs[i]);
    Cell {
        kind: c.kind,
        token: reference * OFFSETS + c.token / LENGTHS % OFFSETS,
        size: c.size,
    }
}

// The type of a name: of a declared one from the table, of a big operator's a number.
pub fn type_at(table: &[u32], word: u32) -> u32
    requires { length table.now ≡ max_names }
    ensures { result ≡ type_at table.now (reference_of word) }
{
    let reference = (word / OFFSETS) as usize;
    if reference < limits::MAX_NAMES {
        table[reference]
    } else {
        NUMBER
    }
}

// Puts down the type of a name; of a definition's line that of its expression.
pub fn define(table: &mut [u32], kind: u32, word: u32, operand: u32)
    requires { length table.old ≡ max_names }
    ensures { table.new ≡ table_of table.old kind word operand }
{
    if kind == kinds::DEFINITION {
        let reference = (word / OFFSETS) as usize;
        if reference < limits::MAX_NAMES {
            table[reference] = operand;
        }
    }
}

// Puts down the type of the name that an entry declares.
fn declare(c: Cell, table: &mut [u32])
    requires { (c.kind < Kind.limit) × (length table.old ≡ max_names) }
    ensures { table.new ≡ declare' c table.old }
{
    let own = declared(c.kind);
    if own == UNDECLARED {
        return;
    }
    let reference = (c.token / OFFSETS) as usize;
    if reference < limits::MAX_NAMES {
        table[reference] = own;
    }
}

// Puts down the types of all names that the entries declare, but definitions'.
pub fn declare_all(work: &[u8], refs: &[u16], entries: usize, table: &mut [u32])
    requires { (work_bytes ≤ length work.now) × (entries ≤ max_tokens) × (length table.old ≡ max_names) × (max_tokens ≤ length refs.now) }
    ensures { table.new ≡ passed declare' (named_cell refs.now work.now) table.old entries }
{
    for i in 0..entries {
        declare(named_cell(work, refs, i), table);
    }
}
