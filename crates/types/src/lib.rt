// Refusal 9 over the stored tree: 'operand, width, declaring type or a line's expression of a wrong type'. One pass, with a stack of the operands' types and starts.
// An inner stage: `wrong_type` asks for a work buffer of full length, which the reader has tested (17), and for as many entries as the parser counted.
#![tactic(auto)]

mod codes;
mod table;

ghost use Rattle.std.specs.Prelude.{◌≡◌, ◌≤◌, ◌<◌, length};
ghost use Rattle.language.specs.Limits.{max_tokens, work_bytes};
ghost use Rattle.types.specs.Cells.{named_cell};
ghost use Rattle.types.specs.Kinds.{place_of};
ghost use Rattle.types.specs.Running.{WrongType};
ghost use Rattle.types.specs.Progress.{Sized, Passes};

use crate::codes::{gives_of, indexed, wrong_at};
use crate::table::{declare_all, define, named_cell, type_at};
use entries::kinds::LINES;
use language::limits;
use lexer::fields::OFFSETS;
use traversal::{Progress, first, first_of, operand_count, start_of};

fn place_of(word: u32) -> u32
    ensures { result ≡ place_of word }
{
    word % OFFSETS
}

// One entry.
fn pass(
    work: &[u8],
    refs: &[u16],
    i: usize,
    p: Progress,
    types: &mut [u32],
    starts: &mut [u32],
    table: &mut [u32],
) -> Progress
    requires { Sized work.now i p types.old starts.old table.old × (i < max_tokens) × (max_tokens ≤ length refs.now) }
    ensures { Passes work.now i (named_cell refs.now work.now i) p result types.old starts.old table.old types.new
        starts.new table.new }
{
    let c = named_cell(work, refs, i);
    let kind = c.kind;
    let token = c.token;
    let top = p.top;
    let below = top.saturating_sub(operand_count(p.before, c));
    let name = type_at(table, token);
    let place = place_of(token);
    let operand = first_of(types, below, top);
    let start = first_of(starts, below, top);
    let unbound = indexed(kind, name, place);
    let wrong = first(unbound, wrong_at(kind, types, starts, below, top));
    let found = first(p.found, wrong);
    define(table, kind, token, operand);
    if kind < LINES {
        types[below] = gives_of(kind, name, operand);
        starts[below] = start_of(kind, place, start);
        return Progress {
            before: kind,
            top: below + 1,
            found,
        };
    }
    Progress {
        before: kind,
        top: below,
        found,
    }
}

// The first place of refusal 9, if there is one; `refs` has the reference of each entry's name.
pub fn wrong_type(work: &[u8], refs: &[u16], entries: usize) -> Option<u32>
    requires { (work_bytes ≤ length work.now) × (entries ≤ max_tokens) × (max_tokens ≤ length refs.now) }
    ensures { WrongType refs.now work.now entries result }
{
    let mut types = [0u32; limits::MAX_TOKENS];
    let mut starts = [0u32; limits::MAX_TOKENS];
    let mut table = [0u32; limits::MAX_NAMES];
    declare_all(work, refs, entries, &mut table);
    let mut p = Progress {
        before: 0,
        top: 0,
        found: None,
    };
    for i in 0..entries {
        p = pass(work, refs, i, p, &mut types, &mut starts, &mut table);
    }
    p.found
}
