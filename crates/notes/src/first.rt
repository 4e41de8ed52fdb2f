// The notes of all declared names before any of them has had its turn.
ghost use Rattle.std.specs.Prelude.{List, [], ℕ, ◌<◌, ◌≤◌, length};
ghost use Rattle.language.specs.Limits.{max_tokens, max_names};
ghost use Rattle.language.specs.Tokens.{tokens};
ghost use Rattle.language.specs.Tree.{Spec};
ghost use Rattle.names.specs.Resolved.{Stored, Resolved};
ghost use Rattle.name_values.specs.Worked.{world_in};
ghost use Rattle.notes.specs.Notes.{Notes};
ghost use Rattle.notes.specs.FirstTable.{first_table};
ghost use Rattle.notes.specs.Noting.{Sorted, NotesGiven, NoteIs};

use crate::Note;
use crate::choose::entry_word;
use entries::fields::{SIZES, TOKENS};
use entries::kinds;
use language::limits;
use name_values::sorts;

// The note of the name that entry k, of this kind, declares. The entry is one of the buffer's.
fn note_of(kind: u32, k: usize) -> Note
    requires { k < max_tokens }
    ensures { Sorted kind k result.sort result.number }
{
    match kind {
        kinds::DEFINITION => Note {
            sort: sorts::BODY,
            number: k.saturating_sub(1) as u32,
        },
        kinds::IDENTIFIER => Note {
            sort: sorts::IDENTIFIER,
            number: k as u32,
        },
        kinds::SIGNAL => Note {
            sort: sorts::SIGNAL,
            number: 0,
        },
        kinds::BUS | kinds::TYPED => Note {
            sort: sorts::BUS,
            number: 0,
        },
        _ => Note {
            sort: sorts::NOTHING,
            number: 0,
        },
    }
}

// The note of the name r: it has none past the last name.
fn first_note(work: &[u8], found: &[u16], names: usize, r: usize) -> Note
    requires { NotesGiven work.now found.now names × (r < max_names) }
    ensures { (text refs : List ℕ) (count entries : ℕ) (x : Spec) → Stored text work.now count entries x → Resolved x refs found.now names
        → NoteIs x text work.now r result.sort result.number }
{
    if r >= names {
        return Note {
            sort: sorts::NOTHING,
            number: 0,
        };
    }
    let k = usize::from(found[r]);
    let kind = entry_word(work, k) / SIZES / TOKENS;
    note_of(kind, k)
}

// The notes of all names. It asks for a tree that is stored and whose names are resolved.
pub fn note_names(work: &[u8], found: &[u16], names: usize, sorts: &mut [u8], numbers: &mut [u32])
    requires { NotesGiven work.now found.now names × ((max_names ≤ length sorts.old) × (max_names ≤ length numbers.old)) }
    ensures { (text refs : List ℕ) (count entries : ℕ) (x : Spec) → Stored text work.now count entries x → Resolved x refs found.now names
        → Notes (tokens text) work.now (world_in x [] (first_table x)) sorts.new numbers.new }
{
    for r in 0..limits::MAX_NAMES {
        let note = first_note(work, found, names, r);
        sorts[r] = note.sort;
        numbers[r] = note.number;
    }
}
