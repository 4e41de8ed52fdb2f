// From a text's bytes to its checked tree: refusals 1 to 10, or the tree in the work buffer with what each of its names refers to.
// `check` asks for a work buffer and tables of full length; `read` refuses a shorter buffer (17) and lends the tables.
#![tactic(auto)]

ghost use Rattle.std.specs.Prelude.{◌≤◌, length};
ghost use Rattle.language.specs.Limits.{max_tokens, max_names, work_bytes};
ghost use Rattle.language.specs.Tree.{Spec};
ghost use Rattle.names.specs.Resolved.{Stored, TreeStored};
ghost use Rattle.checked.specs.Checking.{Forms, Checks};

use depth::too_deep;
use enumerations::wrong_words;
use names::resolve;
use node::{Refusal, refusals};
use outline::outlined;
use parser::Facts;
use types::wrong_type;

// How many tokens, entries and declared names a text has.
#[derive(Clone, Copy)]
pub struct Counts {
    pub tokens: usize,
    pub entries: usize,
    pub names: usize,
}

// An accepted text's counts and what its INFO says.
#[derive(Clone, Copy)]
pub struct Checked {
    pub counts: Counts,
    pub facts: Facts,
}

// Refusals 5 to 10 of a stored tree, 'each over the whole text, first place first'; or the number of its declared names, which are then resolved. It is
// not made part of its caller, whose frame would hold the arrays of the stages while the text is expanded.
#[inline(never)]
fn formed(
    text: &[u8],
    work: &[u8],
    tokens: usize,
    entries: usize,
    refs: &mut [u16],
    found: &mut [u16],
) -> Result<usize, Refusal>
    requires { TreeStored text.now work.now tokens entries × (max_tokens ≤ length refs.old) × (max_names ≤ length found.old) }
    ensures { (x : Spec) → Stored text.now work.now tokens entries x → Forms x refs.new found.new result }
{
    if let Some(place) = too_deep(work, entries) {
        return Err(Refusal {
            number: refusals::TOO_DEEP,
            place,
        });
    }
    let names = resolve(text, work, tokens, entries, refs, found)?;
    if let Some(place) = wrong_type(work, refs, entries) {
        return Err(Refusal {
            number: refusals::WRONG_TYPE,
            place,
        });
    }
    if let Some(place) = wrong_words(text, work, entries) {
        return Err(Refusal {
            number: refusals::WRONG_WORDS,
            place,
        });
    }
    Ok(names)
}

// A text's checked tree. An inner stage: the reader has tested the length of the work buffer (refusal 17), and lends arrays for what names refer to and for the
// entries of the declared names.
pub fn check(
    text: &[u8],
    work: &mut [u8],
    refs: &mut [u16],
    found: &mut [u16],
) -> Result<Checked, Refusal>
    requires { (work_bytes ≤ length work.old) × (max_tokens ≤ length refs.old) × (max_names ≤ length found.old) }
    ensures { Checks text.now work.old work.new refs.new found.new result }
{
    let outline = outlined(text, work)?;
    let names = formed(text, work, outline.tokens, outline.entries, refs, found)?;
    Ok(Checked {
        counts: Counts {
            tokens: outline.tokens,
            entries: outline.entries,
            names,
        },
        facts: outline.facts,
    })
}
