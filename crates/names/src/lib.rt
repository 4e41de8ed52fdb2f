// Names over the stored tree: refusals 6, 7 and 8, and each name resolved once.
// `resolve` and its parts ask for a stored outline and for arrays of full length, which `resolve` itself makes: the tree of spellings and the numbers of names; tables
// that hold no place, for declared names, for visible names and for what names refer to; and the open names of big operators.
#![tactic(auto)]

mod census;
mod declare;
mod entry;
mod numbering;
mod walk;

ghost use Rattle.std.specs.Prelude.{◌≡◌, ◌≤◌, min, length, unwrap_or};
ghost use Rattle.language.specs.Limits.{max_tokens, max_names};
ghost use Rattle.language.specs.Tree.{Spec};
ghost use Rattle.names.specs.Answering.{answer_of};
ghost use Rattle.names.specs.Short.{Fits, constants as constants'};
ghost use Rattle.names.specs.Resolved.{Stored, TreeStored, Answers};

use crate::census::{Census, declare_all};
use crate::declare::{NO_PLACE, NOWHERE};
use crate::walk::{Walk, walk_all};
use language::limits;
use node::{Refusal, refusals};
use spellings::intern::intern;

// The empty spelling, and one node for each byte of the longest text; three links of each; and three words for each name that is open.
const NODES: usize = limits::MAX_BYTES + 1;

const LINKS: usize = 3 * NODES;

const OPEN: usize = 3 * limits::MAX_TOKENS;

// A short text: at most 4,096 of 32,768 bytes and 1,024 of 8,192 entries (specs/Short), so that arrays an eighth as long as those of the longest will do: most of
// the time of the shortest would go into clearing the others.
const SHORT: usize = 4096;

const SHORT_NODES: usize = SHORT + 1;

const SHORT_LINKS: usize = 3 * SHORT_NODES;

const SHORT_ENTRIES: usize = 1024;

const SHORT_OPEN: usize = 3 * SHORT_ENTRIES;

// What the constants stand for.
pub fn constants() -> [usize; 5]
    ensures { result ≡ constants' }
{
    [
        NODES,
        SHORT,
        SHORT_ENTRIES,
        NO_PLACE as usize,
        NOWHERE as usize,
    ]
}

// How many names are declared, or the first refusal.
fn answer(census: Census, walk: Walk) -> Result<usize, Refusal>
    ensures { result ≡ answer_of walk.hidden (min census.again walk.again) census.tally.count (unwrap_or census.tally.place 0) }
{
    if walk.hidden < NOWHERE {
        return Err(Refusal {
            number: refusals::NOT_VISIBLE,
            place: walk.hidden,
        });
    }
    let again = census.again.min(walk.again);
    if again < NOWHERE {
        return Err(Refusal {
            number: refusals::DECLARED_AGAIN,
            place: again,
        });
    }
    if let Some(place) = census.tally.place {
        return Err(Refusal {
            number: refusals::TOO_MANY_NAMES,
            place,
        });
    }
    Ok(census.tally.count)
}

// `resolve` with arrays for so many nodes, their links, and so many words for open names.
fn resolve_with<const NODES: usize, const LINKS: usize, const OPEN: usize>(
    text: &[u8],
    work: &[u8],
    count: usize,
    entries: usize,
    refs: &mut [u16],
    found: &mut [u16],
) -> Result<usize, Refusal>
    requires { Fits text.now work.now count entries NODES LINKS OPEN × (max_tokens ≤ length refs.old) × (max_names ≤ length found.old) }
    ensures { (x : Spec) → Stored text.now work.now count entries x → Answers x refs.new found.new result }
{
    let mut links = [0u16; LINKS];
    let mut byte = [0u8; NODES];
    let mut ids = [0u16; limits::MAX_TOKENS];
    let mut met = [NO_PLACE; NODES];
    let mut seen = [NO_PLACE; NODES];
    let mut table = [NO_PLACE; NODES];
    let mut stack = [0u16; OPEN];
    intern(text, work, count, &mut links, &mut byte, &mut ids);
    let census = declare_all(work, &ids, entries, &mut met, &mut seen, &mut table, found);
    let walk = walk_all(work, &ids, entries, &mut seen, &mut table, &mut stack, refs);
    answer(census, walk)
}

// Refusals 6, 7 and 8 of a stored tree; or, of a tree that they let pass, what each of its names refers to: `refs` by entry, for every entry that uses, brings or
// declares a name, and `found` the entry of each declared name by its number. The work buffer is read only. This is a stage of the reader and no entry point: it
// asks for what the parser leaves, which the reader has at hand.
pub fn resolve(
    text: &[u8],
    work: &[u8],
    count: usize,
    entries: usize,
    refs: &mut [u16],
    found: &mut [u16],
) -> Result<usize, Refusal>
    requires { TreeStored text.now work.now count entries × (max_tokens ≤ length refs.old) × (max_names ≤ length found.old) }
    ensures { (x : Spec) → Stored text.now work.now count entries x → Answers x refs.new found.new result }
{
    if text.len() <= SHORT && entries <= SHORT_ENTRIES {
        return resolve_with::<SHORT_NODES, SHORT_LINKS, SHORT_OPEN>(
            text, work, count, entries, refs, found,
        );
    }
    resolve_with::<NODES, LINKS, OPEN>(text, work, count, entries, refs, found)
}
