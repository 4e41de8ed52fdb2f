// What a stored entry says, and what it does to names (specs/Roles).
ghost use Rattle.std.specs.Prelude.{◌≡◌, ◌≤◌, ◌<◌, length};
ghost use Rattle.language.specs.Limits.{max_tokens, work_bytes};
ghost use Rattle.names.specs.Roles as Roles;
ghost use Rattle.names.specs.OwnName.{OwnName};

use entries::fields::token_at;
use entries::kinds;
use lexer::fields::place_at;

// An entry's name: where it stands in the text, and the number of its spelling.
#[derive(Clone, Copy)]
pub struct Name {
    pub at: u32,
    pub id: usize,
}

// The name of entry k, which has one. It is called with entries that are there.
pub fn name_at(work: &[u8], ids: &[u16], k: usize) -> Name
    requires { (k < max_tokens) × (work_bytes ≤ length work.now) × (max_tokens ≤ length ids.now) }
    ensures { OwnName work.now ids.now k result.at result.id }
{
    let j = token_at(work, k);
    Name {
        at: place_at(work, j),
        id: usize::from(ids[j]),
    }
}

pub fn uses(kind: u32) -> bool
    ensures { result ≡ Roles.uses kind }
{
    kind == kinds::NAMED || kind == kinds::INDEX
}

pub fn binds(kind: u32) -> bool
    ensures { result ≡ Roles.binds kind }
{
    kind == kinds::BINDER || kind == kinds::FURTHER_BINDER
}

pub fn ends(kind: u32) -> bool
    ensures { result ≡ Roles.ends kind }
{
    kind >= kinds::BIG_NUMBERS && kind <= kinds::BIG_FORMULAS
}

pub fn declares(low: u32, kind: u32) -> bool
    ensures { result ≡ Roles.declares low kind }
{
    if kind < low {
        return false;
    }
    if kind == kinds::WORD {
        return false;
    }
    kind <= kinds::TYPED
}
