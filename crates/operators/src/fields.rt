// The fields of the words of Table 1's rows (specs/Fields).
ghost use Rattle.std.specs.Prelude.{◌≡◌};
ghost use Rattle.operators.specs.Fields.{fields as fields'};

use crate::{infixes, prefixes};

// The lowest field of each row is its level: how many numbers there are for one.
pub const LEVELS: u32 = 32;

// A list of constants of its own, like `codes` of crate types: no twin.
// What the constants stand for.
pub fn fields() -> [u32; 13]
    ensures { result ≡ fields' }
{
    [
        LEVELS,
        infixes::RIGHT,
        infixes::KIND,
        infixes::CODE,
        prefixes::ROLE,
        prefixes::SOLE,
        prefixes::WINDOW,
        prefixes::CODE,
        prefixes::ROLES,
        prefixes::PLAIN,
        prefixes::COUNTED,
        prefixes::WINDOWED,
        prefixes::FOLDING,
    ]
}
