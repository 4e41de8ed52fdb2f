// The models of INFO by number (specs/Models), as the code hands them on.
ghost use Rattle.std.specs.Prelude.{◌≡◌};
ghost use Rattle.language.specs.Models.{model_codes};

pub const MEALY: u32 = 0;

pub const MOORE: u32 = 1;

// What these constants stand for.
pub fn models() -> [u32; 2]
    ensures { result ≡ model_codes }
{
    [MEALY, MOORE]
}
