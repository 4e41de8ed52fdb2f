// The forms of a formula (document 01, section Forms) in definitions, and their laws: see specs/. In code, the forms by their numbers.
#![tactic(auto)]

ghost use Rattle.std.specs.Prelude.{◌≡◌};
ghost use Rattle.forms.specs.Forms.{form_numbers};

// Numbers and no enum: C hands the form over as one, of which any but these three is refused (21).
pub const AS_EXPANDED: u32 = 0;

pub const NEGATION_FORM: u32 = 1;

pub const CORE_FORM: u32 = 2;

// What these constants stand for.
pub fn numbers() -> [u32; 3]
    ensures { result ≡ form_numbers }
{
    [AS_EXPANDED, NEGATION_FORM, CORE_FORM]
}
