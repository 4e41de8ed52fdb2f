// The numbers of MAIN's subsections (specs/Headings).
ghost use Rattle.std.specs.Prelude.{◌≡◌};
ghost use Rattle.entries.specs.Headings.{headings as headings'};

// Numbers and no enum: an entry's word in the work buffer holds them, and Headings states them.
pub const INPUTS: u32 = 0;

pub const OUTPUTS: u32 = 1;

// The first part's; the others have theirs behind it.
pub const FIRST_PART: u32 = 2;

// How many there are; no subsection has this number.
pub const NO_HEADING: u32 = 8;

// What the constants stand for.
pub fn headings() -> [u32; 4]
    ensures { result ≡ headings' }
{
    [INPUTS, OUTPUTS, FIRST_PART, NO_HEADING]
}
