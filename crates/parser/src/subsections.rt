// MAIN's subsections, in any order, each at most once.
ghost use Rattle.std.specs.Prelude.{[], ◌≡◌, ◌<◌};
ghost use Rattle.language.specs.Sections.{subsections_of};
ghost use Rattle.entries.specs.Headings.{no_heading};
ghost use Rattle.entries.specs.Flat.{each, flat_subsection};
ghost use Rattle.entries.specs.Cursors.{Readied};
ghost use Rattle.entries.specs.Reads.{Parses};
ghost use Rattle.parser.specs.Headings.{heading_number, ReadsSubsection, ReadsEnd};

use super::Line;
use super::blocks::block;
use entries::{Cursor, Parse, headings, kinds};
use lexer::numbers;

// For each word of a subsection, by its number, the subsection: 'the v1.0 names are read as their v1.1 ones'.
const HEADINGS: [usize; 11] = [0, 1, 2, 3, 4, 5, 6, 7, 5, 6, 7];

// Subsections that hold declarations come first.
const FIRST_FORMULAS: usize = headings::FIRST_PART as usize;

const NO_HEADING: usize = headings::NO_HEADING as usize;

// The subsection whose word has the number.
fn heading(number: u32) -> usize
    ensures { result ≡ heading_number number }
{
    if number < numbers::INPUTS {
        return NO_HEADING;
    }
    let i = (number - numbers::INPUTS) as usize;
    if i < 11 { HEADINGS[i] } else { NO_HEADING }
}

// Subsection n, from its word on.
fn subsection(c: Cursor, work: &mut [u8], n: usize) -> Parse
    requires { Readied work.old c × (c.at < c.count) × (n < no_heading) }
    ensures { ReadsSubsection n work.old work.new c result }
{
    let d = c.next().emit(work, kinds::HEADING, 0, n);
    if n < FIRST_FORMULAS {
        return block(d, work, Line::Declarations);
    }
    block(d, work, Line::Formulas)
}

// The end of MAIN: INPUTS and OUTPUTS must have stood.
fn ending(c: Cursor, work: &[u8], inputs: u8, outputs: u8) -> Parse
    requires { Readied work.now c }
    ensures { ReadsEnd inputs outputs work.now c result }
{
    if inputs == 0 {
        return c.refuse(work);
    }
    if outputs == 0 {
        return c.refuse(work);
    }
    c.expect(work, numbers::CLOSE_BRACE)
}

pub fn subsections(c: Cursor, work: &mut [u8]) -> Parse
    requires { Readied work.old c }
    ensures { Parses (subsections_of 9 []) (each flat_subsection) work.old work.new c result }
{
    let mut before = [0u8; NO_HEADING];
    let mut d = c;
    // A subsection at a time, up to a token.
    loop {
        let n = heading(d.number(work));
        if n == NO_HEADING {
            return ending(d, work, before[0], before[1]);
        }
        if before[n] != 0 {
            return ending(d, work, before[0], before[1]);
        }
        let e = subsection(d, work, n)?;
        before[n] = 1;
        d = e;
    }
}
