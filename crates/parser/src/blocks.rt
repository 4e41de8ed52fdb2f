// Subsections of lines, and GLOBAL.
ghost use Rattle.std.specs.Prelude.{◌<◌, length};
ghost use Rattle.language.specs.Grammar.{rest};
ghost use Rattle.language.specs.Sections.{lines_of, block_of};
ghost use Rattle.entries.specs.Flat.{each};
ghost use Rattle.entries.specs.Cursors.{Readied};
ghost use Rattle.entries.specs.Reads.{Parses};
ghost use Rattle.parser.specs.Parts.{globals_of, flat_globals};
ghost use Rattle.parser.specs.Lines.{line_of, flat_of, ReadsOptional};

use super::Line;
use super::lines::line;
use entries::{Cursor, Parse};
use lexer::numbers;

// Lines with `;` between them, from the `{` before them up to and with `}`: 'A last `;` may be missing'.
fn lines(c: Cursor, work: &mut [u8], which: Line) -> Parse
    requires { Readied work.old c × (c.at < c.count) }
    ensures { Parses (λ ts. lines_of (length (rest ts)) (line_of which) (rest ts)) (each (flat_of which)) work.old work.new c result }
{
    let mut d = c;
    // A line at a time, up to a token.
    loop {
        let e = d.next();
        if e.number(work) == numbers::CLOSE_BRACE {
            return Ok(e.next());
        }
        let f = line(d, work, which)?;
        if f.number(work) != numbers::SEMICOLON {
            return f.expect(work, numbers::CLOSE_BRACE);
        }
        d = f;
    }
}

// A subsection after its word.
pub fn block(c: Cursor, work: &mut [u8], which: Line) -> Parse
    requires { Readied work.old c }
    ensures { Parses (block_of (line_of which)) (each (flat_of which)) work.old work.new c result }
{
    if c.number(work) != numbers::OPEN_BRACE {
        return c.refuse(work);
    }
    lines(c, work, which)
}

// A subsection if its word stands there.
fn optional(c: Cursor, work: &mut [u8], word: u32, which: Line) -> Parse
    requires { Readied work.old c × (0 < word) }
    ensures { ReadsOptional word which work.old work.new c result }
{
    if c.number(work) != word {
        return Ok(c);
    }
    block(c.next(), work, which)
}

// GLOBAL, or nothing.
pub fn global(c: Cursor, work: &mut [u8]) -> Parse
    requires { Readied work.old c }
    ensures { Parses globals_of flat_globals work.old work.new c result }
{
    if c.number(work) != numbers::GLOBAL {
        return Ok(c);
    }
    let d = c.next().expect(work, numbers::OPEN_BRACE)?;
    let e = optional(d, work, numbers::PARAMETERS, Line::Parameters)?;
    let f = optional(e, work, numbers::DEFINITIONS, Line::Definitions)?;
    f.expect(work, numbers::CLOSE_BRACE)
}
