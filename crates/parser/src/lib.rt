// The parser: a text's tokens to its outline, the entries of its tree (refusal 4).
// `parse` asks for stored tokens, as `lex` leaves them; its parts ask for a cursor on them.
#![tactic(auto)]

mod blocks;
mod enumeration;
mod info;
mod leaves;
mod lines;
mod subsections;

ghost use Rattle.std.specs.Prelude.{◌≡◌};
ghost use Rattle.entries.specs.Cursors.{Fits, Readied};
ghost use Rattle.entries.specs.Reads.{Parses};
ghost use Rattle.parser.specs.Outlines.{ReadsInformation, sections_of, flat_sections, Lexed, Outlines, ended};

use blocks::global;
use entries::{Cursor, Parse};
use info::{closing, model, to_semantics, to_target};
use lexer::numbers;
use node::Refusal;
use subsections::subsections;

// What the lines of a subsection are.
#[derive(Clone, Copy)]
pub enum Line {
    Parameters,
    Definitions,
    Declarations,
    Formulas,
}

// What INFO says: models are 0 for Mealy and 1 for Moore; the place is that of the target's word.
#[derive(Clone, Copy)]
pub struct Facts {
    pub semantics: u32,
    pub strict: bool,
    pub target: u32,
    pub place: u32,
}

// An accepted text's number of entries and what its INFO says.
#[derive(Clone, Copy)]
pub struct Outline {
    pub entries: usize,
    pub facts: Facts,
}

// INFO after its word: what it says, and where the parser stands behind it.
fn information(c: Cursor, work: &[u8]) -> Result<(Facts, Cursor), Refusal>
    requires { Readied work.now c }
    ensures { ReadsInformation work.now c result }
{
    let d = to_semantics(c, work)?;
    let semantics = d.number(work);
    let e = model(d, work)?;
    let strict = e.number(work) == numbers::COMMA;
    let f = to_target(e, work)?;
    let target = f.number(work);
    let place = f.place(work);
    let g = closing(f, work)?;
    let facts = Facts {
        semantics: semantics - numbers::MEALY,
        strict,
        target: target - numbers::MEALY,
        place,
    };
    Ok((facts, g))
}

// GLOBAL and MAIN.
fn sections(c: Cursor, work: &mut [u8]) -> Parse
    requires { Readied work.old c }
    ensures { Parses sections_of flat_sections work.old work.new c result }
{
    let d = global(c, work)?;
    let e = d.expect(work, numbers::MAIN)?;
    let f = e.expect(work, numbers::OPEN_BRACE)?;
    subsections(f, work)
}

// The text's end must stand here.
fn ended(c: Cursor, work: &[u8]) -> Parse
    requires { Fits work.now c }
    ensures { result ≡ ended work.now c }
{
    if c.number(work) == 0 {
        return Ok(c);
    }
    c.refuse(work)
}

// The outline of the tokens that stand in the first words of the buffer, `count` of them; the text has `end` bytes. The lexer has put them there.
pub fn parse(work: &mut [u8], count: usize, end: usize) -> Result<Outline, Refusal>
    requires { Lexed work.old count end }
    ensures { Outlines work.old work.new count end result }
{
    let start = Cursor {
        at: 0,
        out: 0,
        count,
        end,
    };
    let c = start.expect(work, numbers::INFO)?;
    let (facts, d) = information(c, work)?;
    let e = sections(d, work)?;
    let f = ended(e, work)?;
    Ok(Outline {
        entries: f.out,
        facts,
    })
}
