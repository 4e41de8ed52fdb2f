// Enumerations: identifiers with their words.
ghost use Rattle.std.specs.Prelude.{length};
ghost use Rattle.language.specs.Sections.{words_of, identifiers_of, enumeration_of};
ghost use Rattle.entries.specs.Flat.{each, flat_identifier, flat_definition};
ghost use Rattle.entries.specs.Cursors.{Readied};
ghost use Rattle.entries.specs.Reads.{Parses};
ghost use Rattle.parser.specs.Parts.{identifier_of, flat_word};

use super::leaves::leaf;
use entries::{Cursor, Parse, kinds};
use lexer::numbers;

// The words of an identifier, with commas between them.
fn words(c: Cursor, work: &mut [u8]) -> Parse
    requires { Readied work.old c }
    ensures { Parses (λ ts. words_of (length ts) ts) (each flat_word) work.old work.new c result }
{
    let mut d = c;
    // A word at a time, up to a token.
    loop {
        let e = leaf(d, work, numbers::MARKS, kinds::WORD)?;
        if e.number(work) != numbers::COMMA {
            return Ok(e);
        }
        d = e.next();
    }
}

// An identifier and its words.
fn identifier(c: Cursor, work: &mut [u8]) -> Parse
    requires { Readied work.old c }
    ensures { Parses identifier_of flat_identifier work.old work.new c result }
{
    let d = leaf(c, work, numbers::NAME, kinds::IDENTIFIER)?;
    let e = d.expect(work, numbers::COLON)?;
    words(e, work)
}

// Identifiers: one, and as long as a name follows.
fn identifiers(c: Cursor, work: &mut [u8]) -> Parse
    requires { Readied work.old c }
    ensures { Parses (λ ts. identifiers_of (length ts) ts) (each flat_identifier) work.old work.new c result }
{
    let mut d = c;
    // An identifier at a time, up to a token.
    loop {
        let e = identifier(d, work)?;
        if e.number(work) != numbers::NAME {
            return Ok(e);
        }
        d = e;
    }
}

// An enumeration after its `enum`.
pub fn enumeration(c: Cursor, work: &mut [u8]) -> Parse
    requires { Readied work.old c }
    ensures { Parses enumeration_of flat_definition work.old work.new c result }
{
    let d = leaf(c, work, numbers::NAME, kinds::ENUMERATION)?;
    let e = d.expect(work, numbers::EQUALS)?;
    identifiers(e, work)
}
