// Lines of the sections: parameters, definitions, declarations, formulas.
ghost use Rattle.std.specs.Prelude.{◌<◌, ◌+◌};
ghost use Rattle.language.specs.Grammar.{front, rest};
ghost use Rattle.language.specs.Sections.{expression as expressionOf, parameter_of, definition_of, declaration_of};
ghost use Rattle.entries.specs.Kinds as Kind;
ghost use Rattle.entries.specs.Flat.{flat_line, flat_definition, flat_declaration};
ghost use Rattle.entries.specs.Cursors.{Readied};
ghost use Rattle.entries.specs.Reads.{Parses};
ghost use Rattle.parser.specs.Parts.{flat_valued, width_of};
ghost use Rattle.parser.specs.Lines.{line_of, flat_of};

use super::Line;
use super::enumeration::enumeration;
use super::leaves::close;
use entries::{Cursor, Parse, kinds};
use expressions::expression;
use lexer::numbers;

// `name = expression`, with an entry of the kind.
fn valued(c: Cursor, work: &mut [u8], kind: u32) -> Parse
    requires { Readied work.old c × (kind < Kind.limit) }
    ensures { Parses parameter_of (flat_valued kind) work.old work.new c result }
{
    let token = c.at;
    let d = c.expect(work, numbers::NAME)?;
    let e = d.expect(work, numbers::EQUALS)?;
    let f = expression(e, work)?;
    Ok(close(c, f, work, kind, token))
}

fn definition(c: Cursor, work: &mut [u8]) -> Parse
    requires { Readied work.old c }
    ensures { Parses definition_of flat_definition work.old work.new c result }
{
    if c.number(work) == numbers::ENUM {
        return enumeration(c.next(), work);
    }
    valued(c, work, kinds::DEFINITION)
}

// A bus and its width, from the bus's name on; `[` is known to stand behind the name.
fn bus(c: Cursor, work: &mut [u8]) -> Parse
    requires { Readied work.old c × (c.at + 1 < c.count) }
    ensures { Parses (λ ts. width_of (front ts) (rest (rest ts))) flat_declaration work.old work.new c result }
{
    let token = c.at;
    let d = expression(c.next().next(), work)?;
    let e = d.expect(work, numbers::CLOSE_BRACKET)?;
    Ok(close(c, e, work, kinds::BUS, token))
}

// A signal, a bus with its width, or a bus with its enumeration.
fn declaration(c: Cursor, work: &mut [u8]) -> Parse
    requires { Readied work.old c }
    ensures { Parses declaration_of flat_declaration work.old work.new c result }
{
    let token = c.at;
    let d = c.expect(work, numbers::NAME)?;
    let number = d.number(work);
    if number == numbers::OPEN_BRACKET {
        return bus(c, work);
    }
    if number == numbers::NAME {
        let name = d.at;
        let e = d.next().emit(work, kinds::NAMED, token, 1);
        return Ok(e.emit(work, kinds::TYPED, name, 2));
    }
    Ok(d.emit(work, kinds::SIGNAL, token, 1))
}

// A formula, from the `{` or `;` before it on: that token makes room for the line's own entry.
fn formula(c: Cursor, work: &mut [u8]) -> Parse
    requires { Readied work.old c × (c.at < c.count) }
    ensures { Parses (λ ts. expressionOf (rest ts)) flat_line work.old work.new c result }
{
    let d = expression(c.next(), work)?;
    Ok(close(c, d, work, kinds::LINE, 0))
}

// A line, from the `{` or `;` before it on.
pub fn line(c: Cursor, work: &mut [u8], which: Line) -> Parse
    requires { Readied work.old c × (c.at < c.count) }
    ensures { Parses (λ ts. line_of which (rest ts)) (flat_of which) work.old work.new c result }
{
    match which {
        Line::Parameters => valued(c.next(), work, kinds::PARAMETER),
        Line::Definitions => definition(c.next(), work),
        Line::Declarations => declaration(c.next(), work),
        Line::Formulas => formula(c, work),
    }
}
