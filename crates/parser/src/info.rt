// INFO, after its word. Its functions write no entry.
ghost use Rattle.std.specs.Prelude.{◌<◌, length};
ghost use Rattle.language.specs.Sections.{model_of, strict_of, tag_of, tags_of, info_end};
ghost use Rattle.entries.specs.Cursors.{Readied};
ghost use Rattle.entries.specs.Reads.{Parses, no_entries};
ghost use Rattle.parser.specs.Spelling.{Spelt};
ghost use Rattle.parser.specs.Information.{ReadsPair, ReadsDescribed, titles_of, to_semantics, to_target, closing_of};

use entries::{Cursor, Parse};
use lexer::numbers;

// Two signs or words.
pub fn pair(c: Cursor, work: &[u8], first: u32, second: u32) -> Parse
    requires { Readied work.now c × (0 < first) × (0 < second) }
    ensures { ReadsPair first second work.now c result }
{
    let d = c.expect(work, first)?;
    d.expect(work, second)
}

// A word of INFO, its colon and its string.
fn described(c: Cursor, work: &[u8], word: u32) -> Parse
    requires { Readied work.now c × Spelt word }
    ensures { ReadsDescribed word work.now c result }
{
    let d = pair(c, work, word, numbers::COLON)?;
    d.expect(work, numbers::QUOTED)
}

fn titles(c: Cursor, work: &[u8]) -> Parse
    requires { Readied work.now c }
    ensures { Parses titles_of no_entries work.now work.now c result }
{
    let d = c.expect(work, numbers::OPEN_BRACE)?;
    let e = described(d, work, numbers::TITLE)?;
    described(e, work, numbers::DESCRIPTION)
}

// Up to the word of the semantics.
pub fn to_semantics(c: Cursor, work: &[u8]) -> Parse
    requires { Readied work.now c }
    ensures { Parses to_semantics no_entries work.now work.now c result }
{
    let d = titles(c, work)?;
    pair(d, work, numbers::SEMANTICS, numbers::COLON)
}

pub fn model(c: Cursor, work: &[u8]) -> Parse
    requires { Readied work.now c }
    ensures { Parses model_of no_entries work.now work.now c result }
{
    if c.number(work) == numbers::MEALY {
        return Ok(c.next());
    }
    c.expect(work, numbers::MOORE)
}

// `, Strict`, or nothing.
fn strict(c: Cursor, work: &[u8]) -> Parse
    requires { Readied work.now c }
    ensures { Parses strict_of no_entries work.now work.now c result }
{
    if c.number(work) != numbers::COMMA {
        return Ok(c);
    }
    c.next().expect(work, numbers::STRICT)
}

// From the semantics' word on up to the target's.
pub fn to_target(c: Cursor, work: &[u8]) -> Parse
    requires { Readied work.now c }
    ensures { Parses to_target no_entries work.now work.now c result }
{
    let d = strict(c, work)?;
    pair(d, work, numbers::TARGET, numbers::COLON)
}

fn tag(c: Cursor, work: &[u8]) -> Parse
    requires { Readied work.now c }
    ensures { Parses tag_of no_entries work.now work.now c result }
{
    if c.number(work) == numbers::NAME {
        return Ok(c.next());
    }
    c.expect(work, numbers::QUOTED)
}

// Tags with commas between them.
fn tags(c: Cursor, work: &[u8]) -> Parse
    requires { Readied work.now c }
    ensures { Parses (λ ts. tags_of (length ts) ts) no_entries work.now work.now c result }
{
    let mut d = c;
    // A tag at a time, up to a token.
    loop {
        let e = tag(d, work)?;
        if e.number(work) != numbers::COMMA {
            return Ok(e);
        }
        d = e.next();
    }
}

// TAGS, or nothing, then `}`.
fn info_end(c: Cursor, work: &[u8]) -> Parse
    requires { Readied work.now c }
    ensures { Parses info_end no_entries work.now work.now c result }
{
    if c.number(work) != numbers::TAGS {
        return c.expect(work, numbers::CLOSE_BRACE);
    }
    let d = c.next().expect(work, numbers::COLON)?;
    let e = tags(d, work)?;
    e.expect(work, numbers::CLOSE_BRACE)
}

// The target's word and what follows it.
pub fn closing(c: Cursor, work: &[u8]) -> Parse
    requires { Readied work.now c }
    ensures { Parses closing_of no_entries work.now work.now c result }
{
    let d = model(c, work)?;
    info_end(d, work)
}
