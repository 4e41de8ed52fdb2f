// Entries: of a token alone, and behind operands.
ghost use Rattle.std.specs.Prelude.{◌≡◌, ◌+◌, ◌-◌, ◌<◌, ◌≤◌};
ghost use Rattle.language.specs.Tokens.{Class};
ghost use Rattle.language.specs.Grammar.{expect_of};
ghost use Rattle.entries.specs.Kinds as Kind;
ghost use Rattle.entries.specs.Flat.{leaf as flatLeaf};
ghost use Rattle.entries.specs.Cursors.{Readied, Writes, emitted_of};
ghost use Rattle.entries.specs.Stored.{put_entry};
ghost use Rattle.entries.specs.Reads.{Parses};
ghost use Rattle.parser.specs.Spelling.{Numbers};

use entries::{Cursor, Parse};

// A token of a class, by the class's number. The parser's functions ask of their callers that the buffer holds tokens: none is called but by `parse`.
pub fn leaf(c: Cursor, work: &mut [u8], number: u32, kind: u32) -> Parse
    requires { Readied work.old c × (0 < number) × (kind < Kind.limit) }
    ensures { (k : Class) → Numbers k number → Parses (expect_of k) (flatLeaf kind) work.old work.new c result }
{
    let token = c.at;
    let d = c.expect(work, number)?;
    Ok(d.emit(work, kind, token, 1))
}

// An entry behind those of its operands: of all that was read from c to d.
pub fn close(c: Cursor, d: Cursor, work: &mut [u8], kind: u32, token: usize) -> Cursor
    requires { (c.out ≤ d.out) × Writes work.old d kind token (d.out - c.out + 1) }
    ensures { (result ≡ emitted_of d) × (work.new ≡ put_entry work.old d.out kind token (d.out - c.out + 1)) }
{
    d.emit(work, kind, token, d.out - c.out + 1)
}
