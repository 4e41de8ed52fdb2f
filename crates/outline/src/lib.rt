// A text's bytes to its outline: lexer, then parser (refusals 1 to 4).
// An inner stage: `outlined` asks for a work buffer of full length, and the reader refuses a shorter one (17).
#![tactic(auto)]

ghost use Rattle.std.specs.Prelude.{◌≤◌, length};
ghost use Rattle.language.specs.Limits.{work_bytes};
ghost use Rattle.outline.specs.Outlining.{Outlining};

use lexer::lex;
use node::Refusal;
use parser::{Facts, parse};

// An accepted text's numbers of tokens and of entries and what its INFO says.
#[derive(Clone, Copy)]
pub struct TextOutline {
    pub tokens: usize,
    pub entries: usize,
    pub facts: Facts,
}

// The outline of a text.
pub fn outlined(text: &[u8], work: &mut [u8]) -> Result<TextOutline, Refusal>
    requires { work_bytes ≤ length work.old }
    ensures { Outlining text.now work.old work.new result }
{
    let count = lex(text, work)?;
    let outline = parse(work, count as usize, text.len())?;
    Ok(TextOutline {
        tokens: count as usize,
        entries: outline.entries,
        facts: outline.facts,
    })
}
