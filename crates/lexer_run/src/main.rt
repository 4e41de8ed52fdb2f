// Runs the lexer on texts at its limits and one beyond, on each row of refusals 1 to 3 and their order, and on the ways through its definition.
#![tactic(auto)]

use lexer::fields::{LENGTHS, OFFSETS};
use std::io::{self, BufWriter, Write};

fn number(to: &mut impl Write, word: &[u8], n: u32) -> io::Result<()> {
    to.write_all(word)?;
    write!(to, "{n}")
}

fn line(to: &mut impl Write, text: &[u8]) -> io::Result<()> {
    to.write_all(text)?;
    to.write_all(b"\n")
}

// A token's number, offset and length, as its word holds them.
fn token(to: &mut impl Write, word: u32) -> io::Result<()> {
    number(to, b"; ", word / 16777216)?;
    number(to, b" ", word / LENGTHS % OFFSETS)?;
    number(to, b" ", word % LENGTHS)
}

// The count of tokens and the first three words, or the refusal.
fn run(to: &mut impl Write, name: &[u8], text: &[u8]) -> io::Result<()> {
    line(to, name)?;
    let mut work = input::large_buffer();
    let lexed = lexer::lex(text, &mut work);
    match lexed {
        Ok(n) => {
            number(to, b"tokens ", n)?;
            token(to, words::get(&work, 0))?;
            token(to, words::get(&work, 1))?;
            token(to, words::get(&work, 2))?;
            line(to, b"")
        }
        Err(refusal) => {
            number(to, b"refused ", refusal.number)?;
            number(to, b" ", refusal.place)?;
            line(to, b"")
        }
    }
}

fn long_texts(to: &mut impl Write) -> io::Result<()> {
    let blanks = [32u8; 32769];
    run(to, b"32,768 blanks", &blanks[..32768])?;
    run(to, b"32,769 blanks", &blanks)?;
    let hashes = [35u8; 32769];
    run(to, b"32,768 times #", &hashes[..32768])?;
    run(to, b"1 before 2: 32,769 times #", &hashes)
}

fn many_tokens(to: &mut impl Write) -> io::Result<()> {
    let mut semicolons = [59u8; 32768];
    run(to, b"8,192 times ;", &semicolons[..8192])?;
    run(to, b"8,193 times ;", &semicolons[..8193])?;
    run(to, b"32,768 times ;", &semicolons)?;
    semicolons[20000] = 35;
    run(to, b"2 before 3: 20,000 times ; then #", &semicolons)
}

fn names(to: &mut impl Write) -> io::Result<()> {
    let letters = [97u8; 65];
    run(to, b"a name of 64 bytes", &letters[..64])?;
    run(to, b"a name of 65 bytes", &letters)?;
    run(to, b"a word of the format and a name", b"IN INP")?;
    run(to, b"a prime begins no name", b"a 'b")?;
    run(to, b"primes and at-signs", b"X'1 @_a")
}

fn no_tokens(to: &mut impl Write) -> io::Result<()> {
    run(to, b"no token", b"  #")?;
    run(to, b"half a sign", b"a & b")?;
    run(to, b"unclosed string", b"a \"b")?;
    run(to, b"unclosed comment, at the outermost", b"a /* /* */")?;
    run(to, b"a comment that opens and does not close", b"/*/")?;
    run(to, b"a closed comment and what follows", b"/* /* */ */#")
}

fn pieces(to: &mut impl Write) -> io::Result<()> {
    run(to, b"no text", b"")?;
    run(to, b"one line comment", b"// a")?;
    run(to, b"one string", b"\"/* // \"")?;
    run(to, b"the longest sign", b"<-><-")?;
    run(to, b"one token and three", b"(*)( * )")?;
    run(to, b"a numeral and a name", b"30a")
}

fn enumerations(to: &mut impl Write) -> io::Result<()> {
    run(to, b"marks from enum on", b"enum 0*1*")?;
    run(to, b"a digit that is no mark", b"enum 02")?;
    run(to, b"an enumeration ends at ;", b"enum;02")?;
    run(to, b"an enumeration ends at }", b"enum}*2")?;
    run(to, b"a comment does not end one", b"enum/*;*/2")
}

fn main(rt: HostRuntime) -> io::Result<()> {
    let mut to = BufWriter::new(rt.alloc(), io::writer(&rt))?;
    long_texts(&mut to)?;
    many_tokens(&mut to)?;
    names(&mut to)?;
    no_tokens(&mut to)?;
    pieces(&mut to)?;
    enumerations(&mut to)?;
    to.flush()
}
