// The answers on a text: in one line, or with every room one short and the nodes and signals of a small text.
use crate::calls::{Call, Room, call_with};
use crate::print;
use crate::print::say;
use forms::{AS_EXPANDED, CORE_FORM, NEGATION_FORM};
use language::limits::WORK_BYTES;
use node::{MAX_NODES, MAX_SIGNALS};
use std::io::{self, Write};

// The most nodes of a text that are listed.
const LISTED: u32 = 40;

// Calls with so much room lent, and prints the answer; the counts, where it is accepted.
fn say_call(
    to: &mut impl Write,
    title: &[u8],
    how: Call,
    text: &[u8],
    room: Room,
) -> io::Result<Option<(u32, u32)>> {
    let mut work = input::large_buffer();
    let mut nodes: [u32; MAX_NODES] = [0; MAX_NODES];
    let mut signals: [u32; MAX_SIGNALS] = [0; MAX_SIGNALS];
    let answer = call_with(how, text, room, &mut work, &mut nodes, &mut signals);
    say(to, title)?;
    print::answer(to, answer, &nodes, &signals)?;
    Ok(answer.ok())
}

// The reader's answer and the converter's in each form, in one line.
pub fn line(to: &mut impl Write, name: &[u8], text: &[u8]) -> io::Result<()> {
    let ample = Room::ample();
    say(to, name)?;
    say_call(to, b": read ", Call::Read, text, ample)?;
    say_call(to, b"; form 0 ", Call::Convert(AS_EXPANDED), text, ample)?;
    say_call(to, b"; form 1 ", Call::Convert(NEGATION_FORM), text, ample)?;
    say_call(to, b"; form 2 ", Call::Convert(CORE_FORM), text, ample)?;
    say(to, b"\n")
}

// An accepted call again, with exactly the room that is due and with one node or one signal less.
fn say_rooms(
    to: &mut impl Write,
    how: Call,
    text: &[u8],
    nodes: usize,
    signals: usize,
) -> io::Result<()> {
    let work = WORK_BYTES;
    let due = Room {
        work,
        nodes,
        signals,
    };
    let a_node_short = Room {
        work,
        nodes: nodes.saturating_sub(1),
        signals,
    };
    let a_signal_short = Room {
        work,
        nodes,
        signals: signals.saturating_sub(1),
    };
    say_call(to, b"; room as due ", how, text, due)?;
    say_call(to, b"; a node short ", how, text, a_node_short)?;
    say_call(to, b"; a signal short ", how, text, a_signal_short)?;
    Ok(())
}

// A call with ample room, with a work buffer one byte short, and with the room that is due.
fn say_tries(to: &mut impl Write, title: &[u8], how: Call, text: &[u8]) -> io::Result<()> {
    let ample = Room::ample();
    let short = Room {
        work: WORK_BYTES - 1,
        nodes: MAX_NODES,
        signals: MAX_SIGNALS,
    };
    let counts = say_call(to, title, how, text, ample)?;
    say_call(to, b"; work a byte short ", how, text, short)?;
    if let Some((n, s)) = counts {
        say_rooms(to, how, text, n as usize, s as usize)?;
    }
    say(to, b"\n")
}

// The nodes and the signals of a small accepted text.
fn list(to: &mut impl Write, text: &[u8]) -> io::Result<()> {
    let mut work = input::large_buffer();
    let mut nodes: [u32; MAX_NODES] = [0; MAX_NODES];
    let mut signals: [u32; MAX_SIGNALS] = [0; MAX_SIGNALS];
    let answer = reader::read(text, &mut work, &mut nodes, &mut signals);
    match answer {
        Ok((n, s)) if n <= LISTED => {
            listing::nodes(to, &nodes, n as usize)?;
            print::signals(to, &signals, s as usize)
        }
        _ => Ok(()),
    }
}

// All answers on a text, and what a small one gives.
pub fn whole(to: &mut impl Write, name: &[u8], text: &[u8]) -> io::Result<()> {
    say(to, name)?;
    say(to, b"\n")?;
    say_tries(to, b"read ", Call::Read, text)?;
    say_tries(to, b"form 0 ", Call::Convert(AS_EXPANDED), text)?;
    say_tries(to, b"form 1 ", Call::Convert(NEGATION_FORM), text)?;
    say_tries(to, b"form 2 ", Call::Convert(CORE_FORM), text)?;
    list(to, text)
}
