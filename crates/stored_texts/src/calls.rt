// The reader and the converter, called with buffers of given lengths.
ghost use Rattle.std.specs.Prelude.{◌≡◌};
ghost use Rattle.node.specs.Limits.{max_nodes, max_signals};
ghost use Rattle.language.specs.Limits.{work_bytes};
ghost use Rattle.stored_texts.specs.Calling.{Calls, CallsWith};

use language::limits;
use node::{Answer, MAX_NODES, MAX_SIGNALS};

#[derive(Clone, Copy)]
pub enum Call {
    Read,
    Convert(u32),
}

// The lengths of the lent buffers.
#[derive(Clone, Copy)]
pub struct Room {
    pub work: usize,
    pub nodes: usize,
    pub signals: usize,
}

impl Room {
    // All the room that the limits allow.
    pub fn ample() -> Room
        ensures { (result.work ≡ work_bytes) × ((result.nodes ≡ max_nodes) × (result.signals ≡ max_signals)) }
    {
        Room {
            work: limits::WORK_BYTES,
            nodes: MAX_NODES,
            signals: MAX_SIGNALS,
        }
    }
}

// The answer to a call that is lent the whole of the buffers.
fn call_lending(
    how: Call,
    text: &[u8],
    work: &mut [u8],
    nodes: &mut [u32],
    signals: &mut [u32],
) -> Answer
    ensures { Calls how text.now work.old nodes.old signals.old work.new nodes.new signals.new result }
{
    match how {
        Call::Read => reader::read(text, work, nodes, signals),
        Call::Convert(form) => converter::convert(text, form, work, nodes, signals),
    }
}

// The answer to a call that is lent the front of the buffers.
pub fn call_with(
    how: Call,
    text: &[u8],
    room: Room,
    work: &mut [u8],
    nodes: &mut [u32],
    signals: &mut [u32],
) -> Answer
    ensures { CallsWith room how text.now work.old nodes.old signals.old work.new nodes.new signals.new result }
{
    let w = room.work.min(work.len());
    let n = room.nodes.min(nodes.len());
    let s = room.signals.min(signals.len());
    call_lending(
        how,
        text,
        &mut work[..w],
        &mut nodes[..n],
        &mut signals[..s],
    )
}
