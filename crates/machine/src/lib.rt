// Numbers, sets and formulas of stored expressions, worked out by one loop over an explicit state: what the state is and how a step changes it.
// All state is one lent memory (specs/Memory), the table of nodes and a `Machine`, which is passed by value.
// The functions are called by the steps, whose states show what they ask for.
#![tactic(auto)]

pub mod fields;
pub mod modes;
pub mod phases;

ghost use Rattle.std.specs.Prelude.{◌≡◌, suc, min, ◌+◌, ◌≤◌, ◌<◌, ◌^◌, length};
ghost use Rattle.node.specs.Limits.{max_nodes};
ghost use Rattle.machine.specs.Memory.{frame_words, Framed};
ghost use Rattle.machine.specs.Moves.{came as came', wrote as wrote', popped as popped', numbered as numbered', above as above'};
ghost use Rattle.machine.specs.Openings.{Openable, Opened, Enclosed, Preceded, first_of, PrecededByThree, first_of_three, entry_at, Renewable, Renewed, RenewedBefore};

use language::limits;
use node::Refusal;
use operands::entry::size_at;
use writing::TOO_MANY;

// What to do next: work out the entry `value`, as a value (mode 0) or as a formula (mode 1); or go on with what has come (specs/Telling). Slots from `scope` up to
// `depth` hold the elements of the visible big operators' names; values lie below `top`, frames from `frames` on; `nodes` is the next index of the table.
#[derive(Clone, Copy)]
pub struct Machine {
    pub mode: u32,
    pub value: u32,
    pub from: usize,
    pub scope: usize,
    pub depth: usize,
    pub top: usize,
    pub frames: usize,
    pub nodes: usize,
}

// What a step comes to: the next state, or that there is no room for the entry, and nothing was done.
#[derive(Clone, Copy)]
pub enum Move {
    Next(Machine),
    Short,
}

// What a step returns: a move or a refusal.
pub type Stepped = Result<Move, Refusal>;

// The seven words of a frame: what it waits for, its entry, where the values go back to; the address and the number of the words that it holds; two numbers.
#[derive(Clone, Copy)]
pub struct Words {
    pub phase: u32,
    pub entry: u32,
    pub base: usize,
    pub at: usize,
    pub count: u32,
    pub value: u32,
    pub other: usize,
}

// How many they are.
pub const FRAME: usize = 7;

// The words that an operator needs: a frame, two sets that it may hold, one that comes and one that is made of it.
pub const ROOM: usize = FRAME + 4 * limits::SET_ROOM;

// The words of a note: the sort of a declared name, a number, an address, a mark.
pub const NOTE: usize = 4;

// The word after the notes, which says where the next kept set goes; and the one that says where slots begin.
pub const FREE_WORD: usize = NOTE * limits::MAX_NAMES;

pub const SLOTS_WORD: usize = FREE_WORD + 1;

// Writes a frame, the only function that does.
pub fn frame(memory: &mut [u32], at: usize, w: Words)
    requires frame_words_in_bounds { at + frame_words ≤ length memory.old }
    requires base_bound { (w.base < 2 ^ 32) × ((w.at < 2 ^ 32) × (w.other < 2 ^ 32)) }
    ensures { Framed memory.old memory.new at w }
{
    memory[at] = w.phase;
    memory[at + fields::ENTRY] = w.entry;
    memory[at + fields::BASE] = w.base as u32;
    memory[at + fields::AT] = w.at as u32;
    memory[at + fields::COUNT] = w.count;
    memory[at + fields::VALUE] = w.value;
    memory[at + fields::OTHER] = w.other as u32;
}

// One index for all past the last node.
pub fn capped(n: usize) -> usize
    ensures { result ≡ min n (suc max_nodes) }
{
    n.min(TOO_MANY)
}

impl Machine {
    // A value has come, or another entry is worked out; the rest of the state stays.
    pub fn came(self, mode: u32, value: u32, from: usize) -> Machine
        ensures { result ≡ came' self mode value from }
    {
        Machine {
            mode,
            value,
            from,
            ..self
        }
    }

    // A formula was written: its nodes end before `nodes`.
    pub fn wrote(self, nodes: usize) -> Machine
        ensures { result ≡ wrote' self nodes }
    {
        Machine {
            mode: modes::NODES,
            value: 0,
            from: 0,
            nodes,
            ..self
        }
    }

    // A frame that holds no words is gone.
    pub fn popped(self) -> Machine
        requires { self.frames + frame_words < 2 ^ 32 }
        ensures { result ≡ popped' self }
    {
        Machine {
            frames: self.frames + FRAME,
            ..self
        }
    }

    // A number has come, or a refusal.
    pub fn numbered(self, w: Result<u32, Refusal>) -> Stepped
        ensures { result ≡ numbered' self w }
    {
        let n = w?;
        Ok(Move::Next(self.came(modes::NUMBER, n, 0)))
    }

    // Where the values end, with a set that stands on top of them.
    pub fn above(self) -> usize
        requires { self.top + self.value < 2 ^ 33 }
        ensures { result ≡ above' self }
    {
        if self.from == self.top {
            return self.top + self.value as usize;
        }
        self.top
    }

    // An operator's frame is pushed, if there is room, and entry j is worked out, as the mode says.
    pub fn push(self, memory: &mut [u32], phase: u32, mode: u32, j: u32) -> Stepped
        requires { Openable (length memory.old) self }
        ensures { Opened memory.old memory.new self phase mode j result }
    {
        let top = self.top;
        let frames = self.frames;
        if frames - top < ROOM {
            return Ok(Move::Short);
        }
        let at = frames - FRAME;
        frame(
            memory,
            at,
            Words {
                phase,
                entry: self.value,
                base: top,
                at: 0,
                count: 0,
                value: 0,
                other: 0,
            },
        );
        Ok(Move::Next(Machine {
            mode,
            value: j,
            from: 0,
            frames: at,
            ..self
        }))
    }

    // An operator's frame is pushed, if there is room, and its first operand is worked out; as many entries as said stand between that one and the last.
    pub fn push_first(
        self,
        work: &[u8],
        memory: &mut [u32],
        phase: u32,
        mode: u32,
        between: usize,
    ) -> Stepped
        requires openable { Openable (length memory.old) self }
        requires preceded { Preceded work.now self.value between }
        ensures { Opened memory.old memory.new self phase mode (first_of work.now self.value between) result }
    {
        let k = self.value as usize;
        let j = k - 1 - between - size_at(work, k - 1);
        self.push(memory, phase, mode, j as u32)
    }

    // An operator's frame is pushed, if there is room, and the first of its three operands is worked out.
    pub fn push_first_of_three(
        self,
        work: &[u8],
        memory: &mut [u32],
        phase: u32,
        mode: u32,
    ) -> Stepped
        requires openable { Openable (length memory.old) self }
        requires preceded_by_three { PrecededByThree work.now self.value }
        ensures { Opened memory.old memory.new self phase mode (first_of_three work.now self.value) result }
    {
        let k = self.value as usize;
        let second = k - 1 - size_at(work, k - 1);
        let first = second - size_at(work, second);
        self.push(memory, phase, mode, first as u32)
    }

    // The last frame is written anew, with another phase and what it is to keep; its last operand, at the entry before its own, is worked out, as the mode says.
    pub fn renew(
        self,
        memory: &mut [u32],
        phase: u32,
        at: u32,
        value: u32,
        other: u32,
        mode: u32,
    ) -> Machine
        requires { Renewable memory.old self }
        ensures { Renewed memory.old memory.new self phase at value other mode result }
    {
        let k = memory[self.frames + fields::ENTRY];
        frame(
            memory,
            self.frames,
            Words {
                phase,
                entry: k,
                base: self.top,
                at: at as usize,
                count: 0,
                value,
                other: other as usize,
            },
        );
        self.came(mode, k - 1, 0)
    }

    // The last frame is written anew, with another phase and a number that it is to keep; of its three operands the second is worked out.
    pub fn renew_before(
        self,
        work: &[u8],
        memory: &mut [u32],
        phase: u32,
        value: u32,
        mode: u32,
    ) -> Machine
        requires renewable { Renewable memory.old self }
        requires preceded { Preceded work.now (entry_at memory.old self) 0 }
        ensures { RenewedBefore work.now memory.old memory.new self phase value mode result }
    {
        let n = self.renew(memory, phase, 0, value, 0, mode);
        let last = n.value as usize;
        let j = last - size_at(work, last);
        n.came(mode, j as u32, 0)
    }

    // The frame of definition r is pushed, if there is room, and its body at entry j is worked out, where no big operator's name is visible.
    pub fn enclose(
        self,
        memory: &mut [u32],
        phase: u32,
        kept: usize,
        r: usize,
        mode: u32,
        j: u32,
    ) -> Stepped
        requires openable { Openable (length memory.old) self }
        requires kept_bound { (kept < 2 ^ 32) × (r < 2 ^ 32) }
        ensures { Enclosed memory.old memory.new self phase kept r mode j result }
    {
        let top = self.top;
        let frames = self.frames;
        if frames - top < ROOM {
            return Ok(Move::Short);
        }
        let at = frames - FRAME;
        frame(
            memory,
            at,
            Words {
                phase,
                entry: self.value,
                base: top,
                at: kept,
                count: 0,
                value: self.scope as u32,
                other: r,
            },
        );
        Ok(Move::Next(Machine {
            mode,
            value: j,
            from: 0,
            scope: self.depth,
            frames: at,
            ..self
        }))
    }
}
