// A set made of what has come.
ghost use Rattle.std.specs.Prelude.{◌≡◌, ◌+◌, ◌<◌, ◌^◌};
ghost use Rattle.machine.specs.Memory.{frame_words};
ghost use Rattle.set_steps.specs.Making.{made as made'};

use machine::{FRAME, Machine, Move, Stepped, modes};
use node::Refusal;

// It stands where the values of the last frame begin, and the frame is gone; or a refusal.
pub fn made(m: Machine, base: usize, w: Result<u32, Refusal>) -> Stepped
    requires { m.frames + frame_words < 2 ^ 32 }
    ensures { result ≡ made' m base w }
{
    let n = w?;
    Ok(Move::Next(Machine {
        mode: modes::SET,
        value: n,
        from: base,
        top: base,
        frames: m.frames + FRAME,
        ..m
    }))
}
