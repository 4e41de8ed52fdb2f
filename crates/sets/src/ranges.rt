// Sets of numbers at equal steps: {x, y .. z}, and the numbers between two bounds.
ghost use Rattle.std.specs.Prelude.{◌≡◌, ℕ, suc, ◌+◌, ◌*◌, ◌≤◌, ◌<◌, ◌^◌, length, take};
ghost use Rattle.language.specs.Limits.{max_elements};
ghost use Rattle.language.specs.Bytes.{if◌then◌otherwise◌};
ghost use Rattle.language.specs.Sets.{steps};
ghost use Rattle.language.specs.Values.{range as range', between as between'};
ghost use Rattle.sets.specs.Answers.{SetIs};

use language::limits;
use node::{Refusal, refusals};

// n numbers from `start` on. The callers have counted them: there is room, and each is a number of 32 bits.
fn fill(start: u64, step: u32, n: usize, set: &mut [u32])
    requires max_elements_in_bounds { max_elements < length set.old }
    requires n_le_max_elements { (n ≤ max_elements) × ((i : ℕ) → i < n → start + i * step < 2 ^ 32) }
    ensures { take n set.new ≡ steps n start step }
{
    let mut v = start;
    for i in 0..n {
        set[i] = v as u32;
        v += step as u64;
    }
}

// {x, y .. z}: the step, then the size.
pub fn range(place: u32, x: u32, y: u32, z: u32, set: &mut [u32]) -> Result<u32, Refusal>
    requires { max_elements < length set.old }
    ensures { SetIs result set.new (range' place x y z) }
{
    if y <= x {
        return Err(Refusal {
            number: refusals::TOO_LARGE,
            place,
        });
    }
    if z < x {
        return Ok(0);
    }
    let step = y - x;
    let more = (z - x) / step;
    if limits::MAX_ELEMENTS as u32 <= more {
        return Err(Refusal {
            number: refusals::TOO_LARGE,
            place,
        });
    }
    let n = more + 1;
    fill(x as u64, step, n as usize, set);
    Ok(n)
}

fn next_if(flag: bool, v: u32) -> u64
    ensures { result ≡ if flag then suc v otherwise v }
{
    u64::from(v) + u64::from(flag)
}

// The numbers from `low` to `high`, without an end whose sign is `<`.
pub fn between(
    place: u32,
    above: bool,
    under: bool,
    low: u32,
    high: u32,
    set: &mut [u32],
) -> Result<u32, Refusal>
    requires { max_elements < length set.old }
    ensures { SetIs result set.new (between' place above under low high) }
{
    let from = next_if(above, low);
    let end = next_if(!under, high);
    if end <= from {
        return Ok(0);
    }
    let n = end - from;
    if (limits::MAX_ELEMENTS as u64) < n {
        return Err(Refusal {
            number: refusals::TOO_LARGE,
            place,
        });
    }
    fill(from, 1, n as usize, set);
    Ok(n as u32)
}
