// One set: membership, SIZE, MIN, MAX; the numbers of a range or between bounds.
ghost use Rattle.std.specs.Prelude.{◌≡◌, ◌≤◌, ◌<◌, get_or};
ghost use Rattle.language.specs.Sets.{member_of};
ghost use Rattle.language.specs.Values.{measure as measure', range as range', between as between'};
ghost use Rattle.sets.specs.Answers.{says};
ghost use Rattle.sets.specs.Operators.{measurement};
ghost use Rattle.sets.specs.Listing.{Parted};
ghost use Rattle.sets.specs.Combined.{passing};
ghost use Rattle.memory_sets.specs.Places.{elements_at, from, Placed, Room, SetAt};

use crate::Span;
use language::limits;
use node::{Refusal, refusals};
use operators::codes;

// How many elements are below x, by halves.
pub fn below(memory: &[u32], set: Span, x: u32) -> usize
    requires { Placed memory.now set }
    ensures { Parted (from memory.now set) result set.count x × (result < set.count → x ≤ get_or (from memory.now set) result 0) }
{
    memory[set.at..set.at + set.count].partition_point(|y| *y < x)
}

// Is x kept, below which are j elements of the set? `inside`: where it is an element there; else where it is none.
pub fn passes(inside: bool, memory: &[u32], set: Span, j: usize, x: u32) -> bool
    requires placed { Placed memory.now set }
    requires parted { Parted (from memory.now set) j set.count x × (j < set.count → x ≤ get_or (from memory.now set) j 0) }
    ensures { result ≡ passing inside (elements_at memory.now set) x }
{
    let at = set.at;
    if j < set.count {
        if x == memory[at + j] {
            return inside;
        }
    }
    !inside
}

// Is x an element?
pub fn contains(memory: &[u32], set: Span, x: u32) -> bool
    requires { Placed memory.now set }
    ensures { result ≡ member_of (elements_at memory.now set) x }
{
    let j = below(memory, set, x);
    passes(true, memory, set, j, x)
}

// Measures by number; any number but those of SIZE and MIN stands for MAX.
pub fn measure(place: u32, operator: u32, memory: &[u32], set: Span) -> Result<u32, Refusal>
    requires { Placed memory.now set }
    ensures { says result ≡ measure' place (measurement operator) (elements_at memory.now set) }
{
    let at = set.at;
    let count = set.count;
    if operator == codes::SIZE {
        return Ok(count as u32);
    }
    if count == 0 {
        return Err(Refusal {
            number: refusals::OUT_OF_RANGE,
            place,
        });
    }
    if operator == codes::MIN {
        return Ok(memory[at]);
    }
    Ok(memory[at + count - 1])
}

// {x, y .. z}, at an address.
pub fn range(
    place: u32,
    x: u32,
    y: u32,
    z: u32,
    memory: &mut [u32],
    at: usize,
) -> Result<u32, Refusal>
    requires { Room memory.old at }
    ensures { SetAt memory.old memory.new at result (range' place x y z) }
{
    let end = at + limits::SET_ROOM;
    sets::ranges::range(place, x, y, z, &mut memory[at..end])
}

// The numbers from `low` to `high`, without an end whose sign is `<`, at an address.
pub fn between(
    place: u32,
    above: bool,
    under: bool,
    low: u32,
    high: u32,
    memory: &mut [u32],
    at: usize,
) -> Result<u32, Refusal>
    requires { Room memory.old at }
    ensures { SetAt memory.old memory.new at result (between' place above under low high) }
{
    let end = at + limits::SET_ROOM;
    sets::ranges::between(place, above, under, low, high, &mut memory[at..end])
}
