// Ports by position, as far as no width is needed.
ghost use Rattle.std.specs.Prelude.{◌≡◌, ◌<◌, ◌≤◌, length};
ghost use Rattle.language.specs.Limits.{work_bytes, max_tokens, max_names};
ghost use Rattle.declarations.specs.Describing.{enumeration_for, Described};
ghost use Rattle.declarations.specs.DescribingRoom.{DescribeRoom};

use crate::enumeration;
use crate::enumeration::enumeration_of;
use entries::kinds;
use operands::entry::{kind_at, place_at};

// No entry has this number, as the slices hold it.
const NO_ENTRY: u16 = enumeration::NO_ENTRY as u16;

// The entry of the enumeration that a port is declared by; entry k declares the port.
fn enumeration_for(work: &[u8], refs: &[u16], found: &[u16], k: usize) -> u16
    requires { (work_bytes ≤ length work.now) × ((k < max_tokens) × ((max_tokens ≤ length refs.now) × (max_names ≤ length found.now))) }
    ensures { result ≡ enumeration_for work.now refs.now found.now k }
{
    if kind_at(work, k) == kinds::TYPED {
        return enumeration_of(work, refs, found, k) as u16;
    }
    NO_ENTRY
}

// The names' numbers, the enumerations' entries and the names' offsets of the ports that the entries in `places` declare.
pub fn describe(
    work: &[u8],
    refs: &[u16],
    found: &[u16],
    places: &[u16],
    count: usize,
    order: &mut [u16],
    enumerations: &mut [u16],
    offsets: &mut [u32],
)
    requires { DescribeRoom work.now refs.now found.now places.now count order.old enumerations.old offsets.old }
    ensures { Described work.now refs.now found.now places.now count order.new enumerations.new offsets.new }
{
    for j in 0..count {
        let k = usize::from(places[j]);
        order[j] = refs[k];
        enumerations[j] = enumeration_for(work, refs, found, k);
        offsets[j] = place_at(work, k);
    }
}
