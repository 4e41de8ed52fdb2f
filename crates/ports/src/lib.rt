// Signals by number: the signal list of a text's ports, the number of each name's first signal, and refusal 15.
// `list_signals` asks for tables of full length and for ports whose names and widths are noted, as `declarations` leaves them.
#![tactic(auto)]

ghost use Rattle.std.specs.Prelude.{List, ◌≡◌, ℕ, ◌+◌, ◌<◌, ◌≤◌, ◌^◌, max, length};
ghost use Rattle.std.proofs.lemmas.List.Edits.{sets};
ghost use Rattle.node.specs.Returned.{refusal};
ghost use Rattle.language.specs.Limits.{max_signals, max_width, offset_bits};
ghost use Rattle.language.specs.Tokens.{Token};
ghost use Rattle.language.specs.DeclaredNames.{Port};
ghost use Rattle.language.specs.Listed.{flag as flag'};
ghost use Rattle.ports.specs.Ports.{Ported, Room};
ghost use Rattle.ports.specs.EntryRuns.{run};
ghost use Rattle.ports.specs.Listing.{Lists};

use language::limits::{INDICES, OFFSETS, WIDTHS};
use node::{MAX_SIGNALS, Refusal, refusals};

// The signals pass 255: the place of the declared name with which they do.
#[derive(Clone, Copy, PartialEq, Eq)]
pub struct TooMany {
    pub place: u32,
}

// 15, which comes behind the refusals of all lines.
impl From<TooMany> for Refusal {
    ghost from_gives = { λ e r. r ≡ refusal 15 e.place };

    fn from(e: TooMany) -> Refusal {
        Refusal {
            number: refusals::TOO_MANY_SIGNALS,
            place: e.place,
        }
    }
}

fn signals_of(width: u32) -> usize
    ensures { result ≡ max 1 width }
{
    width.max(1) as usize
}

fn flag(output: bool) -> u32
    ensures { (result ≡ flag' output) × (result < 2) }
{
    u32::from(output)
}

// The entries of a name's signals, from `at` on. The caller has looked for room, and the fields are within their bits.
fn write_entries(top: u32, offset: u32, width: u32, count: usize, at: usize, list: &mut [u32])
    requires { (top < 2) × ((offset < 2 ^ offset_bits) × ((width ≤ max_width) × ((count ≤ max_signals) × (at + count ≤ length list.old)))) }
    ensures { list.new ≡ sets list.old at (run top offset width count 0) }
{
    for i in 0..count {
        list[at + i] = ((top * OFFSETS + offset) * INDICES + i as u32) * WIDTHS + width;
    }
}

// The signal list of the ports in the slices, the first `ins` of which are inputs, from the list's start on; and the numbers of their first signals by the names'
// numbers. It says how many signals there are, and is called with ports that evaluation has sized.
pub fn list_signals(
    numbers: &[u16],
    offsets: &[u32],
    widths: &[u32],
    ins: usize,
    count: usize,
    firsts: &mut [u32],
    list: &mut [u32],
) -> Result<usize, TooMany>
    requires { Room numbers.now offsets.now widths.now count firsts.old list.old }
    ensures { (R : Token → ℕ) (ps : List Port) → Ported R numbers.now offsets.now widths.now ins count ps
        → Lists R ps result firsts.old list.old firsts.new list.new }
{
    let mut at: usize = 0;
    for j in 0..count {
        let width = widths[j];
        let offset = offsets[j];
        let n = signals_of(width);
        if at + n > MAX_SIGNALS {
            return Err(TooMany { place: offset });
        }
        let r = usize::from(numbers[j]);
        firsts[r] = at as u32;
        write_entries(flag(ins <= j), offset, width, n, at, list);
        at += n;
    }
    Ok(at)
}
