// The names that the signals of a text are written with, one slot each; and the first that cannot be written, 22.
#![tactic(auto)]

ghost use Rattle.std.specs.Prelude.{◌≡◌, ◌∷◌, [], suc, ◌+◌, ◌*◌, ◌-◌, ◌^◌, ◌≤◌, ◌<◌, length, drop};
ghost use Rattle.language.specs.Limits.{max_name, index_bits};
ghost use Rattle.language.specs.Bytes.{is_name_byte as isNameByte', same as same'};
ghost use Rattle.language.specs.Tokens.{run};
ghost use Rattle.language.specs.Numbered.{width_of, index_of, offset_of, flag_of};
ghost use Rattle.basic.specs.Spelling.{digits_of, spelled};
ghost use Rattle.basic.specs.Writing.{taken as taken'};
ghost use Rattle.signal_names.specs.Promise.{slot, slot_bytes, Held, Spells, part, Puts};
ghost use Rattle.signal_names.specs.Slots.{earlier, PutsName};

use language::limits::{INDICES, MAX_NAME, OFFSETS, WIDTHS};

// Copies n bytes, and yields the place after them. An inner function: its callers show that both slices have as many.
pub fn put_bytes(from: &[u8], start: usize, n: usize, out: &mut [u8], at: usize) -> usize
    requires { (n ≤ length from.now - start) × (at + n ≤ length out.old) }
    ensures { Puts (part from.now start n) out.old out.new at result }
{
    // no slices: no bytes may be asked for from a start past the end
    for i in 0..n {
        out[at + i] = from[start + i];
    }
    at + n
}

// The fields of a signal list's entry.
fn width_of(entry: u32) -> u32
    ensures { result ≡ width_of entry }
{
    entry % WIDTHS
}

fn index_of(entry: u32) -> u32
    ensures { (result ≡ index_of entry) × (result < 2 ^ index_bits) }
{
    entry / WIDTHS % INDICES
}

fn offset_of(entry: u32) -> usize
    ensures { result ≡ offset_of entry }
{
    (entry / WIDTHS / INDICES % OFFSETS) as usize
}

pub fn flag_of(entry: u32) -> u32
    ensures { result ≡ flag_of entry }
{
    entry / WIDTHS / INDICES / OFFSETS
}

fn is_name_byte(b: u8) -> bool
    ensures { result ≡ isNameByte' b }
{
    matches!(b, b'a'..=b'z' | b'A'..=b'Z' | b'_' | b'@' | b'0'..=b'9' | b'\'')
}

// How many bytes of a name stand at a place of the text.
fn name_size(text: &[u8], at: usize) -> usize
    ensures { result ≡ run isNameByte' (drop at text.now) }
{
    for i in at..text.len() {
        if !is_name_byte(text[i]) {
            return i - at;
        }
    }
    text.len().saturating_sub(at)
}

fn put_digit(digit: u32, out: &mut [u8], at: usize) -> usize
    requires { (digit < 10) × (at < length out.old) }
    ensures { Puts ((48 + digit) ∷ []) out.old out.new at result }
{
    out[at] = (48 + digit) as u8;
    at + 1
}

// A bus's index in decimal digits.
fn put_index(index: u32, out: &mut [u8], at: usize) -> usize
    requires { (index < 2 ^ index_bits) × (at + 3 ≤ length out.old) }
    ensures { Puts (digits_of (suc index) index) out.old out.new at result }
{
    if index < 10 {
        return put_digit(index, out, at);
    }
    if index < 100 {
        let second = put_digit(index / 10, out, at);
        return put_digit(index % 10, out, second);
    }
    let second = put_digit(index / 10 / 10, out, at);
    let third = put_digit(index / 10 % 10, out, second);
    put_digit(index % 10, out, third)
}

// The written name of an entry, at a place with room for a slot and four bytes more; yields its size. Of a name that is too long a part is written, and the size is
// some number above 64.
fn put_name(text: &[u8], entry: u32, names: &mut [u8], at: usize) -> usize
    requires { at + (max_name + 4) ≤ length names.old }
    ensures { PutsName (spelled text.now entry) names.old names.new at result }
{
    let offset = offset_of(entry);
    let size = name_size(text, offset);
    if MAX_NAME < size {
        return size;
    }
    let mark = put_bytes(text, offset, size, names, at);
    if width_of(entry) == 0 {
        return size;
    }
    names[mark] = 64;
    let end = put_index(index_of(entry), names, mark + 1);
    end - at
}

// Is the name in slot j the one at a place, of this size?
fn in_slot(names: &[u8], sizes: &[usize], j: usize, at: usize, size: usize) -> bool
    requires { Held names.now sizes.now (suc j) × (at + size ≤ length names.now) }
    ensures { result ≡ same' (slot names.now sizes.now j) (part names.now at size) }
{
    let start = MAX_NAME * j;
    names[start..start + sizes[j]] == names[at..at + size]
}

// Is the name in slot k, of this size, that of an earlier slot?
fn taken(names: &[u8], sizes: &[usize], k: usize, size: usize) -> bool
    requires { Held names.now sizes.now k × (size ≤ max_name) }
    ensures { result ≡ taken' (earlier names.now sizes.now k) (part names.now (slot_bytes * k) size) }
{
    let at = MAX_NAME * k;
    for j in 0..k {
        if in_slot(names, sizes, j, at, size) {
            return true;
        }
    }
    false
}

// Writes the names of the listed signals, one slot each. Yields the number of the first that is at fault, or how many there are.
pub fn spell(text: &[u8], list: &[u32], names: &mut [u8], sizes: &mut [usize]) -> usize
    requires { (slot_bytes * length list.now + (max_name + 4) ≤ length names.old) × (length list.now ≤ length sizes.old) }
    ensures { Spells text.now list.now names.new sizes.new result }
{
    for (k, entry) in list.iter().enumerate() {
        let size = put_name(text, *entry, names, MAX_NAME * k);
        if MAX_NAME < size {
            return k;
        }
        if taken(names, sizes, k, size) {
            return k;
        }
        sizes[k] = size;
    }
    list.len()
}
