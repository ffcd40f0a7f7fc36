// Parts of a record: its position, its entries and its 4-bit codes.
ghost use Rattle.std.specs.Prelude.{◌≡◌, [], ◌∷◌, ◌+◌, ◌*◌, ◌/◌, ◌%◌, ◌≤◌, ◌<◌, ◌^◌, length};
ghost use Rattle.base.specs.Packed.{packed_length, symbols_at};
ghost use Rattle.dna.specs.Refused.{numbered};
ghost use Rattle.dna.specs.Sizes.{max_read_length};
ghost use Rattle.records.specs.Decoded.{position_at, entries_fit, codes_class, class_number};

use dna::refusals::Refusal;
use integers::{u16_at, u32_at};

// A position and the byte after it.
#[derive(Clone, Copy)]
pub struct PositionRead {
    pub position: u64,
    pub next: usize,
}

// Reads the position at `at`: 4 bytes, or with `step` 2 bytes that are added to the one before.
pub fn read_position(
    section: &[u8],
    at: usize,
    step: bool,
    previous: u64,
) -> Result<PositionRead, Refusal>
    requires { (at ≤ length section.now) × (previous < 2 ^ 32) }
    ensures { numbered result ≡ position_at step previous section.now at }
{
    if step {
        if section.len() - at < 2 {
            return Err(Refusal::DnaTruncated);
        }
        return Ok(PositionRead {
            position: previous + u64::from(u16_at(section, at)),
            next: at + 2,
        });
    }
    if section.len() - at < 4 {
        return Err(Refusal::DnaTruncated);
    }
    Ok(PositionRead {
        position: u64::from(u32_at(section, at)),
        next: at + 4,
    })
}

// Whether every entry lands in the aligned part, the later ones after the one before: 17 does not
// fit.
pub fn entries_fit(section: &[u8], at: usize, count: usize, aligned: usize) -> bool
    requires { (at + count ≤ length section.now) × (count < 32) }
    ensures { result ≡ entries_fit section.now at count aligned }
{
    let mut place: usize = 0;
    for k in 0..count {
        let offset = usize::from(section[at + k] / 4);
        if offset == 0 && 0 < k {
            return false;
        }
        place += offset;
        if aligned <= place {
            return false;
        }
    }
    true
}

// Whether one of the 4-bit codes of a read at `at` is N; none where one is above 4.
pub fn holds_n(section: &[u8], at: usize, size: usize) -> Option<bool>
    requires { (at + packed_length 2 size ≤ length section.now) × (size ≤ max_read_length) }
    ensures { class_number result ≡ codes_class (symbols_at 16 2 section.now at 0 size) }
{
    let whole = largest_code(&section[at..at + size / 2]);
    if size % 2 == 0 {
        return is_n(whole);
    }
    is_n(whole.max(section[at + size / 2] / 16))
}

// A code of the class of all: the largest, or 0 where there is none. One statement a byte, and no
// branch for a code.
fn largest_code(bytes: &[u8]) -> u8
    ensures { codes_class (result ∷ [])
        ≡ codes_class (symbols_at 16 2 bytes.now 0 0 (2 * length bytes.now)) }
{
    let mut largest: u8 = 0;
    for byte in bytes {
        largest = largest.max((byte / 16).max(byte % 16));
    }
    largest
}

// Whether a code is N; none above 4.
fn is_n(code: u8) -> Option<bool>
    ensures { class_number result ≡ codes_class (code ∷ []) }
{
    if 4 < code {
        return None;
    }
    Some(code == 4)
}
