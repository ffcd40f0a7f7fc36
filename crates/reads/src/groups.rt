// The four bytes of a group, as one number (01, Records): its faults, and a read's bits.
ghost use Rattle.std.specs.Prelude.{◌≡◌, ◌%◌, ◌≤◌, ◌<◌, min, length};
ghost use Rattle.base.specs.Groups.{group_count};
ghost use Rattle.dna.specs.Division.{group_bit_stray};
ghost use Rattle.dna.specs.Refused.{numbered};
ghost use Rattle.reads.specs.Cursor.{flags_of, bits_at, group_step};

use dna::refusals::Refusal;
use integers::u32_at;
use records::Bits;

// Where a read's record stands, and the bytes of its group.
#[derive(Clone, Copy)]
pub struct GroupStep {
    pub at: usize,
    pub group: u32,
}

// At the first read of a group its bytes are judged, with 12, 13 and 11, and taken.
pub fn take_group(
    dna: &[u8],
    ns: &[u8],
    reads: usize,
    read: u32,
    at: usize,
    group: u32,
) -> Result<GroupStep, Refusal>
    requires { (at ≤ length dna.now) × (read < reads) × (length ns.now ≡ group_count reads) }
    ensures { numbered result ≡ group_step dna.now ns.now reads read at group }
{
    if read % 8 != 0 {
        return Ok(GroupStep { at, group });
    }
    if dna.len() - at < 4 {
        return Err(Refusal::DnaTruncated);
    }
    let bytes = u32_at(dna, at);
    let index = read as usize;
    if bit_is_stray(bytes, reads - index) {
        return Err(Refusal::FlagBitStray);
    }
    if u32::from(ns[index / 8]) != bytes / 65536 % 256 {
        return Err(Refusal::NSectionWrong);
    }
    Ok(GroupStep {
        at: at + 4,
        group: bytes,
    })
}

// Whether a bit past the last of `left` reads is set, in any of the four bytes.
fn bit_is_stray(group: u32, left: usize) -> bool
    ensures { result ≡ group_bit_stray (min 8 left) (flags_of group) }
{
    if 8 <= left {
        return false;
    }
    let past = 256u32 >> left;
    if group % 256 % past != 0 {
        return true;
    }
    if group / 256 % 256 % past != 0 {
        return true;
    }
    if group / 65536 % 256 % past != 0 {
        return true;
    }
    group / 16777216 % 256 % past != 0
}

// A read's bit of each of the four bytes of its group.
pub fn bits_of(group: u32, read: u32) -> Bits
    ensures { result ≡ bits_at (flags_of group) (read % 8) }
{
    let shifted = group >> (7 - read % 8);
    Bits {
        perfect: shifted % 2 == 1,
        forward: shifted / 256 % 2 == 1,
        with_n: shifted / 65536 % 2 == 1,
        step: shifted / 16777216 % 2 == 1,
    }
}
