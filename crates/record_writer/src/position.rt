// The position of a record: two bytes of a step from the position before, or four of its own
// (pos_t). The contracts cite specs/Parts.antt and specs/RuleRecord.antt of format.
ghost use Rattle.std.specs.Prelude.{◌≡◌, ◌+◌, ◌^◌, ◌≤◌, ◌<◌, length};
ghost use Rattle.base.specs.Paste.{pasted};
ghost use Rattle.format.specs.RuleRecord.{step_fits};
ghost use Rattle.record_writer.specs.Parts.{position_bytes};

use integers::{put_u16, put_u32};

// The largest step that pos_t stores.
const MAX_STEP: u64 = 65535;

// Whether a position is stored as a step from the position before (pos_t).
pub fn step_fits(previous: u64, position: u64) -> bool
    ensures { result ≡ step_fits previous position }
{
    previous <= position && position - previous <= MAX_STEP
}

// How many bytes a position takes.
pub fn position_length(previous: u64, position: u64) -> usize
    ensures { (result ≡ length (position_bytes previous position)) × (result ≤ 4) }
{
    if step_fits(previous, position) {
        return 2;
    }
    4
}

// Writes a position; the answer is the place after it.
pub fn put_position(previous: u64, position: u64, out: &mut [u8], at: usize) -> usize
    requires { (position < 2 ^ 32)
        × (at + length (position_bytes previous position) ≤ length out.old) }
    ensures { (out.new
        ≡ pasted out.old at (position_bytes previous position))
        × (result ≡ at + length (position_bytes previous position)) }
{
    if step_fits(previous, position) {
        put_u16(out, at, (position - previous) as u16);
        return at + 2;
    }
    put_u32(out, at, position as u32);
    at + 4
}
