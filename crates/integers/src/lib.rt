// Numbers at a place of a slice, the lowest byte first, and the signed meaning of 32 and 64 bits.
// The contracts cite specs/Numbers.antt and specs/Paste.antt of base; each `requires` says that the
// bytes are there.
#![tactic(auto)]

ghost use Rattle.std.specs.Prelude.{◌≡◌, ◌+◌, ◌≤◌, ◌<◌, ◌^◌, length};
ghost use Rattle.base.specs.Lists.{part};
ghost use Rattle.base.specs.Numbers.{le, le_bytes, int32, signed, non_negative};
ghost use Rattle.base.specs.Paste.{pasted};

// ---- Reading

// The N bytes at `at`.
fn bytes_at<const N: usize>(s: &[u8], at: usize) -> [u8; N]
    requires { at + N ≤ length s.now }
    ensures { result ≡ part s.now at N }
{
    let mut bytes = [0; N];
    bytes.copy_from_slice(&s[at..at + N]);
    bytes
}

// The number of two bytes at `at`. It, the two below and the three that write are one line each:
// the library's conversions belong to each type, and a trait over them would say the lines again.
pub fn u16_at(s: &[u8], at: usize) -> u16
    requires { at + 2 ≤ length s.now }
    ensures { result ≡ le 2 s.now at }
{
    u16::from_le_bytes(bytes_at::<2>(s, at))
}

// The number of four bytes at `at`.
pub fn u32_at(s: &[u8], at: usize) -> u32
    requires { at + 4 ≤ length s.now }
    ensures { result ≡ le 4 s.now at }
{
    u32::from_le_bytes(bytes_at::<4>(s, at))
}

// The number of eight bytes at `at`.
pub fn u64_at(s: &[u8], at: usize) -> u64
    requires { at + 8 ≤ length s.now }
    ensures { result ≡ le 8 s.now at }
{
    u64::from_le_bytes(bytes_at::<8>(s, at))
}

// The signed number of four bytes at `at`.
pub fn i32_at(s: &[u8], at: usize) -> i32
    requires { at + 4 ≤ length s.now }
    ensures { result ≡ int32 (le 4 s.now at) }
{
    int32_of(u32_at(s, at))
}

// The signed number of eight bytes at `at`.
pub fn i64_at(s: &[u8], at: usize) -> i64
    requires { at + 8 ≤ length s.now }
    ensures { result ≡ signed 64 (le 8 s.now at) }
{
    int64_of(u64_at(s, at))
}

// ---- Signed numbers: one line of 32 bits and one of 64 for each, as the library's casts and `max`
// belong to each type.

// The signed number whose 32 bits are those of x.
pub fn int32_of(x: u32) -> i32
    ensures { result ≡ int32 x }
{
    u32::cast_signed(x)
}

// The signed number whose 64 bits are those of x.
pub fn int64_of(x: u64) -> i64
    ensures { result ≡ signed 64 x }
{
    u64::cast_signed(x)
}

// A signed number as a count: 0 where it is negative.
pub fn non_negative(number: i32) -> u32
    ensures { (result ≡ non_negative number) × (result < 2 ^ 31) }
{
    number.max(0).cast_unsigned()
}

// The same of 64 bits.
pub fn non_negative64(number: i64) -> u64
    ensures { (result ≡ non_negative number) × (result < 2 ^ 63) }
{
    number.max(0).cast_unsigned()
}

// ---- Writing

// Writes the two bytes of x at `at`.
pub fn put_u16(out: &mut [u8], at: usize, x: u16)
    requires { at + 2 ≤ length out.old }
    ensures { out.new ≡ pasted out.old at (le_bytes 2 x) }
{
    out[at..at + 2].copy_from_slice(&x.to_le_bytes());
}

// Writes the four bytes of x at `at`. The compiler makes one store of them, on which the speed of
// the writers of `reference` rests (docs/BENCHMARK.md).
pub fn put_u32(out: &mut [u8], at: usize, x: u32)
    requires { at + 4 ≤ length out.old }
    ensures { out.new ≡ pasted out.old at (le_bytes 4 x) }
{
    out[at..at + 4].copy_from_slice(&x.to_le_bytes());
}

// Writes the eight bytes of x at `at`, which are one store too.
pub fn put_u64(out: &mut [u8], at: usize, x: u64)
    requires { at + 8 ≤ length out.old }
    ensures { out.new ≡ pasted out.old at (le_bytes 8 x) }
{
    out[at..at + 8].copy_from_slice(&x.to_le_bytes());
}
