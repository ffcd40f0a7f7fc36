// Packed symbols, the first in the high bits of a byte: four of two bits a byte, or two of four, as
// BITS says. Reading one, counting bytes, testing padding, writing. The contracts cite
// specs/Packed.antt and specs/Paste.antt of base; each `requires` says that a byte has whole
// symbols, that the bytes are there and the codes narrow.
#![tactic(auto)]

ghost use Rattle.std.specs.Prelude.{◌≡◌, not, ◌+◌, ◌-◌, ◌*◌, ◌/◌, ◌%◌, ◌^◌, ◌≤◌, ◌<◌, length, get_or, eqb};
ghost use Rattle.base.specs.Lists.{any, Below};
ghost use Rattle.base.specs.Packed.{byte_of, packed_length, pack, symbol_at, symbols_at};
ghost use Rattle.base.specs.Paste.{pasted};
ghost use Rattle.packing.specs.Width.{Width};

// ---- Reading

// The symbol of BITS bits with index i.
pub fn symbol<const BITS: usize>(s: &[u8], i: usize) -> u8
    requires width { Width BITS }
    requires i_in_bounds { i / (8 / BITS) < length s.now }
    ensures { result ≡ symbol_at (2 ^ BITS) (8 / BITS) s.now i }
{
    let per = 8 / BITS;
    (s[i / per] >> (BITS * (per - (i % per + 1)))) % (1 << BITS)
}

// How many bytes n symbols of BITS bits take.
pub fn packed_length<const BITS: usize>(n: usize) -> usize
    requires width { Width BITS }
    requires n { n ≤ 2 ^ 32 }
    ensures { result ≡ packed_length (8 / BITS) n }
{
    let per = 8 / BITS;
    (n + (per - 1)) / per
}

// Whether the symbols of BITS bits after the n from byte `at` on, to the end of a byte, are all 0.
pub fn padding_is_zero<const BITS: usize>(s: &[u8], at: usize, n: usize) -> bool
    requires width { Width BITS }
    requires n_in_bounds { at + packed_length (8 / BITS) n ≤ length s.now }
    ensures { result ≡ not (any (λ symbol. not (eqb symbol 0))
        (symbols_at (2 ^ BITS) (8 / BITS) s.now at n
        (packed_length (8 / BITS) n * (8 / BITS) - n))) }
{
    let per = 8 / BITS;
    if n % per == 0 {
        return true;
    }
    s[at + n / per] % (1 << (BITS * (per - n % per))) == 0
}

// ---- Writing

// Packs symbols of BITS bits into `out` from byte `at` on; what the last byte lacks counts as 0.
pub fn put_symbols<const BITS: usize>(codes: &[u8], out: &mut [u8], at: usize)
    requires width { Width BITS }
    requires below { Below (2 ^ BITS) codes.now }
    requires codes_in_bounds { at + packed_length (8 / BITS) (length codes.now) ≤ length out.old }
    ensures { out.new ≡ pasted out.old at (pack (2 ^ BITS) (8 / BITS) codes.now) }
{
    for (k, part) in codes.chunks(8 / BITS).enumerate() {
        out[at + k] = byte::<BITS>(part);
    }
}

// The byte of some codes of BITS bits, at most as many as it holds; what it lacks counts as 0.
pub fn byte<const BITS: usize>(codes: &[u8]) -> u8
    requires width { Width BITS }
    requires below { Below (2 ^ BITS) codes.now }
    requires few { (0 < length codes.now) × (length codes.now ≤ 8 / BITS) }
    ensures { result ≡ byte_of (2 ^ BITS) (8 / BITS) (λ k. get_or codes.now k 0) }
{
    let mut byte: u8 = 0;
    for code in codes {
        byte = byte * (1 << BITS) + *code;
    }
    byte << (BITS * (8 / BITS - codes.len()))
}
