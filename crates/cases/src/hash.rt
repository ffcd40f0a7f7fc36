// FNV-1a of 64 bits. The prime is 2 ^ 40 + 435.
ghost use Rattle.std.specs.Prelude.{◌≡◌};
ghost use Rattle.base.specs.Numbers.{le_bytes};
ghost use Rattle.cases.specs.Hash.{hash_start, hash_step, hash_from};

// The hash of no bytes.
pub const HASH_START: u64 = 14_695_981_039_346_656_037;

const HASH_PRIME: u64 = 1_099_511_628_211;

// The hash of some bytes.
pub fn hash_of(bytes: &[u8]) -> u64
    ensures { result ≡ hash_from hash_start bytes.now }
{
    hash_bytes(HASH_START, bytes)
}

// The hash of the bytes that gave `hash`, with these after them.
pub fn hash_bytes(hash: u64, bytes: &[u8]) -> u64
    ensures { result ≡ hash_from hash bytes.now }
{
    let mut sum = hash;
    for byte in bytes {
        sum = hash_byte(sum, *byte);
    }
    sum
}

// The same with the four bytes of a number, the lowest first.
pub fn hash_number(hash: u64, number: u32) -> u64
    ensures { result ≡ hash_from hash (le_bytes 4 number) }
{
    hash_bytes(hash, &number.to_le_bytes())
}

// The same with one byte.
pub fn hash_byte(hash: u64, byte: u8) -> u64
    ensures { result ≡ hash_step hash byte }
{
    (hash ^ u64::from(byte)).wrapping_mul(HASH_PRIME)
}
