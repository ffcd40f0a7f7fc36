// The values of a line: bytes and numbers, one space apart.
ghost use Rattle.std.specs.Prelude.{◌≡◌, ◌≤◌, ◌<◌, MatchOption, length};
ghost use Rattle.case_text.specs.Digits.{hex_digit};

pub const SPACE: u8 = 32;

const TIMES: u8 = 42;

const QUOTE: u8 = 39;

// ---- Lists of values

// Writes the bytes that a text names from index `at` on, as many as there is room for, and gives
// the index after them.
pub fn put_bytes(text: &[u8], out: &mut [u8], at: usize) -> usize
    requires { at ≤ length out.old }
    ensures { (at ≤ result) × (result ≤ length out.old) }
{
    let mut place = at;
    for value in text.split(|byte| *byte == SPACE) {
        place = put_byte(value, out, place);
    }
    place
}

// The same with numbers. A loop of its own: one for both would be passed what writes one value, and
// its contract with it, which is longer.
pub fn put_numbers(text: &[u8], out: &mut [u32], at: usize) -> usize
    requires { at ≤ length out.old }
    ensures { (at ≤ result) × (result ≤ length out.old) }
{
    let mut place = at;
    for value in text.split(|byte| *byte == SPACE) {
        place = put_number(value, out, place);
    }
    place
}

// ---- One value

// Writes the bytes of one value: characters after a quote, or a byte so many times.
fn put_byte(value: &[u8], out: &mut [u8], at: usize) -> usize
    requires { at ≤ length out.old }
    ensures { (at ≤ result) × (result ≤ length out.old) }
{
    if value.len() < 2 {
        return at;
    }
    if value[0] == QUOTE {
        return copy(&value[1..], out, at);
    }
    fill(hexadecimal(value[0], value[1]), times(value), out, at)
}

// Writes the number of one value so many times.
fn put_number(value: &[u8], out: &mut [u32], at: usize) -> usize
    requires { at ≤ length out.old }
    ensures { (at ≤ result) × (result ≤ length out.old) }
{
    match value.first() {
        Some(byte) if byte.is_ascii_digit() => {
            fill((number(value) % 4294967296) as u32, times(value), out, at)
        }
        _ => at,
    }
}

// How often a value is repeated: the number after its *, or once.
fn times(value: &[u8]) -> usize {
    match value.iter().position(|byte| *byte == TIMES) {
        Some(place) => number(&value[place + 1..]) as usize,
        None => 1,
    }
}

// The number of the decimal digits with which a text begins, modulo 2 ^ 64.
pub fn number(text: &[u8]) -> u64 {
    let mut sum: u64 = 0;
    for byte in text {
        if !byte.is_ascii_digit() {
            return sum;
        }
        sum = sum.wrapping_mul(10).wrapping_add(u64::from(*byte - b'0'));
    }
    sum
}

// The byte of two hexadecimal digits; one that is none counts 0.
fn hexadecimal(high: u8, low: u8) -> u8 {
    digit(high).unwrap_or(0) * 16 + digit(low).unwrap_or(0)
}

// The value of a hexadecimal digit, of 0 to 9 and a to f.
#[tactic(auto, unfolding(crate::specs::Digits::hex_digit))]
fn digit(byte: u8) -> Option<u8>
    ensures { MatchOption result (hex_digit byte ≡ 16)
        (λ value. (value ≡ hex_digit byte) × (value < 16)) }
{
    match byte {
        b'0'..=b'9' => Some(byte - b'0'),
        b'a'..=b'f' => Some(byte - b'a' + 10),
        _ => None,
    }
}

// The index of the first `byte` of a text from `at` on, or the text's end.
pub fn place_of(byte: u8, text: &[u8], at: usize) -> usize
    requires { at ≤ length text.now }
    ensures { (at ≤ result) × (result ≤ length text.now) }
{
    match text[at..].iter().position(|other| *other == byte) {
        Some(place) => at + place,
        None => text.len(),
    }
}

// ---- Writing as much as there is room for

fn copy(text: &[u8], out: &mut [u8], at: usize) -> usize
    requires { at ≤ length out.old }
    ensures { (at ≤ result) × (result ≤ length out.old) }
{
    let count = text.len().min(out.len() - at);
    out[at..at + count].copy_from_slice(&text[..count]);
    at + count
}

fn fill<T: Copy>(value: T, count: usize, out: &mut [T], at: usize) -> usize
    requires room { at ≤ length out.old }
    requires infallible { T.is_infallible value }
    ensures { (at ≤ result) × (result ≤ length out.old) }
{
    let end = at + count.min(out.len() - at);
    out[at..end].fill(value);
    end
}
