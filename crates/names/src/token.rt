// One token of a column. The contracts cite specs/ColumnsAt.antt of tokens and specs/Cursors.antt.
ghost use Rattle.std.specs.Prelude.{◌≡◌, true, false, ◌+◌, ◌≤◌, ◌<◌, ◌^◌, length, get_or, drop, ltb, IfSome, IsSome};
ghost use Rattle.base.specs.Lists.{member, part};
ghost use Rattle.base.specs.Numbers.{le};
ghost use Rattle.base.specs.Paste.{pasted};
ghost use Rattle.tokens.specs.Split.{is_digit};
ghost use Rattle.tokens.specs.ColumnsAt.{
  cursor_after,
  start_at,
  string_length,
  step_width,
  number_width,
  token_at,
  token_invalid,
};
ghost use Rattle.names.specs.Cursors.{
  byte_of,
  byte_wrong,
  string_size,
  first_number,
  next_number,
  token_size,
  cursor_of,
  starts_digits,
  TokenPut,
};

use crate::column::{Column, Kind};
use crate::decimal::{decimal_length, put_decimal};
use integers::{i64_at, non_negative64, u16_at, u32_at};

// The byte after a string.
const STRING_END: u8 = 0;

// The largest number.
const MAX_NUMBER: u64 = 999_999_999_999_999_999;

// ---- Any token

// Judges the next token of a column: its length, or None where it is wrong. The column moves on.
pub fn judge_token(section: &[u8], first: bool, digits: bool, column: &mut Column) -> Option<usize>
    ensures size { result ≡ token_size section.now first digits (cursor_of column.old) }
    ensures moved { IsSome result →
        cursor_of column.new ≡ cursor_after section.now first (cursor_of column.old) }
{
    if let Kind::Strings = column.kind {
        let size = string_size(section, column.place, digits)?;
        column.place += size + 1;
        return Some(size);
    }
    if !digits {
        return None;
    }
    let number = number_at(section, first, *column)?;
    column.place += column.kind.number_width(first);
    column.value = number;
    Some(decimal_length(number))
}

// Writes the next token of a column, which is right, from `at` on; the answer is the place after
// it. The column moves on.
pub fn put_token(
    section: &[u8],
    first: bool,
    column: &mut Column,
    out: &mut [u8],
    at: usize,
) -> usize
    requires column_value { token_invalid section.now first (cursor_of column.old) ≡ false }
    requires out_in_bounds { at + length (token_at section.now first (cursor_of column.old))
        ≤ length out.old }
    ensures { TokenPut section.now first (cursor_of column.old) (cursor_of column.new) out.old
        out.new at result }
{
    if let Kind::Strings = column.kind {
        let size = put_string(section, column.place, out, at);
        column.place += size + 1;
        return at + size;
    }
    let number = number_at(section, first, *column).unwrap();
    column.place += column.kind.number_width(first);
    column.value = number;
    put_decimal(number, out, at)
}

// Whether a row begins with digits, by its first column.
pub fn starts_digits(section: &[u8], column: Column) -> bool
    ensures { result ≡ starts_digits section.now (cursor_of column) }
{
    match column.kind {
        Kind::Strings => column.place < section.len() && section[column.place].is_ascii_digit(),
        _ => true,
    }
}

// ---- Strings

// The length of the string at `place`, of digits or of others, or None where it is wrong.
fn string_size(section: &[u8], place: usize, digits: bool) -> Option<usize>
    ensures size { result ≡ string_size digits 0 (drop place section.now) }
    ensures bound { IfSome result (λ size. place + size < length section.now) }
{
    for (size, byte) in section.get(place..)?.iter().enumerate() {
        if *byte == STRING_END {
            return if size == 0 { None } else { Some(size) };
        }
        if byte_wrong(*byte, digits) {
            return None;
        }
    }
    None
}

// Copies the string at `place`, which has a zero byte after it; the answer is its length. Most
// strings are short, so the bytes are gone through once, and not sought and copied.
fn put_string(section: &[u8], place: usize, out: &mut [u8], at: usize) -> usize
    requires { (member 0 (drop place section.now) ≡ true)
        × (at + string_length section.now place ≤ length out.old) }
    ensures { (result ≡ string_length section.now place)
        × (place + result < length section.now)
        × (out.new ≡ pasted out.old at (part section.now place result)) }
{
    for (size, from) in section[place..].iter().enumerate() {
        if *from == STRING_END {
            return size;
        }
        out[at + size] = *from;
    }
    unreachable!()
}

// Whether a byte does not belong into a token of digits or of others.
fn byte_wrong(byte: u8, digits: bool) -> bool
    ensures { result ≡ byte_wrong digits byte }
{
    if digits {
        return !byte.is_ascii_digit();
    }
    byte < 32 || 126 < byte || byte.is_ascii_digit()
}

// ---- Numbers

// The next number of a column, or None where it is wrong.
fn number_at(section: &[u8], first: bool, column: Column) -> Option<u64>
    ensures { result ≡ next_number section.now first (cursor_of column) }
{
    if first {
        return start_at(section, column.place);
    }
    if cut_at(section, column.place, column.kind.step_width()) {
        return None;
    }
    let step = step_at(section, column.kind, column.place);
    if MAX_NUMBER - step < column.value {
        return None;
    }
    Some(column.value + step)
}

// The start of a column, or None where it is negative or too large.
fn start_at(section: &[u8], place: usize) -> Option<u64>
    ensures { result ≡ first_number section.now place }
{
    if cut_at(section, place, 8) {
        return None;
    }
    let start = i64_at(section, place);
    if start < 0 {
        return None;
    }
    let number = non_negative64(start);
    if MAX_NUMBER < number {
        return None;
    }
    Some(number)
}

// The step at `place`.
fn step_at(section: &[u8], kind: Kind, place: usize) -> u64
    requires { place + step_width (byte_of kind) ≤ length section.now }
    ensures { (result ≡ le (step_width (byte_of kind)) section.now place) × (result < 2 ^ 32) }
{
    match kind {
        Kind::Strings => 0,
        Kind::Steps8 => u64::from(section[place]),
        Kind::Steps16 => u64::from(u16_at(section, place)),
        Kind::Steps32 => u64::from(u32_at(section, place)),
    }
}

// Whether the section ends before so many bytes at `place` do.
fn cut_at(section: &[u8], place: usize, width: usize) -> bool
    ensures { result ≡ ltb (length section.now) (place + width) }
{
    section.len() < width || section.len() - width < place
}
