// The bytes of one token in its column, and of one row. The contracts cite specs/Pieces.antt; each
// `requires` says that there is room.
ghost use Rattle.std.specs.Prelude.{◌≡◌, [], ◌∷◌, ◌++◌, ◌+◌, ◌≤◌, length};
ghost use Rattle.base.specs.Numbers.{le_bytes};
ghost use Rattle.base.specs.Paste.{pasted};
ghost use Rattle.names_writer.specs.Steps.{number_of, token_number, kind_byte, kind_width};
ghost use Rattle.names_writer.specs.Rows.{Marked};
ghost use Rattle.names_writer.specs.Pieces.{number_piece, piece_of, typed_piece, place_of};
ghost use Rattle.names_writer.specs.Pieces.{row_piece, typed_row_piece, written};
ghost use Rattle.names_writer.specs.Pieces.{PiecesFit, RowMoved, TypedRowMoved};

use crate::parts::{part_at, token_at};
use crate::steps::{Kind, number_of};
use integers::{put_u16, put_u32, put_u64};

// Where a column that is written has arrived.
#[derive(Clone, Copy)]
pub struct Cursor {
    // The number of the last token: none before the first, and none after `put_row` of a token that
    // is no number.
    pub last: Option<u64>,
    pub place: usize,
}

// A cursor before a column is begun.
pub const START: Cursor = Cursor {
    last: None,
    place: 0,
};

// What is written for a token that is no number in a column of steps. Where `measure` finds steps
// there is no such token; the value only gives `put_typed_row` an answer for every input.
const NO_NUMBER: u64 = 1_000_000_000_000_000_000;

// Writes one row, each token where its column has arrived, and moves the cursors on. A token that
// is no number is a string, whatever its column. `put_columns` writes by `put_typed_row`, which
// answers otherwise for such a token.
pub fn put_row(name: &[u8], marks: &[u32], kinds: &[u8], cursors: &mut [Cursor], out: &mut [u8])
    requires marked { Marked name.now marks.now (length cursors.old) }
    requires kinds_room { length cursors.old ≤ length kinds.now }
    requires pieces_fit { PiecesFit out.old (place_of cursors.old)
        (row_piece name.now kinds.now cursors.old) (length cursors.old) }
    ensures moved { RowMoved name.now kinds.now cursors.old cursors.new }
    ensures written { out.new ≡ written out.old (place_of cursors.old)
        (row_piece name.now kinds.now cursors.old) (length cursors.old) }
{
    for (k, cursor) in cursors.iter_mut().enumerate() {
        let token = part_at(name, marks, k);
        let kind = Kind::from(kinds[k]);
        let number = number_of(token);
        let place = put_piece(kind, cursor.last, token, number, out, cursor.place);
        *cursor = Cursor {
            last: number,
            place,
        };
    }
}

// Writes what a token adds to its column, a string where it is no number; the answer is the place
// after it.
fn put_piece(
    kind: Kind,
    last: Option<u64>,
    token: &[u8],
    number: Option<u64>,
    out: &mut [u8],
    at: usize,
) -> usize
    requires number_value { number ≡ token_number token.now }
    requires token_in_bounds { at + length (piece_of last (kind_byte kind) token.now)
        ≤ length out.old }
    ensures { (out.new ≡ pasted out.old at (piece_of last (kind_byte kind) token.now))
        × (result ≡ at + length (piece_of last (kind_byte kind) token.now)) }
{
    let Some(number) = number else {
        return put_string(token, out, at);
    };
    put_typed_piece(kind, last, token, number, out, at)
}

// Writes one row as `put_row` does, but by the types of the columns alone: in a column of steps a
// token that is no number is `NO_NUMBER`. Its marks are of a byte each.
pub fn put_typed_row(
    name: &[u8],
    marks: &[u8],
    kinds: &[u8],
    cursors: &mut [Cursor],
    out: &mut [u8],
)
    requires marked { Marked name.now marks.now (length cursors.old) }
    requires kinds_room { length cursors.old ≤ length kinds.now }
    requires pieces_fit { PiecesFit out.old (place_of cursors.old)
        (typed_row_piece name.now kinds.now cursors.old) (length cursors.old) }
    ensures moved { TypedRowMoved name.now kinds.now cursors.old cursors.new }
    ensures written { out.new ≡ written out.old (place_of cursors.old)
        (typed_row_piece name.now kinds.now cursors.old) (length cursors.old) }
{
    for (k, cursor) in cursors.iter_mut().enumerate() {
        let token = token_at(name, marks, k);
        let number = number_of(token).unwrap_or(NO_NUMBER);
        let place = put_typed_piece(
            Kind::from(kinds[k]),
            cursor.last,
            token,
            number,
            out,
            cursor.place,
        );
        *cursor = Cursor {
            last: Some(number),
            place,
        };
    }
}

// Writes what a token adds to its column by the type alone; the answer is the place after it.
fn put_typed_piece(
    kind: Kind,
    last: Option<u64>,
    token: &[u8],
    number: u64,
    out: &mut [u8],
    at: usize,
) -> usize
    requires number_value { number ≡ number_of token.now }
    requires token_in_bounds { at + length (typed_piece last (kind_byte kind) token.now)
        ≤ length out.old }
    ensures { (out.new ≡ pasted out.old at (typed_piece last (kind_byte kind) token.now))
        × (result ≡ at + length (typed_piece last (kind_byte kind) token.now)) }
{
    if kind == Kind::Strings {
        return put_string(token, out, at);
    }
    put_number(kind, last, number, out, at)
}

// Writes a string and its zero byte; the answer is the place after it.
fn put_string(token: &[u8], out: &mut [u8], at: usize) -> usize
    requires { at + length (token.now ++ (0 ∷ [])) ≤ length out.old }
    ensures { (out.new ≡ pasted out.old at (token.now ++ (0 ∷ [])))
        × (result ≡ at + length (token.now ++ (0 ∷ []))) }
{
    let end = at + token.len();
    put_bytes(token, out, at);
    out[end] = 0;
    end + 1
}

// Copies bytes to a place. They are few, and gone through one by one: `copy_from_slice` would have
// the archive for C ask for memmove.
pub fn put_bytes(bytes: &[u8], out: &mut [u8], at: usize)
    requires { at + length bytes.now ≤ length out.old }
    ensures { out.new ≡ pasted out.old at bytes.now }
{
    for k in 0..bytes.len() {
        out[at + k] = bytes[k];
    }
}

// Writes the start of a column, or the step from the number before; the answer is the place after
// it.
fn put_number(kind: Kind, last: Option<u64>, number: u64, out: &mut [u8], at: usize) -> usize
    requires { at + length (number_piece last (kind_width (kind_byte kind)) number) ≤ length out.old }
    ensures { (out.new
        ≡ pasted out.old at (number_piece last (kind_width (kind_byte kind)) number))
        × (result ≡ at + length (number_piece last (kind_width (kind_byte kind)) number)) }
{
    let Some(previous) = last else {
        put_u64(out, at, number);
        return at + 8;
    };
    put_step(kind, number.saturating_sub(previous), out, at)
}

// Writes a step in the width of its column; the answer is the place after it.
fn put_step(kind: Kind, step: u64, out: &mut [u8], at: usize) -> usize
    requires { at + kind_width (kind_byte kind) ≤ length out.old }
    ensures { (out.new
        ≡ pasted out.old at (le_bytes (kind_width (kind_byte kind)) step))
        × (result ≡ at + kind_width (kind_byte kind)) }
{
    match kind {
        Kind::Steps8 => {
            out[at] = (step % 256) as u8;
            at + 1
        },
        Kind::Steps16 => {
            put_u16(out, at, (step % 65536) as u16);
            at + 2
        },
        _ => {
            put_u32(out, at, (step % 4294967296) as u32);
            at + 4
        },
    }
}
