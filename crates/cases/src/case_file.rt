// A case file: 16 bytes, then the cases, each a header of 104 bytes and a payload.
ghost use Rattle.std.specs.Prelude.{◌≡◌, ◌*◌, ◌≤◌, ◌<◌, ◌^◌, length};
ghost use Rattle.base.specs.Lists.{part};
ghost use Rattle.cases.specs.CaseFile.{
  case_header_length,
  count_answer,
  case_fields,
  case_size,
  case_answer,
  reference_start,
  input_start,
  letters_start,
  ends_start,
  names_start,
  name_ends_start,
  positions_start,
  strands_start,
  lefts_start,
  rights_start,
};

use integers::{u32_at, u64_at};

// Before the cases: the magic, the number of cases, zeros.
pub const FILE_HEADER_LENGTH: usize = 16;

pub const CASE_HEADER_LENGTH: usize = 104;

// The bytes ORACASE2.
const FILE_MAGIC: u64 = 0x3245_5341_4341_524f;

// The header of a case: how much a call is given and lent. What its kind does not use is 0.
#[derive(Clone, Copy)]
pub struct CaseHeader {
    // Of the whole case.
    pub length: u32,
    pub kind: u8,
    pub label: u8,
    pub bases: u64,
    pub b_id: u64,
    pub c_time: u64,
    pub reference: u32,
    pub input: u32,
    pub letters: u32,
    pub ends: u32,
    // The ends that are stored; the others are 0.
    pub stored: u32,
    pub positions: u32,
    pub strands: u32,
    pub lefts: u32,
    pub rights: u32,
    pub letters_lent: u32,
    pub ends_lent: u32,
    pub block_lent: u32,
    pub names: u32,
    pub name_ends: u32,
    // The name ends that are stored; the others are 0.
    pub names_stored: u32,
    pub names_lent: u32,
    pub name_ends_lent: u32,
}

// The number of cases that a file says that it has; none where it is not a case file.
pub fn read_count(file: &[u8]) -> Option<u32>
    ensures { result ≡ count_answer file.now }
{
    if file.len() < FILE_HEADER_LENGTH {
        return None;
    }
    if u64_at(file, 0) != FILE_MAGIC {
        return None;
    }
    Some(u32_at(file, 8))
}

// The case with which the bytes begin; none where they end too soon, or the payload has another
// length than the header says.
pub fn read_case(bytes: &[u8]) -> Option<CaseHeader>
    ensures { result ≡ case_answer bytes.now }
{
    if bytes.len() < CASE_HEADER_LENGTH {
        return None;
    }
    let header = read_header(bytes);
    let size = case_size(header);
    if size != header.length as usize {
        return None;
    }
    if bytes.len() < size {
        return None;
    }
    Some(header)
}

// ---- The parts of the payload

// Each has a function of its own: a struct of all ten would say these ten clauses again, and one
// function over an enum of the parts two `match`es of ten arms each, for where a part starts and
// for how long it is.

// The reference of the case with which the bytes begin.
pub fn reference_part(bytes: &[u8], header: CaseHeader) -> &[u8]
    ensures { result.now
        ≡ part bytes.now (reference_start header) header.reference }
{
    bytes_from(bytes, reference_start(header), header.reference as usize)
}

// The input, a block or a file of them.
pub fn input_part(bytes: &[u8], header: CaseHeader) -> &[u8]
    ensures { result.now ≡ part bytes.now (input_start header) header.input }
{
    bytes_from(bytes, input_start(header), header.input as usize)
}

// The letters that are given to the writer.
pub fn letters_part(bytes: &[u8], header: CaseHeader) -> &[u8]
    ensures { result.now ≡ part bytes.now (letters_start header) header.letters }
{
    bytes_from(bytes, letters_start(header), header.letters as usize)
}

// The ends that are stored, four bytes each.
pub fn ends_part(bytes: &[u8], header: CaseHeader) -> &[u8]
    ensures { result.now ≡ part bytes.now (ends_start header) (4 * header.stored) }
{
    bytes_from(bytes, ends_start(header), 4 * header.stored as usize)
}

// The names that are given to the writer.
pub fn names_part(bytes: &[u8], header: CaseHeader) -> &[u8]
    ensures { result.now ≡ part bytes.now (names_start header) header.names }
{
    bytes_from(bytes, names_start(header), header.names as usize)
}

// The name ends that are stored, four bytes each.
pub fn name_ends_part(bytes: &[u8], header: CaseHeader) -> &[u8]
    ensures { result.now
        ≡ part bytes.now (name_ends_start header) (4 * header.names_stored) }
{
    bytes_from(
        bytes,
        name_ends_start(header),
        4 * header.names_stored as usize,
    )
}

// The positions that are proposed, four bytes each.
pub fn positions_part(bytes: &[u8], header: CaseHeader) -> &[u8]
    ensures { result.now
        ≡ part bytes.now (positions_start header) (4 * header.positions) }
{
    bytes_from(
        bytes,
        positions_start(header),
        4 * header.positions as usize,
    )
}

// The strands that are proposed.
pub fn strands_part(bytes: &[u8], header: CaseHeader) -> &[u8]
    ensures { result.now ≡ part bytes.now (strands_start header) header.strands }
{
    bytes_from(bytes, strands_start(header), header.strands as usize)
}

// The letters clipped left and right that are proposed.
pub fn lefts_part(bytes: &[u8], header: CaseHeader) -> &[u8]
    ensures { result.now ≡ part bytes.now (lefts_start header) header.lefts }
{
    bytes_from(bytes, lefts_start(header), header.lefts as usize)
}

pub fn rights_part(bytes: &[u8], header: CaseHeader) -> &[u8]
    ensures { result.now ≡ part bytes.now (rights_start header) header.rights }
{
    bytes_from(bytes, rights_start(header), header.rights as usize)
}

// ---- Parts of the reading

// The fields of a header, each at its offset.
fn read_header(bytes: &[u8]) -> CaseHeader
    requires { case_header_length ≤ length bytes.now }
    ensures { result ≡ case_fields bytes.now }
{
    CaseHeader {
        length: u32_at(bytes, 0),
        kind: bytes[4],
        label: bytes[5],
        bases: u64_at(bytes, 8),
        b_id: u64_at(bytes, 16),
        c_time: u64_at(bytes, 24),
        reference: u32_at(bytes, 32),
        input: u32_at(bytes, 36),
        letters: u32_at(bytes, 40),
        ends: u32_at(bytes, 44),
        stored: u32_at(bytes, 48),
        positions: u32_at(bytes, 52),
        strands: u32_at(bytes, 56),
        lefts: u32_at(bytes, 60),
        rights: u32_at(bytes, 64),
        letters_lent: u32_at(bytes, 68),
        ends_lent: u32_at(bytes, 72),
        block_lent: u32_at(bytes, 76),
        names: u32_at(bytes, 80),
        name_ends: u32_at(bytes, 84),
        names_stored: u32_at(bytes, 88),
        names_lent: u32_at(bytes, 92),
        name_ends_lent: u32_at(bytes, 96),
    }
}

// The length that the header and the parts of the payload have.
fn case_size(header: CaseHeader) -> usize
    ensures { result ≡ case_size header }
{
    rights_start(header) + header.rights as usize
}

// Where the reference starts.
fn reference_start(header: CaseHeader) -> usize
    ensures { (result ≡ reference_start header) × (result < 2 ^ 9) }
{
    CASE_HEADER_LENGTH + usize::from(header.label)
}

// Where the input starts.
fn input_start(header: CaseHeader) -> usize
    ensures { (result ≡ input_start header) × (result < 2 ^ 33) }
{
    reference_start(header) + header.reference as usize
}

// Where each of the parts that are given to the writer starts.
fn letters_start(header: CaseHeader) -> usize
    ensures { (result ≡ letters_start header) × (result < 2 ^ 34) }
{
    input_start(header) + header.input as usize
}

fn ends_start(header: CaseHeader) -> usize
    ensures { (result ≡ ends_start header) × (result < 2 ^ 35) }
{
    letters_start(header) + header.letters as usize
}

fn names_start(header: CaseHeader) -> usize
    ensures { (result ≡ names_start header) × (result < 2 ^ 36) }
{
    ends_start(header) + 4 * header.stored as usize
}

fn name_ends_start(header: CaseHeader) -> usize
    ensures { (result ≡ name_ends_start header) × (result < 2 ^ 37) }
{
    names_start(header) + header.names as usize
}

fn positions_start(header: CaseHeader) -> usize
    ensures { (result ≡ positions_start header) × (result < 2 ^ 38) }
{
    name_ends_start(header) + 4 * header.names_stored as usize
}

fn strands_start(header: CaseHeader) -> usize
    ensures { (result ≡ strands_start header) × (result < 2 ^ 39) }
{
    positions_start(header) + 4 * header.positions as usize
}

fn lefts_start(header: CaseHeader) -> usize
    ensures { (result ≡ lefts_start header) × (result < 2 ^ 40) }
{
    strands_start(header) + header.strands as usize
}

fn rights_start(header: CaseHeader) -> usize
    ensures { (result ≡ rights_start header) × (result < 2 ^ 41) }
{
    lefts_start(header) + header.lefts as usize
}

// The `count` bytes from `from` on, or as many of them as there are.
fn bytes_from(bytes: &[u8], from: usize, count: usize) -> &[u8]
    ensures { result.now ≡ part bytes.now from count }
{
    if bytes.len() < from {
        return &bytes[..0];
    }
    if bytes.len() - from < count {
        return &bytes[from..];
    }
    &bytes[from..from + count]
}
