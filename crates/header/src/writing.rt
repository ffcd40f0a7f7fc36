// A table of contents written over the first 121 bytes of a lent buffer. What varies is given;
// every other field has the value that the fixed rule gives it (specs/RuleBlock.antt of format).
ghost use Rattle.std.specs.Prelude.{◌≡◌, ◌+◌, ◌≤◌, length};
ghost use Rattle.base.specs.Paste.{pasted};
ghost use Rattle.format.specs.Header.{table_length, header_bytes};
ghost use Rattle.format.specs.RuleBlock.{header_with};
ghost use Rattle.header.specs.WrittenHeader.{
  zeros,
  length_bytes,
  count_bytes,
  raw_bytes,
  fields_of,
};

use crate::faults::{MAGIC, MIN_VERSION};
use crate::table::TABLE_LENGTH;
use integers::{put_u16, put_u32, put_u64};

// l_header, with no extra bytes.
const HEADER_LENGTH: u32 = TABLE_LENGTH as u32;

// q_type.
const QUALITY_TYPE: u32 = 40;

// The fields that vary from block to block.
#[derive(Clone, Copy)]
pub struct VaryingFields {
    pub l_dna: u32,
    pub l_names: u32,
    pub l_size: u32,
    pub l_n: u32,
    pub flags: u32,
    pub l_read: u32,
    pub n_reads: u32,
    pub l_dna_raw: u32,
    pub b_id: u64,
    pub c_time: u64,
}

// Writes the table of contents with these fields.
pub fn put_header(out: &mut [u8], fields: VaryingFields)
    requires { table_length ≤ length out.old }
    ensures { out.new
        ≡ pasted out.old 0 (header_bytes (header_with (fields_of fields))) }
{
    put_lengths(out, fields);
    put_counts(out, fields);
    put_raw_sizes(out, fields);
}

// Each part takes the whole buffer and not an array of its bytes, since it is lent as a slice and
// what is written is put together by `pasted`, part by part.

// Bytes 0 to 41: the magic, l_header, and the lengths of the sections.
fn put_lengths(out: &mut [u8], fields: VaryingFields)
    requires { table_length ≤ length out.old }
    ensures { out.new
        ≡ pasted out.old 0 (length_bytes fields.l_dna fields.l_names fields.l_size fields.l_n) }
{
    put_u16(out, 0, MAGIC);
    put_u32(out, 2, HEADER_LENGTH);
    put_u32(out, 6, fields.l_dna);
    put_u32(out, 10, fields.l_names);
    put_zeros(out, 14, 8);
    put_u32(out, 22, fields.l_size);
    put_u32(out, 26, fields.l_n);
    put_zeros(out, 30, 12);
}

// Bytes 42 to 63: flags, l_read, n_reads, version and b_id.
fn put_counts(out: &mut [u8], fields: VaryingFields)
    requires { table_length ≤ length out.old }
    ensures { out.new
        ≡ pasted out.old 42 (count_bytes fields.flags fields.l_read fields.n_reads fields.b_id) }
{
    put_u32(out, 42, fields.flags);
    put_u32(out, 46, fields.l_read);
    put_u32(out, 50, fields.n_reads);
    put_u16(out, 54, MIN_VERSION);
    put_u64(out, 56, fields.b_id);
}

// Bytes 64 to 120: q_type, the raw sizes, c_time and the checksums.
fn put_raw_sizes(out: &mut [u8], fields: VaryingFields)
    requires { table_length ≤ length out.old }
    ensures { out.new ≡ pasted out.old 64 (raw_bytes fields.l_dna_raw fields.c_time) }
{
    put_u32(out, 64, QUALITY_TYPE);
    put_zeros(out, 68, 5);
    put_u32(out, 73, fields.l_dna_raw);
    put_zeros(out, 77, 12);
    put_u64(out, 89, fields.c_time);
    put_zeros(out, 97, 24);
}

// Writes `count` zeros from `at` on.
fn put_zeros(out: &mut [u8], at: usize, count: usize)
    requires { at + count ≤ length out.old }
    ensures { out.new ≡ pasted out.old at (zeros count) }
{
    out[at..at + count].fill(0);
}
