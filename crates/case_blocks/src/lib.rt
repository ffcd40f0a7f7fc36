// The input of a case that is written as text (crate case_text), built line by line:
//
//   block FLAGS L_READ N_READS RAW   begins a block: a header of 121 bytes, version 20505, b_id 7
//   dna, names, sizes, n BYTES       goes on with a section of that block, which its length counts
//   bytes BYTES                      goes on with bytes that no length counts
//   put AT BYTES                     writes over what stands at an index of the input
//   cut LENGTH                       makes the input so long, with zeros where it was shorter
#![tactic(auto)]

ghost use Rattle.std.specs.Prelude.{◌≡◌, ◌+◌, ◌<◌, ◌≤◌, length};
ghost use Rattle.case_blocks.specs.Built.{BuiltIn, KindFits};

use case_text::lines::{LINE_FEED, rest};
use case_text::values::{number, put_bytes, put_numbers};
use integers::{put_u32, u32_at};

// More bytes than an input has.
pub const INPUT_CAPACITY: usize = 1_024;

const HEADER_LENGTH: usize = 121;

// Offsets of header fields.
const LENGTHS_AT: usize = 6;

const FLAGS_AT: usize = 42;

const L_READ_AT: usize = 46;

const N_READS_AT: usize = 50;

const L_DNA_RAW_AT: usize = 73;

// What a line does.
#[derive(Clone, Copy)]
enum Kind {
    // Goes on with the section of this number.
    Section(usize),
    Block,
    Bytes,
    Put,
    Cut,
    Nothing,
}

// What is built: where its last block begins, and where it ends.
#[derive(Clone, Copy)]
pub struct Built {
    pub start: usize,
    pub end: usize,
}

// The input of a case: the shared lines, then its own. Gives its length.
pub fn build(shared: &[u8], case: &[u8], out: &mut [u8]) -> usize
    requires { 1024 ≤ length out.old }
    ensures { result ≤ length out.old }
{
    let begun = build_lines(shared, Built { start: 0, end: 0 }, out);
    let built = build_lines(case, begun, out);
    built.end
}

fn build_lines(lines: &[u8], begun: Built, out: &mut [u8]) -> Built
    requires { BuiltIn begun (length out.old) }
    ensures { BuiltIn result (length out.old) }
{
    let mut built = begun;
    for line in lines.split(|byte| *byte == LINE_FEED) {
        built = build_line(line, built, out);
    }
    built
}

// One line; a line that says nothing of the input changes nothing.
fn build_line(line: &[u8], built: Built, out: &mut [u8]) -> Built
    requires { BuiltIn built (length out.old) }
    ensures { BuiltIn result (length out.old) }
{
    let values = rest(rest(line));
    match kind_of(line) {
        Kind::Section(number) => put_section(number, values, built, out),
        Kind::Block => put_block(values, built, out),
        Kind::Bytes => ended(built, put_bytes(values, out, built.end)),
        Kind::Put => {
            put_over(values, out);
            built
        }
        Kind::Cut => ended(built, cut(values, out)),
        Kind::Nothing => built,
    }
}

fn kind_of(line: &[u8]) -> Kind
    ensures { KindFits result }
{
    if line.starts_with(b" dna ") {
        return Kind::Section(0);
    }
    if line.starts_with(b" names ") {
        return Kind::Section(1);
    }
    if line.starts_with(b" sizes ") {
        return Kind::Section(4);
    }
    if line.starts_with(b" n ") {
        return Kind::Section(5);
    }
    if line.starts_with(b" block ") {
        return Kind::Block;
    }
    other_kind(line)
}

fn other_kind(line: &[u8]) -> Kind
    ensures { KindFits result }
{
    if line.starts_with(b" bytes ") {
        return Kind::Bytes;
    }
    if line.starts_with(b" put ") {
        return Kind::Put;
    }
    if line.starts_with(b" cut ") {
        return Kind::Cut;
    }
    Kind::Nothing
}

// The same block, with another end of the input.
fn ended(built: Built, end: usize) -> Built
    ensures { (result.start ≡ built.start) × (result.end ≡ end) }
{
    Built {
        start: built.start,
        end: end,
    }
}

// ---- Parts of an input

// Begins a block. One for which there is no room is left out.
fn put_block(values: &[u8], built: Built, out: &mut [u8]) -> Built
    requires { BuiltIn built (length out.old) }
    ensures { BuiltIn result (length out.old) }
{
    let start = built.end;
    if out.len() - start < HEADER_LENGTH {
        return built;
    }
    put_bytes(b"49 7c 79 00*51 19 50 07 00*7 28 00*56", out, start);
    put_fields(values, out, start);
    Built {
        start: start,
        end: start + HEADER_LENGTH,
    }
}

// The flags, l_read, n_reads and the raw DNA size of a header.
fn put_fields(values: &[u8], out: &mut [u8], start: usize)
    requires { start + 121 ≤ length out.old }
{
    let mut fields = [0u32; 4];
    put_numbers(values, &mut fields, 0);
    put_u32(out, start + FLAGS_AT, fields[0]);
    put_u32(out, start + L_READ_AT, fields[1]);
    put_u32(out, start + N_READS_AT, fields[2]);
    put_u32(out, start + L_DNA_RAW_AT, fields[3]);
}

// Goes on with a section of the last block, and adds to its length.
fn put_section(number: usize, values: &[u8], built: Built, out: &mut [u8]) -> Built
    requires number_bound { number < 9 }
    requires built_in { BuiltIn built (length out.old) }
    ensures { BuiltIn result (length out.old) }
{
    let from = built.end;
    let end = put_bytes(values, out, from);
    let at = built.start + LENGTHS_AT + 4 * number;
    let size = u32_at(out, at).wrapping_add(((end - from) % 65536) as u32);
    put_u32(out, at, size);
    ended(built, end)
}

// Where the input ends after it is cut.
fn cut(values: &[u8], out: &[u8]) -> usize
    ensures { result ≤ length out.now }
{
    out.len().min(number(values) as usize)
}

// Writes over what stands at an index.
fn put_over(values: &[u8], out: &mut [u8]) {
    let at = out.len().min(number(values) as usize);
    put_bytes(rest(values), out, at);
}
