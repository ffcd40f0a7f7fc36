// A part of some bytes that are cut at ends: a name of those that are lent, or a token of a name.
// The ends of names are of 32 bits, those of tokens of 8, since a name has at most 255 bytes;
// `put_row` takes those of tokens of 32 bits.
ghost use Rattle.std.specs.Prelude.{◌≡◌};
ghost use Rattle.base.specs.Lists.{part_ending};
ghost use Rattle.names_writer.specs.Lent.{PartLies};

// Part i: from the end of the one before it, or 0, to its own.
pub fn part_at<'a>(bytes: &'a [u8], ends: &[u32], i: usize) -> &'a [u8]
    requires { PartLies bytes.now ends.now i }
    ensures { result.now ≡ part_ending bytes.now ends.now i }
{
    let to = ends[i] as usize;
    if i == 0 {
        return &bytes[0..to];
    }
    &bytes[ends[i - 1] as usize..to]
}

// Token i of a name, in the same way.
pub fn token_at<'a>(name: &'a [u8], marks: &[u8], i: usize) -> &'a [u8]
    requires { PartLies name.now marks.now i }
    ensures { result.now ≡ part_ending name.now marks.now i }
{
    let to = marks[i] as usize;
    if i == 0 {
        return &name[0..to];
    }
    &name[marks[i - 1] as usize..to]
}
