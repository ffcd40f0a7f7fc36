// The table of contents at an input's start, which is there.
ghost use Rattle.std.specs.Prelude.{◌≤◌, length};
ghost use Rattle.format.specs.Header.{table_length};

// The length of the table of contents.
pub const TABLE_LENGTH: usize = 121;

// An input that begins with a table of contents.
#[derive(Clone, Copy)]
pub struct Table<'a> {
    pub input: &'a [u8],
    pub ghost there: { table_length ≤ length input.now },
}
