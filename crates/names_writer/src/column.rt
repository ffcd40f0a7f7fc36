// A column as far as it is measured. The contracts cite specs/Columns.antt.
ghost use Rattle.std.specs.Prelude.{◌≡◌, ◌+◌, ◌≤◌, length};
ghost use Rattle.names_writer.specs.Steps.{kind_byte, column_size};
ghost use Rattle.names_writer.specs.Columns.{Grown};

use crate::steps::{Kind, number_of};

// What is known of a column after so many tokens.
#[derive(Clone, Copy)]
pub struct Column {
    // The type so far.
    pub kind: Kind,
    // The number of the last token, if it is one.
    pub last: Option<u64>,
    // The size as strings.
    pub size: usize,
}

// A column of no tokens.
pub const EMPTY: Column = Column {
    kind: Kind::Steps8,
    last: None,
    size: 0,
};

impl Column {
    // With one more token.
    pub fn with(self, token: &[u8]) -> Column
        requires { (self.size ≤ 12_800_000) × (length token.now ≤ 255) }
        ensures { Grown self token.now result }
    {
        let size = self.size + (token.len() + 1);
        let Some(number) = number_of(token) else {
            return Column {
                kind: Kind::Strings,
                last: None,
                size,
            };
        };
        let kind = match self.last {
            None => self.kind,
            Some(previous) => self.kind.after(previous, number),
        };
        Column {
            kind,
            last: Some(number),
            size,
        }
    }

    // The size of a column of so many tokens.
    #[tactic(auto, unfolding(crate::specs::Steps::column_size))]
    pub fn size_of(self, reads: usize) -> usize
        requires { reads ≤ 50000 }
        ensures { result ≡ column_size (kind_byte self.kind) self.size reads }
    {
        if self.kind == Kind::Strings {
            return self.size;
        }
        8 + self.kind.width() * reads.saturating_sub(1)
    }
}
