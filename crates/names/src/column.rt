// A column: its type, and where it has arrived between two rows. The contracts cite
// specs/ColumnsAt.antt of tokens and specs/Cursors.antt.
ghost use Rattle.std.specs.Prelude.{◌≡◌, ◌≤◌, IfSome, is_none};
ghost use Rattle.tokens.specs.ColumnsAt.{kind_invalid, step_width, number_width};
ghost use Rattle.names.specs.Cursors.{byte_of};

// Strings, or numbers that rise by steps of 8, 16 or 32 bits.
#[derive(Clone, Copy)]
pub enum Kind {
    Strings,
    Steps8,
    Steps16,
    Steps32,
}

// The place of the next token or step, and the number before it.
#[derive(Clone, Copy)]
pub struct Column {
    pub place: usize,
    pub value: u64,
    pub kind: Kind,
}

impl Kind {
    // The type that a byte of the table says.
    pub fn of(byte: u8) -> Option<Kind>
        ensures invalid { is_none result ≡ kind_invalid byte }
        ensures kind { IfSome result (λ kind. byte ≡ byte_of kind) }
    {
        match byte {
            0 => Some(Kind::Strings),
            4 => Some(Kind::Steps8),
            3 => Some(Kind::Steps16),
            5 => Some(Kind::Steps32),
            _ => None,
        }
    }

    // The bytes of a step; strings have none.
    pub fn step_width(self) -> usize
        ensures { (result ≡ step_width (byte_of self)) × (result ≤ 4) }
    {
        match self {
            Kind::Strings => 0,
            Kind::Steps8 => 1,
            Kind::Steps16 => 2,
            Kind::Steps32 => 4,
        }
    }

    // The bytes of a number.
    pub fn number_width(self, first: bool) -> usize
        ensures { (result ≡ number_width first (byte_of self)) × (result ≤ 8) }
    {
        if first { 8 } else { self.step_width() }
    }
}
