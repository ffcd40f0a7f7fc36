// The number of a token, and the type of a column token by token. The contracts cite specs/Steps.antt
// and specs/WrittenNames.antt of tokens.
ghost use Rattle.std.specs.Prelude.{◌≡◌, false, not, ◌+◌, ◌≤◌};
ghost use Rattle.base.specs.Lists.{any};
ghost use Rattle.tokens.specs.Split.{is_digit};
ghost use Rattle.tokens.specs.Columns.{max_number};
ghost use Rattle.tokens.specs.WrittenNames.{not_number, value_of};
ghost use Rattle.names_writer.specs.Steps.{token_number, kind_byte, KindRead};
ghost use Rattle.names_writer.specs.Steps.{widened, kind_after, kind_width};

// The type of a column. Its number is the byte that stands for it in a section.
#[derive(Clone, Copy, PartialEq, Eq)]
pub enum Kind {
    Strings = 0,
    Steps16 = 3,
    Steps8 = 4,
    Steps32 = 5,
}

// The largest number, of 18 digits.
const MAX_NUMBER: u64 = 999_999_999_999_999_999;

const MAX_DIGITS: usize = 18;

const MAX_STEP: u64 = 4_294_967_295;

// ---- The number of a token

// The number of a token; none where it must stay a string.
#[tactic(auto, unfolding(crate::specs::Steps::token_number))]
pub fn number_of(token: &[u8]) -> Option<u64>
    ensures { result ≡ token_number token.now }
{
    if not_number(token) {
        return None;
    }
    Some(value_of(token))
}

// Whether a token has a non-digit, a leading zero before another digit, or more than 18 digits.
#[tactic(auto, unfolding(tokens::specs::WrittenNames::not_number))]
fn not_number(token: &[u8]) -> bool
    ensures { result ≡ not_number token.now }
{
    if other_byte(token) {
        return true;
    }
    if token.len() <= 1 {
        return false;
    }
    if token[0] == 48 {
        return true;
    }
    MAX_DIGITS < token.len()
}

// Whether a byte is no digit.
fn other_byte(token: &[u8]) -> bool
    ensures { result ≡ any (λ byte. not (is_digit byte)) token.now }
{
    token.iter().any(|byte| !byte.is_ascii_digit())
}

// The number that the digits show.
fn value_of(token: &[u8]) -> u64
    requires { not_number token.now ≡ false }
    ensures { (result ≡ value_of token.now) × (result ≤ max_number) }
{
    let mut value: u64 = 0;
    for byte in token {
        value = value * 10 + u64::from(*byte - 48);
    }
    value
}

// ---- The type of a column

impl Kind {
    // The type with one more number, `previous` being the one before. A number of more than 18
    // digits makes strings of it.
    #[tactic(auto, unfolding(crate::specs::Steps::kind_after))]
    pub fn after(self, previous: u64, number: u64) -> Kind
        ensures { kind_byte result ≡ kind_after (kind_byte self) previous number }
    {
        if self == Kind::Strings {
            return Kind::Strings;
        }
        if MAX_NUMBER < number {
            return Kind::Strings;
        }
        if number < previous {
            return Kind::Strings;
        }
        if MAX_STEP < number - previous {
            return Kind::Strings;
        }
        self.widened(number - previous)
    }

    // The narrowest type of the steps so far and one more.
    #[tactic(auto, unfolding(crate::specs::Steps::widened, tokens::specs::Columns::step_type))]
    fn widened(self, step: u64) -> Kind
        ensures { kind_byte result ≡ widened (kind_byte self) step }
    {
        if 65_535 < step {
            return Kind::Steps32;
        }
        if step <= 255 {
            return self;
        }
        if self == Kind::Steps32 {
            return Kind::Steps32;
        }
        Kind::Steps16
    }

    // The width of the steps of a column, in bytes.
    #[tactic(auto, unfolding(crate::specs::Steps::kind_width, tokens::specs::Columns::step_type))]
    pub fn width(self) -> usize
        ensures { (result ≡ kind_width (kind_byte self)) × (result ≤ 4) }
    {
        match self {
            Kind::Steps8 => 1,
            Kind::Steps16 => 2,
            _ => 4,
        }
    }
}

// The type byte of a column with one more number, for any byte: one that is no type goes on as the
// types of steps do.
#[tactic(auto, unfolding(crate::specs::Steps::kind_after))]
pub fn kind_after(kind: u8, previous: u64, number: u64) -> u8
    ensures { result ≡ kind_after kind previous number }
{
    if kind == 0 {
        return 0;
    }
    if MAX_NUMBER < number {
        return 0;
    }
    if previous > number {
        return 0;
    }
    if MAX_STEP < number - previous {
        return 0;
    }
    widened(kind, number - previous)
}

// The narrowest type byte of the steps so far and one more.
#[tactic(auto, unfolding(crate::specs::Steps::widened, tokens::specs::Columns::step_type))]
fn widened(kind: u8, step: u64) -> u8
    ensures { result ≡ widened kind step }
{
    if 65_535 < step {
        return 5;
    }
    if step < 256 {
        return kind;
    }
    if kind == 5 {
        return 5;
    }
    3
}

impl From<Kind> for u8 {
    ghost from_gives = { λ kind byte. byte ≡ kind_byte kind };

    fn from(kind: Kind) -> u8 {
        kind as u8
    }
}

// A byte of another type is as one of the widest steps.
impl From<u8> for Kind {
    ghost from_gives = { λ byte kind. KindRead byte kind };

    #[tactic(auto, unfolding(crate::specs::Steps::kind_width, tokens::specs::Columns::step_type))]
    fn from(byte: u8) -> Kind {
        match byte {
            0 => Kind::Strings,
            3 => Kind::Steps16,
            4 => Kind::Steps8,
            _ => Kind::Steps32,
        }
    }
}
