// Numbers in decimal digits. The contracts cite specs/Decimal.antt and specs/Paste.antt of base.
ghost use Rattle.std.specs.Prelude.{◌≡◌, ◌+◌, ◌≤◌, ◌<◌, length};
ghost use Rattle.base.specs.Decimal.{decimal};
ghost use Rattle.base.specs.Paste.{pasted};

// How many digits a number has, which has 18 at most.
pub fn decimal_length(number: u64) -> usize
    requires { number < 1_000_000_000_000_000_000 }
    ensures { result ≡ length (decimal number) }
{
    if number == 0 {
        return 1;
    }
    number.ilog10() as usize + 1
}

// Writes the digits of a number from `at` on, the last first; the answer is the place after them.
pub fn put_decimal(number: u64, out: &mut [u8], at: usize) -> usize
    requires number_bound { number < 1_000_000_000_000_000_000 }
    requires number_in_bounds { at + length (decimal number) ≤ length out.old }
    ensures { (out.new ≡ pasted out.old at (decimal number))
        × (result ≡ at + length (decimal number)) }
{
    let count = decimal_length(number);
    let mut left = number;
    for k in (0..count).rev() {
        out[at + k] = 48 + (left % 10) as u8;
        left /= 10;
    }
    at + count
}
