// The lengths of a block whose header earns none of 2 to 8, as every `requires` here says.
ghost use Rattle.std.specs.Prelude.{◌≡◌, false};
ghost use Rattle.dna.specs.Refused.{number_of};
ghost use Rattle.format.specs.Header.{header_of};
ghost use Rattle.format.specs.BlockAnswer.{header_refused, lengths_answer};
ghost use Rattle.lengths.specs.Given.{lengths_found, lengths_number};

use dna::refusals::Refusal;
use header::sections::{SIZE_SECTION, section};
use header::table::Table;

// The first of 9 and 10 that fits.
pub fn lengths_fault(input: &[u8]) -> Result<(), Refusal>
    requires { header_refused input.now ≡ false }
    ensures { number_of result ≡ lengths_number (header_of input.now).l_dna_raw
        (lengths_found (lengths_answer input.now)) }
{
    let table = Table { input };
    let sizes = section(input, SIZE_SECTION);
    let fixed = table.same_length();
    let reads = table.read_count();
    crate::lengths_fault(sizes, fixed, table.l_read(), reads, table.raw_dna_size())
}
