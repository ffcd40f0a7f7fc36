// The tables of letters, which the caller makes once and lends to each call.
ghost use Rattle.std.specs.Prelude.{◌≡◌, true, false};
ghost use Rattle.reference.specs.Tables.{word_table};
ghost use Rattle.record_letters.specs.Printed.{pair_words};

// The letters of each byte: of four codes of two bits on each strand, and of two of four bits.
#[derive(Clone, Copy)]
pub struct Tables<'a> {
    pub forward: &'a [u64; 256],
    pub reverse: &'a [u64; 256],
    pub pairs: &'a [u16; 256],
    pub ghost forward_words: { forward.now ≡ word_table true },
    pub ghost reverse_words: { reverse.now ≡ word_table false },
    pub ghost pair_words: { pairs.now ≡ pair_words },
}
