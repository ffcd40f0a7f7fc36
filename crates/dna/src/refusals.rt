// The refusals of 01 (Numbers of refusal), each with its number: 1 to 11 of a block, then 12 to 20 of
// its DNA section group by group, then 21 and 22; 30 to 34 of the writer, which also gives 1; 40 and
// 41 of names. Every call that refuses answers one of these.
ghost use Rattle.std.specs.Prelude.{◌≡◌};
ghost use Rattle.dna.specs.Refused.{refusal_number, of_no_read};

#[derive(Clone, Copy, Debug, PartialEq, Eq)]
pub enum Refusal {
    // The reference has the wrong number of bytes, or G is too large.
    ReferenceSizeWrong = 1,

    // Fewer than 121 bytes.
    HeaderTruncated = 2,

    // The magic is not the bytes 49 7C.
    MagicWrong = 3,

    // Version not 20505 to 29999.
    VersionUnsupported = 4,

    // l_header below 121.
    HeaderLengthTooSmall = 5,

    // Flag 0x40 or 0x80 set.
    FlagUnsupported = 6,

    // n_reads outside 0 to 50,000.
    ReadCountOutOfRange = 7,

    // Header and sections longer than the input.
    SectionsTruncated = 8,

    // No list of lengths is what the header and the size section say.
    LengthsInvalid = 9,

    // The raw DNA size is not the sum of the lengths.
    DnaSizeWrong = 10,

    // The N section has not (n_reads + 7) / 8 bytes; or its byte is not the group's with-N byte.
    NSectionWrong = 11,

    // The DNA section ends too soon.
    DnaTruncated = 12,

    // A bit past the last read; a stray bit of a raw kind.
    FlagBitStray = 13,

    // A flag byte with two kinds, a global one that counts no entry, or a raw kind that counts any.
    RecordFlagInvalid = 14,

    // The stretch is not inside the reference.
    SpanOutsideReference = 15,

    // Left and right of a local record are together 0, or not below the length.
    ClipsInvalid = 16,

    // A later entry's offset is 0, or an entry is outside the aligned part.
    EntryOffsetInvalid = 17,

    // A letter of 4 bits above 4.
    BaseCodeInvalid = 18,

    // Padding that is not 0.
    PaddingNonzero = 19,

    // An N list of no position or more than 31, a later offset of 0 or a position outside the read; or
    // the with-N bit of a raw4 record.
    NPositionsInvalid = 20,

    // Bytes of the DNA section are left over.
    DnaTrailing = 21,

    // The letters, the ends, the names or their ends do not fit the lent buffer.
    CapacityTooSmall = 22,

    // Writer: reads above 50,000.
    ReadCountTooLarge = 30,

    // Writer: the four buffers of proposals are not one per read.
    CandidateCountWrong = 31,

    // Writer: the ends do not rise from 0 by 1 to 100,000, or the last is not the number of letters
    // (0 if there are no reads).
    ReadEndsInvalid = 32,

    // Writer: a letter that is not A, C, G, T or N.
    LetterInvalid = 33,

    // Writer: the block is longer than the lent buffer.
    BlockCapacityTooSmall = 34,

    // The names section stores no names: it is malformed, or has a negative start, or a number above
    // 999,999,999,999,999,999. Given after 21, before 22.
    NamesInvalid = 40,

    // Writer: names or their ends that break the rules, or are not one a read. Given after 33, before
    // 34.
    LentNamesInvalid = 41,
}

impl Refusal {
    // The number by which a refusal is known outside.
    #[tactic(auto, unfolding(crate::specs::Refused::refusal_number))]
    pub fn number(self) -> u32
        ensures { result ≡ refusal_number self }
    {
        self as u32
    }
}

// A refusal of a block, and the index of the read that earns it; 0 where no read does.
#[derive(Clone, Copy, Debug, PartialEq, Eq)]
pub struct BlockRefusal {
    pub refusal: Refusal,
    pub read: u64,
}

impl From<Refusal> for BlockRefusal {
    ghost from_gives = { λ refusal answer. answer ≡ of_no_read refusal };

    fn from(refusal: Refusal) -> BlockRefusal {
        BlockRefusal { refusal, read: 0 }
    }
}
