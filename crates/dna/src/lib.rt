// The types that the decoder, the encoder and every walk over records share (01, Records), and the
// refusals. Their meaning is given in specs/, which name none of them below the answers of the
// calls.

#![tactic(auto)]

pub mod refusals;

// The strand that a read was aligned to.
#[derive(Clone, Copy, PartialEq, Eq)]
pub enum Strand {
    Forward,
    Reverse,
}

// Where an aligned read lies on the reference (01: a place): its position, exact and never wrapped,
// where the stretch begins or, of a reverse local record, ends (02, Ticket 2); the strand; and the
// letters clipped at each end, 0 where the whole read is aligned.
#[derive(Clone, Copy)]
pub struct Placement {
    pub position: u64,
    pub strand: Strand,
    pub left: u8,
    pub right: u8,
}

// One record of the DNA section (01: each record is one of five kinds, and a placed one carries its
// own place).
#[derive(Clone, Copy)]
pub enum Record {
    Perfect(Placement),
    Global(Placement),
    Local(Placement),
    Raw,
    Raw4,
}

// The most entries that a record has, as many as the count of its flag byte can say.
pub const MAX_ENTRIES: usize = 31;

// The counts of a block or of a file (01: counts of a block; the last is that of 02, Ticket 4).
#[derive(Clone, Copy, Default)]
pub struct Counts {
    pub reads: u64,
    pub letters: u64,
    pub entries: u64,
    pub differences: u64,
    pub top: u64,
}
