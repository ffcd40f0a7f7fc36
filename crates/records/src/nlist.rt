// The N list of a record, field by field (01, Numbers of refusal): 12 for a cut field, else 20.
ghost use Rattle.std.specs.Prelude.{◌≡◌, cond, [], ◌+◌, ◌≤◌, ◌<◌, length};
ghost use Rattle.base.specs.Answer.{found};
ghost use Rattle.dna.specs.Refused.{numbered};
ghost use Rattle.dna.specs.Sizes.{max_read_length};
ghost use Rattle.dna.specs.Varint16At.{varint16_at, words_for};
ghost use Rattle.dna.specs.RecordAt.{offsets_at, n_list_at};
ghost use Rattle.records.specs.Decoded.{place_from, list_from};

use dna::refusals::Refusal;
use integers::u16_at;

// The place of an N in the read, and the byte after its words.
#[derive(Clone, Copy)]
pub struct NPlace {
    pub place: usize,
    pub next: usize,
}

// Where the words of an N list begin, how many places it has, and the byte after it.
#[derive(Clone, Copy)]
pub struct NList {
    pub first: usize,
    pub count: usize,
    pub end: usize,
}

// The N list at a place of the section, of a read of `size` letters; none without the with-N bit.
pub fn read_n_list(section: &[u8], at: usize, with_n: bool, size: usize) -> Result<NList, Refusal>
    requires { (at ≤ length section.now) × (size ≤ max_read_length) }
    ensures { numbered result ≡ list_from (at + cond with_n 1 0)
        (cond with_n (n_list_at size section.now at) (found [] at)) }
{
    if !with_n {
        return Ok(NList {
            first: at,
            count: 0,
            end: at,
        });
    }
    if section.len() <= at {
        return Err(Refusal::DnaTruncated);
    }
    let count = usize::from(section[at]);
    if count == 0 || 31 < count {
        return Err(Refusal::NPositionsInvalid);
    }
    read_n_places(section, at + 1, count, size)
}

// The place of an N, from the one before it: words of 16 bits, each refused as soon as its place
// leaves the read.
pub fn read_n_place(
    section: &[u8],
    start: usize,
    before: usize,
    size: usize,
) -> Result<NPlace, Refusal>
    requires { (start ≤ length section.now) × (before ≤ size) × (size ≤ max_read_length) }
    ensures { numbered result ≡ place_from before
        (varint16_at (words_for size) size before section.now start) }
{
    let mut at = start;
    let mut place = before;
    while 2 <= section.len() - at {
        let word = usize::from(u16_at(section, at));
        if 32768 < word {
            return Err(Refusal::NPositionsInvalid);
        }
        place += word;
        at += 2;
        if size <= place {
            return Err(Refusal::NPositionsInvalid);
        }
        if word < 32768 {
            return Ok(NPlace { place, next: at });
        }
    }
    Err(Refusal::DnaTruncated)
}

// So many places of an N list; each after the first is past the one before it.
fn read_n_places(section: &[u8], first: usize, count: usize, size: usize) -> Result<NList, Refusal>
    requires { (first ≤ length section.now) × (size ≤ max_read_length) }
    ensures { numbered result ≡ list_from first (offsets_at count size 0 0 section.now first) }
{
    let mut next = first;
    let mut place: usize = 0;
    let mut least: usize = 0;
    for _ in 0..count {
        let step = read_n_place(section, next, place, size)?;
        if step.place < place + least {
            return Err(Refusal::NPositionsInvalid);
        }
        place = step.place;
        next = step.next;
        least = 1;
    }
    Ok(NList {
        first,
        count,
        end: next,
    })
}
