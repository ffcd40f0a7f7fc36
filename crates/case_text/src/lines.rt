// The lines of a text, the cases in it, and the values that a word has in a case.
ghost use Rattle.std.specs.Prelude.{◌<◌, ◌≤◌, length};

use crate::values::{SPACE, place_of};

// What ends a line.
pub const LINE_FEED: u8 = 10;

// ---- Cases

// Where the first case begins, or where the text ends.
pub fn first_case(text: &[u8]) -> usize
    ensures { result ≤ length text.now }
{
    if text.is_empty() {
        return 0;
    }
    next_case(text, 0)
}

// Where the case after the line at `at` begins, or where the text ends.
pub fn next_case(text: &[u8], at: usize) -> usize
    requires { at < length text.now }
    ensures { (at < result) × (result ≤ length text.now) }
{
    let mut i = place_of(LINE_FEED, text, at) + 1;
    while i < text.len() {
        // A small letter begins a case.
        if text[i].is_ascii_lowercase() {
            return i;
        }
        i = place_of(LINE_FEED, text, i) + 1;
    }
    text.len()
}

// The lines that the case at `at` shares: the last part `all` before it, or none.
pub fn shared(text: &[u8], at: usize) -> &[u8]
    requires { at < length text.now }
{
    for i in (0..at).rev() {
        if text[i..].starts_with(b"\nall\n") {
            return &text[i..next_case(text, i + 1)];
        }
    }
    &[]
}

// The first line of a case: its call and its name.
pub fn first_line(case: &[u8]) -> &[u8] {
    &case[..place_of(LINE_FEED, case, 0)]
}

// What a word has in a case: its own values, or those that it shares.
pub fn value<'a>(shared: &'a [u8], case: &'a [u8], word: &[u8]) -> &'a [u8] {
    let own = found(case, word);
    if own.is_empty() {
        return found(shared, word);
    }
    own
}

// What follows a word on the first of some lines that begins with it; nothing where there is none.
fn found<'a>(lines: &'a [u8], word: &[u8]) -> &'a [u8] {
    for line in lines.split(|byte| *byte == LINE_FEED) {
        let values = after(line, word);
        if !values.is_empty() {
            return values;
        }
    }
    &[]
}

// ---- One line

// What follows a word with which a text begins; nothing where it begins otherwise.
pub fn after<'a>(text: &'a [u8], word: &[u8]) -> &'a [u8] {
    match text.strip_prefix(word) {
        Some(values) => values,
        None => &[],
    }
}

// Whether a text begins with a word.
pub fn begins_with(text: &[u8], word: &[u8]) -> bool {
    text.starts_with(word)
}

// What follows the first space of a text; nothing where there is none.
pub fn rest(text: &[u8]) -> &[u8] {
    match text.iter().position(|byte| *byte == SPACE) {
        Some(space) => &text[space + 1..],
        None => &[],
    }
}
