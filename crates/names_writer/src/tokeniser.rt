// The split of a name (02, Ticket 1): a run of digits hands over to a run of others, and that one
// to a run of digits, until the name ends. What is written is where each token ends.
ghost use Rattle.std.specs.Prelude.{◌≡◌, true, false, ◌+◌, ◌≤◌, ◌<◌, length, drop};
ghost use Rattle.base.specs.Paste.{pasted};
ghost use Rattle.tokens.specs.Split.{is_digit};
ghost use Rattle.tokens.specs.WrittenNames.{split_of};
ghost use Rattle.names_writer.specs.Runs.{run_length, token_ends, NameLent, RunLent};

// Writes the ends of the tokens of a name to the start of `marks`; the answer is how many there
// are.
pub fn split_name(name: &[u8], marks: &mut [u8]) -> usize
    requires { NameLent name.now marks.old }
    ensures { (marks.new
        ≡ pasted marks.old 0 (token_ends name.now 0))
        × (result ≡ length (split_of name.now)) }
{
    if name[0].is_ascii_digit() {
        return digit_run(name, 0, marks, 0);
    }
    other_run(name, 0, marks, 0)
}

// The tokens from `from` on, where a run of digits starts; `count` tokens stand before them. It and
// `other_run` stay two functions that call each other: docs/DECISIONS.md names this form in "Forms".
#[cycle(digit_run_other_run)]
fn digit_run(name: &[u8], from: usize, marks: &mut [u8], count: usize) -> usize
    requires { RunLent true name.now from marks.old count }
    ensures { (marks.new
        ≡ pasted marks.old count (token_ends name.now from))
        × (result ≡ count + length (split_of (drop from name.now))) }
{
    let end = run_end(name, from, true);
    marks[count] = end as u8;
    if end == name.len() {
        return count + 1;
    }
    other_run(name, end, marks, count + 1)
}

// The tokens from `from` on, where a run of others starts.
#[cycle(digit_run_other_run)]
fn other_run(name: &[u8], from: usize, marks: &mut [u8], count: usize) -> usize
    requires { RunLent false name.now from marks.old count }
    ensures { (marks.new
        ≡ pasted marks.old count (token_ends name.now from))
        × (result ≡ count + length (split_of (drop from name.now))) }
{
    let end = run_end(name, from, false);
    marks[count] = end as u8;
    if end == name.len() {
        return count + 1;
    }
    digit_run(name, end, marks, count + 1)
}

// Where the run of digits, or of others, from `from` on ends.
fn run_end(name: &[u8], from: usize, digits: bool) -> usize
    requires { from ≤ length name.now }
    ensures { result ≡ from + run_length digits (drop from name.now) }
{
    for i in from..name.len() {
        if name[i].is_ascii_digit() != digits {
            return i;
        }
    }
    name.len()
}
