// Cases that are written as text, for the test programs: the text is taken apart, and what a case
// gives is printed. The contracts say which part of a slice an index lies in, so that every step
// stays inside its text and its buffer.
//
// A line that begins with a small letter begins a case: a word for what is called, and the case's
// name. The lines after it that begin with a space are its own, a word and values each. The lines
// of a part `all` are shared by the cases after it, up to the next such part. What begins with # is
// a comment.
//
// Values stand apart by one space. A byte is two hexadecimal digits, and ' makes bytes of the
// characters after it; a number is decimal; *N behind a byte or a number repeats it; - is none.
#![tactic(auto)]

pub mod lines;
pub mod print;
pub mod values;
