// What the programs read and write: the files that their arguments name, standard input and standard output. What
// cannot be opened, read or written is told on standard error, in one line. No contract can say which bytes the system
// gives or takes.
#![tactic(auto)]

mod failures;
mod input;
mod lines;
mod output;
mod reader;
mod reopening;
mod status;
mod twice;

pub use input::{Input, Program, each_input, is_given, open};
pub use lines::{Lines, TakesLines};
pub use output::{Printed, outcome, told};
pub use reader::Reader;
pub use reopening::anew;
pub use status::{NO_MORE, UNREAD, end, end_with, status_after, status_of, worse};
pub use twice::{Source, again, rereadable};

// The length of a buffer that lines are read into, or written from: 24 times 51 times 52, a whole number of lines with
// either end. One that is written from has 52 bytes a line, so it is full at a line's end.
pub const BUFFER: usize = 63648;
