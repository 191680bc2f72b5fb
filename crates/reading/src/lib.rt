// The reading state, the judging of a line, and the line reader.
#![tactic(auto)]

ghost use Rattle.std.specs.Prelude.{◌≡◌};
ghost use Rattle.reading.specs.State.{no_item, start_state};

use format::{Answer, Kind};
use record::{Batch, Before, Fault, Record, Totals};

mod judge;
mod line;
mod order;
mod rest;
mod step;

// How far a file is read: before its header, after it, in a batch before and after its ordering party, in an item,
// after a batch, after the file trailer.
#[derive(Clone, Copy, PartialEq, Eq)]
pub enum Stage {
    Start,
    Headed,
    Opened,
    Ordered,
    Item,
    Closed,
    Done,
}

// The name record of the open item: none wanted, one due, just read (a city may follow), or past.
#[derive(Clone, Copy, PartialEq, Eq)]
pub enum Name {
    Unwanted,
    Due,
    Read,
    Past,
}

// The open item: its name record, whether it has a reference, and its descriptions so far.
#[derive(Clone, Copy)]
pub struct OpenItem {
    pub name: Name,
    pub reference: bool,
    pub descriptions: u8,
}

// A file so far: the lines read, what crosses batches, the batch, what the closed batches come to, the stage, and the
// open item. (Numbers first, then what takes a byte: gaps between fields are copied with them, line by line.)
#[derive(Clone, Copy)]
pub struct State {
    pub line: u64,
    pub before: Before,
    pub batch: Batch,
    pub totals: Totals,
    pub stage: Stage,
    pub item: OpenItem,
}

// A line that was accepted: its kind, and how many bytes it took.
#[derive(Clone, Copy)]
pub struct Accepted {
    pub kind: Kind,
    pub bytes: usize,
}

// What the lines of some bytes come to: what the first one that is refused is refused for, or else the last one, which
// no bytes have; and the state after all that were accepted.
#[derive(Clone, Copy)]
pub struct Judged {
    pub last: Result<Option<Accepted>, Fault>,
    pub next: State,
}

// What a line is answered, the state after it, how many bytes it took (0 where nothing was read), and the record read
// with its text.
#[derive(Clone, Copy)]
pub struct LineRead {
    pub answer: Answer,
    pub next: State,
    pub bytes: usize,
    pub read: Record,
    pub text: [u8; 35],
}

// What a whole file is answered, and what its closed batches come to: all of them, or those before the line that is
// refused.
#[derive(Clone, Copy)]
pub struct FileRead {
    pub answer: Answer,
    pub totals: Totals,
}

fn no_item() -> OpenItem
    ensures { result ≡ no_item }
{
    OpenItem {
        name: Name::Unwanted,
        reference: false,
        descriptions: 0,
    }
}

impl State {
    // The lines of the longest accepted file.
    pub const MAX_LINE: u64 = 6999369995;

    // Before the first line.
    pub fn start() -> State
        ensures { result ≡ start_state }
    {
        let before = Before::nothing();
        let batch = Batch::empty();
        let totals = Totals::none();
        let item = no_item();
        State {
            line: 0,
            before,
            batch,
            totals,
            stage: Stage::Start,
            item,
        }
    }
}
