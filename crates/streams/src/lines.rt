// The lines of an input, from a lent buffer that is filled again when the line that stands next is not all in it: what
// is left is carried to the front.
ghost use Rattle.std.specs.Prelude.{◌≡◌, ℕ, List, length, ⊤};
ghost use Rattle.format.specs.Cutting.{next_line};
ghost use Rattle.streams.specs.Taking.{unread, left_in, passed_one, is_ready, carried_in, Pulled, Took};

use crate::Input;
use field::bytes::{next_line, part};

// What is done with the lines of an input, one after the other.
pub trait TakesLines {
    // What a line makes of it.
    ghost takes: { Self → List ℕ → Self → Type 0 } = { λ _ _ _. ⊤ };

    // Takes a line, or the input's end, which is an empty one; `failed` says that a read has failed. Whether it takes
    // another one.
    fn take(&mut self, rt: &HostRuntime, line: &[u8], failed: bool) -> bool
        ensures { takes self.old line.now self.new };
}

// How much of the buffer is taken and how far it is filled, whether the input is over, and whether a read failed.
#[derive(Clone, Copy)]
pub struct Lines {
    pub at: usize,
    pub end: usize,
    pub over: bool,
    pub failed: bool,
}

impl Lines {
    // Before the first read.
    pub fn start() -> Lines
        ensures { result ≡ unread }
    {
        Lines {
            at: 0,
            end: 0,
            over: false,
            failed: false,
        }
    }

    // The bytes that are not taken yet.
    fn left(self, buffer: &[u8]) -> &[u8]
        ensures { result.now ≡ left_in self buffer.now }
    {
        let filled = part(buffer, 0, self.end);
        part(filled, self.at, filled.len())
    }

    // Whether the line that stands next can be taken: all its bytes are in the buffer, or no more will come. That holds
    // of a broken line too: no more bytes would make it whole.
    fn is_ready(self, buffer: &[u8]) -> bool
        ensures { result ≡ is_ready self buffer.now }
    {
        let left = self.left(buffer);
        let cut = format::cut_of(left);
        self.over | (cut.bytes <= left.len())
    }

    // Moves what is left to the front of the buffer; the bytes behind it stay. How many bytes were moved.
    fn carry(self, buffer: &mut [u8]) -> usize
        ensures count { result ≡ length (left_in self buffer.old) }
        ensures bytes { buffer.new ≡ carried_in self buffer.old }
    {
        let count = self.left(buffer).len();
        for i in 0..count {
            buffer[i] = buffer[self.at + i];
        }
        count
    }

    // Reads on where the line that stands next is not all in the buffer and the input is not over: what is left comes
    // first, and the buffer is filled behind it.
    fn pulled(self, rt: &HostRuntime, input: &Input, buffer: &mut [u8]) -> Lines
        ensures { Pulled self buffer.old result buffer.new }
    {
        if self.is_ready(buffer) {
            return self;
        }
        let n = self.carry(buffer);
        let filled = input.fill(rt, &mut buffer[n..]);
        let failed = filled.is_err();
        let count = filled.unwrap_or_else(|count| count);
        let end = n + count;
        Lines {
            at: 0,
            end,
            over: (count == 0) | (end < buffer.len()),
            failed,
        }
    }

    // The bytes of the line that stands next in the buffer, or as many as are left.
    pub fn line(self, buffer: &[u8]) -> &[u8]
        ensures { result.now ≡ next_line (left_in self buffer.now) }
    {
        next_line(part(buffer, 0, self.end), self.at)
    }

    // After that line, so that the one after it stands next: before the first line, which is not read yet, that is the
    // first.
    pub fn next(self, rt: &HostRuntime, input: &Input, buffer: &mut [u8]) -> Lines
        ensures { Pulled (passed_one self buffer.old) buffer.old result buffer.new }
    {
        let line = self.line(buffer);
        let mut lines = self;
        lines.at = self.at + line.len();
        lines.pulled(rt, input, buffer)
    }

    // One line after the other, taken, as long as another one is: the last of them stands next then.
    pub fn each<T: TakesLines>(
        self,
        rt: &HostRuntime,
        input: &Input,
        buffer: &mut [u8],
        turns: &mut T,
    ) -> Lines
        ensures { Took T.takes turns.old (next_line (left_in result buffer.new)) turns.new }
    {
        let mut lines = self;
        for _turn in 0..u64::MAX {
            lines = lines.next(rt, input, buffer);
            if !turns.take(rt, lines.line(buffer), lines.failed) {
                return lines;
            }
        }
        lines
    }
}
