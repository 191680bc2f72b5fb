// The lines of some bytes, one after the other.
ghost use Rattle.std.specs.Prelude.{◌≡◌};

use crate::bytes::next_line;

// The lines that are still to come of some bytes.
#[derive(Clone, Copy)]
pub struct Lines<'a> {
    rest: &'a [u8],
}

// All lines of some bytes, the last one as far as the bytes go.
pub fn lines_in(bytes: &[u8]) -> Lines
    ensures { result.rest.now ≡ bytes.now }
{
    Lines { rest: bytes }
}

impl<'a> Iterator for Lines<'a> {
    ghost use Rattle.std.specs.Prelude.{length};
    ghost use Rattle.std.specs.Iterator.{YieldsFirstRef, at_most};
    ghost use Rattle.format.specs.Cutting.{lines_in};

    type Item = &'a [u8];

    ghost next_gives = { YieldsFirstRef (λ s. lines_in s.rest.now) };

    ghost remaining = { λ s. at_most (length s.rest.now) };

    fn next(&mut self) -> Option<&'a [u8]> {
        if self.rest.is_empty() {
            return None;
        }
        let line = next_line(self.rest, 0);
        self.rest = &self.rest[line.len()..];
        Some(line)
    }
}
