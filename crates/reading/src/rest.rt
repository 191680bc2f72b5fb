// All that remains of a file.
ghost use Rattle.std.specs.Prelude.{◌≡◌};
ghost use Rattle.reading.specs.Check.{read_after};

use crate::line::refused_after;
use crate::{FileRead, State};

impl State {
    // The answer of a file of which these bytes remain, and its totals.
    pub fn rest(self, bytes: &[u8]) -> FileRead
        ensures { result ≡ read_after self bytes.now }
    {
        let judged = self.lines(bytes);
        let next = judged.next;
        let totals = next.totals;
        if let Err(fault) = judged.last {
            return FileRead {
                answer: refused_after(next.line, fault),
                totals,
            };
        }
        FileRead {
            answer: next.ended(),
            totals,
        }
    }
}
