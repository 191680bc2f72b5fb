// What callers ask of a whole file; what its answer means, and 01's worked cases (specs/, proofs/).
#![tactic(auto)]

ghost use Rattle.std.specs.Prelude.{◌≡◌};
ghost use Rattle.reading.specs.Check.{read_of};
ghost use Rattle.file.specs.Meaning.{Means};
ghost use Rattle.file.specs.Totals.{Totalled};

use reading::{FileRead, State};

// The answer of a file, and its totals. The answer means: accepted exactly when the bytes are a file of the language,
// which then has one reading, where each item is counted in one trailer; refused, that the lines before the named one
// can be completed and with it cannot. The totals are the sums over the items of all batches, or of those closed before
// the line that is refused.
pub fn check(file: &[u8]) -> FileRead
    ensures answer { result ≡ read_of file.now }
    ensures meaning { Means file.now result.answer }
    ensures totals { Totalled file.now result.answer result.totals }
{
    let start = State::start();
    start.rest(file)
}
