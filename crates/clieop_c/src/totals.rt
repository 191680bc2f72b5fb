// The totals of a file, for other languages.
ghost use Rattle.std.specs.Prelude.{◌≡◌};
ghost use Rattle.reading.specs.Check.{check_of, read_of};
ghost use Rattle.file.specs.Meaning.{Means};
ghost use Rattle.clieop_c.specs.Returned.{packed, unpacked, items_after, amount_after, TotalsFound};

use crate::{pack, put_number};

// The answer of a file, and what it means; to `items` and `amount` how many items all its batches have, and their
// amounts in cents: the sums over its batches' items.
#[unsafe(no_mangle)]
pub extern "C" fn clieop_totals(file: &[u8], items: &mut u64, amount: &mut u64) -> u64
    ensures number { result ≡ packed (check_of file.now) }
    ensures answer { unpacked result ≡ check_of file.now }
    ensures items { items.new
        ≡ items_after (read_of file.now) items.old }
    ensures amount { amount.new
        ≡ amount_after (read_of file.now) amount.old }
    ensures meaning { Means file.now (unpacked result) }
    ensures totals { TotalsFound file.now items.new amount.new }
{
    let read = file::check(file);
    put_number(read.answer, read.totals.items, items);
    put_number(read.answer, read.totals.amount, amount);
    pack(read.answer)
}
