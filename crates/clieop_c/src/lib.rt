// The library for other languages: functions on numbers and slices, each slice a pointer and a length there
// (library/clieop.h). Each returns its answer, column and line in one number. What is lent is written with answer 0
// only.
#![tactic(auto)]

ghost use Rattle.std.specs.Prelude.{◌≡◌, ◌≤◌, length};
ghost use Rattle.reading.specs.Check.{check_of};
ghost use Rattle.file.specs.Meaning.{Means};
ghost use Rattle.rewriting.specs.Rewriting.{rewritten_of, room_after};
ghost use Rattle.rewriting.specs.Promises.{Promised};
ghost use Rattle.clieop_c.specs.Returned.{packed, unpacked, number_after, written_after, rewrite_found};

use format::Answer;

mod item;
mod totals;

pub use item::clieop_item;
pub use totals::clieop_totals;

// An answer in one number: it in the lowest byte, its column in the next, its line above them. (No line is above
// 6,999,369,996, the one after the longest file.)
fn pack(a: Answer) -> u64
    requires { a.line ≤ 6999369996 }
    ensures number { result ≡ packed a }
    ensures read { unpacked result ≡ a }
{
    a.number as u64 + 256 * a.column as u64 + 65536 * a.line
}

// A number handed out, with answer 0 only.
fn put_number(a: Answer, n: u64, lent: &mut u64)
    ensures { lent.new ≡ number_after a n lent.old }
{
    if a.number == 0 {
        *lent = n;
    }
}

// The answer of a file, and what it means.
#[unsafe(no_mangle)]
pub extern "C" fn clieop_check(file: &[u8]) -> u64
    ensures number { result ≡ packed (check_of file.now) }
    ensures answer { unpacked result ≡ check_of file.now }
    ensures meaning { Means file.now (unpacked result) }
{
    pack(file::check(file).answer)
}

// A file written again without its city records, its lines ended by 13, 10, to the front of `out`, and to `written`
// how many bytes that are.
#[unsafe(no_mangle)]
pub extern "C" fn clieop_rewrite(file: &[u8], out: &mut [u8], written: &mut u64) -> u64
    ensures number { result ≡ packed (rewritten_of file.now (length out.old)).answer }
    ensures written { written.new
        ≡ written_after (rewritten_of file.now (length out.old)) written.old }
    ensures bytes { out.new ≡ room_after file.now out.old }
    ensures found { rewrite_found result written.new
        ≡ rewritten_of file.now (length out.old) }
    ensures again { Promised file.now (rewrite_found result written.new) out.new }
{
    let r = rewriting::rewrite(file, out);
    put_number(r.answer, r.written as u64, written);
    pack(r.answer)
}
