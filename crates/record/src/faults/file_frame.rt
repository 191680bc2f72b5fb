// What is wrong in a file's header and trailer, field by field from the left.
ghost use Rattle.std.specs.Prelude.{◌≡◌};
ghost use Rattle.format.specs.Fields.{filled};
ghost use Rattle.format.specs.Records.{layout};
ghost use Rattle.format.specs.Tests.{untested, file_header_tests};
ghost use Rattle.format.specs.Tests.{identification_tests};
ghost use Rattle.format.specs.declared.Kind.TheVariants.{FileHeader, FileTrailer};
ghost use Rattle.field.specs.Rows.{answer_at};
ghost use Rattle.format.specs.Answers.{number_in};
ghost use Rattle.record.specs.Faults.{fault_read, fields_fault};

use crate::Fault;
use crate::faults::at;
use crate::read::value_at;
use field::bytes::{is_digits, is_same, part};
use field::dates::date;
use field::numbers::ranged;
use field::texts::{exactly_answer, filled_answer, filler_answer};
use format::{Refusal, codes};

// The creation day, then a counter 01 to 99.
fn identification_answer(line: &[u8], created: u64) -> Result<(), Refusal>
    ensures { number_in result ≡ answer_at 25 (filled 4) (identification_tests created) line.now }
{
    filled_answer(line, 24, 4)?;
    if !is_digits(part(line, 24, 4)) {
        return Err(Refusal::WrongValue);
    }
    if is_same(part(line, 26, 2), &codes::NO_COUNTER) {
        return Err(Refusal::WrongValue);
    }
    if value_at(line, 24, 2) == created / 10000 {
        return Ok(());
    }
    Err(Refusal::Differs)
}

pub(crate) fn file_header(line: &[u8]) -> Result<(), Fault>
    ensures { fault_read result ≡ fields_fault FileHeader file_header_tests line.now }
{
    let created = at(6, date(line, 5))?;
    at(12, exactly_answer(line, 11, 8, &codes::FILE_NAME))?;
    at(20, filled_answer(line, 19, 5))?;
    at(25, identification_answer(line, created))?;
    at(29, ranged(line, 28, 1, 1, 2))?;
    at(30, filler_answer(line, 29, 21))
}

pub(crate) fn file_trailer(line: &[u8]) -> Result<(), Fault>
    ensures { fault_read result ≡ fields_fault FileTrailer (λ x. untested (layout FileTrailer)) line.now }
{
    at(6, filler_answer(line, 5, 45))
}
