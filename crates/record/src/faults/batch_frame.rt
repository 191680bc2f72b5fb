// What is wrong in the records of a batch's frame, field by field from the left.
ghost use Rattle.std.specs.Prelude.{◌≡◌};
ghost use Rattle.format.specs.Fields.{filled};
ghost use Rattle.format.specs.Tests.{ordering_party_tests, batch_trailer_tests};
ghost use Rattle.format.specs.Tests.{sequence_tests, name_code_tests, test_code_tests};
ghost use Rattle.format.specs.declared.Kind.TheVariants.{OrderingParty, BatchTrailer};
ghost use Rattle.field.specs.Rows.{part_at, answer_at};
ghost use Rattle.field.specs.Leaf.{numeric_answer};
ghost use Rattle.format.specs.Answers.{number_in};
ghost use Rattle.record.specs.Faults.{fault_read, fields_fault};
ghost use Rattle.record.specs.Faults.{batch_identification_answer, header_fault};

use crate::faults::at;
use crate::types::group_answer;
use crate::{Batch, Before, Fault};
use field::accounts::ordering;
use field::bytes::{is_same, part};
use field::dates::desired_answer;
use field::numbers::{equal_answer, ranged, total_answer};
use field::texts::{exactly_answer, filled_answer, filler_answer, optional_answer};
use format::{Group, Refusal, codes};

// A number from 1 to 9999, and the one after that before it where there is one.
fn sequence_answer(line: &[u8], last: u64) -> Result<(), Refusal>
    ensures { number_in result ≡ numeric_answer (sequence_tests last) (part_at 18 4 line.now) }
{
    let sequence = ranged(line, 17, 4, 1, Batch::MAX_SEQUENCE)?;
    if (last == 0) | (sequence - 1 == last) {
        return Ok(());
    }
    Err(Refusal::Differs)
}

// Filled for variant C, blank for B.
fn batch_identification_answer(line: &[u8], identified: bool) -> Result<(), Refusal>
    ensures { number_in result ≡ batch_identification_answer identified line.now }
{
    if identified {
        filled_answer(line, 24, 16)
    } else {
        filler_answer(line, 24, 16)
    }
}

pub(crate) fn batch_header(line: &[u8], identified: bool, before: Before) -> Result<(), Fault>
    ensures { fault_read result ≡ header_fault identified before line.now }
{
    at(6, group_answer(line, before))?;
    at(8, ordering(line, 7))?;
    at(18, sequence_answer(line, before.sequence))?;
    at(22, exactly_answer(line, 21, 3, &codes::CURRENCY))?;
    at(25, batch_identification_answer(line, identified))?;
    at(41, filler_answer(line, 40, 10))
}

fn name_code_answer(line: &[u8], group: Group) -> Result<(), Refusal>
    ensures { number_in result ≡ numeric_answer (name_code_tests group) (part_at 6 1 line.now) }
{
    let code = ranged(line, 5, 1, 1, 2)?;
    match group {
        Group::Debits if code != 1 => Err(Refusal::Differs),
        _ => Ok(()),
    }
}

fn test_code_answer(line: &[u8]) -> Result<(), Refusal>
    ensures { number_in result ≡ answer_at 48 (filled 1) test_code_tests line.now }
{
    filled_answer(line, 47, 1)?;
    let code = part(line, 47, 1);
    if is_same(code, &codes::PRODUCTION) | is_same(code, &codes::TEST) {
        return Ok(());
    }
    Err(Refusal::WrongValue)
}

pub(crate) fn ordering_party(line: &[u8], before: Before) -> Result<(), Fault>
    ensures { fault_read result ≡ fields_fault OrderingParty (ordering_party_tests before.group) line.now }
{
    at(6, name_code_answer(line, before.group))?;
    at(7, desired_answer(line, 6))?;
    at(13, optional_answer(line, 12, 35))?;
    at(48, test_code_answer(line))?;
    at(49, filler_answer(line, 48, 2))
}

pub(crate) fn batch_trailer(line: &[u8], batch: Batch) -> Result<(), Fault>
    ensures { fault_read result ≡ fields_fault BatchTrailer
        (batch_trailer_tests batch.total batch.accounts batch.items) line.now }
{
    at(
        6,
        total_answer(line, 5, 18, 1, Batch::MAX_TOTAL, batch.total),
    )?;
    at(24, equal_answer(line, 23, 10, batch.accounts))?;
    at(
        34,
        total_answer(line, 33, 7, 1, Batch::MAX_ITEMS, batch.items),
    )?;
    at(41, filler_answer(line, 40, 10))
}
