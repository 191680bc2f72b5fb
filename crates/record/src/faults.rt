// What is wrong in a record, field by field from the left. The columns and widths are those of 01's record table.
ghost use Rattle.std.specs.Prelude.{◌≡◌};
ghost use Rattle.format.specs.Records.{layout};
ghost use Rattle.format.specs.Tests.{untested};
ghost use Rattle.format.specs.declared.Kind.TheVariants.{CityPayer};
ghost use Rattle.record.specs.Faults.{fault_read, at_column, fields_fault, text_fault, other_fault};

use crate::faults::batch_frame::{batch_header, batch_trailer, ordering_party};
use crate::faults::file_frame::{file_header, file_trailer};
use crate::{Batch, Before, Fault};
use field::texts::{filled_answer, filler_answer, free_answer};
use format::{Kind, Refusal};

pub(crate) mod batch_frame;
pub(crate) mod file_frame;
pub mod item;

// What a field at that column is refused for.
pub(crate) fn at<T>(column: u8, read: Result<T, Refusal>) -> Result<T, Fault>
    ensures { result ≡ at_column column read }
{
    match read {
        Ok(value) => Ok(value),
        Err(refusal) => Err(Fault { refusal, column }),
    }
}

// A text of that width, and spaces after it.
fn text(line: &[u8], width: usize, start: usize, rest: usize, column: u8) -> Result<(), Fault>
    ensures { fault_read result ≡ text_fault width start rest column line.now }
{
    at(6, filled_answer(line, 5, width))?;
    at(column, filler_answer(line, start, rest))
}

fn city(line: &[u8]) -> Result<(), Fault>
    ensures { fault_read result ≡ fields_fault CityPayer (λ x. untested (layout CityPayer)) line.now }
{
    at(6, free_answer(line, 5, 45))
}

// The first fault of a line of that kind, in a batch so far. A transaction has none here: its fields are read with
// their faults, by `item::transaction_in`. (A function that takes what came before gets a copy: what goes to a call
// that is not inlined stands in memory, and on every line where it is the state's own.)
pub fn fault_in(kind: Kind, line: &[u8], before: Before, batch: Batch) -> Result<(), Fault>
    ensures { fault_read result ≡ other_fault before batch kind line.now }
{
    match kind {
        Kind::FileHeader => file_header(line),
        Kind::BatchHeaderB => batch_header(line, false, before),
        Kind::BatchHeaderC => batch_header(line, true, before),
        Kind::OrderingParty => ordering_party(line, before),
        Kind::Transaction => Ok(()),
        Kind::NamePayer | Kind::NameBeneficiary => text(line, 35, 40, 10, 41),
        Kind::CityPayer | Kind::CityBeneficiary => city(line),
        Kind::PaymentReference => text(line, 16, 21, 29, 22),
        Kind::FixedDescription | Kind::Description => text(line, 32, 37, 13, 38),
        Kind::BatchTrailer => batch_trailer(line, batch),
        Kind::FileTrailer => file_trailer(line),
    }
}
