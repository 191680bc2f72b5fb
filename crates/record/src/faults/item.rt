// A transaction's fields, and what is wrong in them from the left, then in the batch with it.
ghost use Rattle.std.specs.Prelude.{◌≡◌};
ghost use Rattle.format.specs.Tests.{amount_tests, payer_tests, beneficiary_tests};
ghost use Rattle.field.specs.Rows.{part_at};
ghost use Rattle.field.specs.Leaf.{numeric_read, numeric_of};
ghost use Rattle.record.specs.Faults.{fault_read, maxima_fault};
ghost use Rattle.record.specs.Read.{fields_read, transaction_of};

use crate::faults::at;
use crate::types::{is_unchecked_type, type_answer, type_in};
use crate::{Batch, Fault, Transaction, TransactionFields};
use field::accounts::party;
use field::numbers::ranged;
use field::texts::filler_answer;
use format::{Group, Refusal, TransactionType};

fn amount_in(line: &[u8]) -> Result<u64, Refusal>
    ensures { numeric_read result ≡ numeric_of amount_tests (part_at 10 12 line.now) }
{
    ranged(line, 9, 12, 1, Transaction::MAX_AMOUNT)
}

fn payer_in(line: &[u8], t: Option<TransactionType>, group: Group, own: u64) -> Result<u64, Refusal>
    ensures { numeric_read result ≡ numeric_of (payer_tests group own t) (part_at 22 10 line.now) }
{
    party(
        line,
        21,
        group == Group::Payments,
        own,
        is_unchecked_type(t),
    )
}

fn beneficiary_in(
    line: &[u8],
    t: Option<TransactionType>,
    group: Group,
    own: u64,
) -> Result<u64, Refusal>
    ensures { numeric_read result ≡ numeric_of (beneficiary_tests group own t) (part_at 32 10 line.now) }
{
    party(line, 31, group == Group::Debits, own, is_unchecked_type(t))
}

// The fields of a transaction, and what is wrong in them first.
pub fn transaction_in(line: &[u8], group: Group, own: u64) -> Result<TransactionFields, Fault>
    ensures { fields_read result ≡ transaction_of group own line.now }
{
    let kind = type_in(line);
    at(6, type_answer(line, kind, group))?;
    let amount = at(10, amount_in(line))?;
    let payer = at(22, payer_in(line, kind, group, own))?;
    let beneficiary = at(32, beneficiary_in(line, kind, group, own))?;
    at(42, filler_answer(line, 41, 9))?;
    Ok(TransactionFields {
        kind,
        amount,
        payer,
        beneficiary,
    })
}

// The batch's maxima, with a next amount.
pub fn maxima_fault(batch: Batch, next: u64) -> Result<(), Fault>
    ensures { fault_read result ≡ maxima_fault batch next }
{
    if Batch::MAX_ITEMS <= batch.items {
        return at(1, Err(Refusal::AboveMaximum));
    }
    if Batch::MAX_TOTAL < batch.total.saturating_add(next) {
        return at(10, Err(Refusal::AboveMaximum));
    }
    Ok(())
}
